use job::answers::Answer;
use language::spans::Span;
use line::faults::TooShort;
use line::lines::{write_line, write_refusal};
use line::outcomes::{Outcome, Value};
use line::types::ClosingType;
use pantry::factors::Factors;
use pantry::faults::NoAnswer;
use std::process::Abort;
use std::test;
use typing::types::TypeEntry;

// Asserts that the line of an outcome is the text, where the closing type is the arrow from the hidden type of `salt` to `int`.
fn tells(rt: &impl Abort, outcome: Outcome, line: &[u8]) -> Result<(), test::Fail> {
    let module = Span { place: 0, len: 4 };
    let name = Span { place: 5, len: 1 };
    let types = [
        TypeEntry::Int,
        TypeEntry::Hidden { module, name },
        TypeEntry::Arrow {
            from: 1,
            to: 0,
            depth: 2,
        },
    ];
    let closing = ClosingType {
        text: b"salt g",
        types: &types,
        number: 2,
    };
    let mut buffer = [0; 64];
    let n = write_line(&Factors, closing, outcome, &mut buffer)
        .ok()
        .ok_or("too short")?;
    assert_eq!(rt; buffer.get(..n), Some(line));
    Ok(())
}

#[test]
fn tells_a_procedure(rt: HostRuntime) -> Result<(), test::Fail> {
    let outcome = Outcome::Done {
        value: Value::Procedure,
        steps: 4_000_000_000,
    };
    tells(
        &rt,
        outcome,
        b"done (from salt take g -> int) hidden steps 4000000000\n",
    )
}

#[test]
fn tells_a_missing_answer(rt: HostRuntime) -> Result<(), test::Fail> {
    let fault = NoAnswer {
        entry: 4,
        argument: -5,
    };
    let answer = Answer::Stop {
        reason: fault.into(),
        steps: 4,
    };
    tells(&rt, answer.into(), b"stop 28 fibre-kcal -5 steps 4\n")
}

#[test]
fn leaves_a_short_buffer(rt: HostRuntime) {
    let mut buffer = [7; 23];
    assert_eq!(rt; write_refusal(TooShort.into(), &mut buffer), Err(TooShort));
    assert_eq!(rt; buffer, [7; 23]);
}
