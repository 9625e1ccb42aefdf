use checker::copying::{BLANK_ENTRY, MOST_ENTRIES};
use checker::{check, copy_entries, pass};
use grammar::read::{read, sheet};
use grammar::tree::Node;
use job::{Answer, Cell, Frame, Job, Reason, Value};
use pantry::{Pantry, no_items};
use std::test;
use typing::types::{Slot, TypeEntry};

// What the calls on one job answer, from its opening to its end.
#[derive(Clone, Copy)]
struct Answers {
    opened: Answer,
    first: Answer,
    second: Answer,
    last: Answer,
}

// Opens a job on a sheet of at most 32 nodes, advances it by the two allowances, and finishes it.
fn run_sheet<P: Pantry>(
    text: &[u8],
    pantry: &P,
    cells: &mut [Cell],
    frames: &mut [Frame],
    allowances: (u32, u32),
) -> Result<Answers, test::Fail> {
    let mut tree = [Node::Blank; 32];
    let close = read(text, &mut tree).ok().ok_or("not read")?;
    let sheet = sheet(text, &tree, close);
    let mut types = [TypeEntry::Blank; 16];
    let mut slots = [Slot::Blank; 8];
    let number = check(sheet, pantry, &mut types, &mut slots)
        .ok()
        .ok_or("not passed")?;
    let mut entries = [BLANK_ENTRY; MOST_ENTRIES];
    let count = copy_entries(pantry, &mut entries);
    let pass = pass(sheet, &entries[..count], &types, number);
    let mut job = Job::open(pass, cells, frames);
    let opened = job.status();
    let first = job.advance(cells, frames, pantry, allowances.0);
    let second = job.advance(cells, frames, pantry, allowances.1);
    let last = job.finish();
    Ok(Answers {
        opened,
        first,
        second,
        last,
    })
}

#[test]
fn goes_on_where_it_stood(rt: HostRuntime) -> Result<(), test::Fail> {
    let mut cells = [Cell::Blank; 4];
    let mut frames = [Frame::Blank; 4];
    let sum = run_sheet(b"+(1,2)", &no_items(), &mut cells, &mut frames, (4, 100))?;
    assert_eq!(rt; sum.opened, Answer::Going { steps: 0 });
    assert_eq!(rt; sum.first, Answer::Going { steps: 4 });
    assert_eq!(rt;
        sum.second,
        Answer::Done {
            value: Value::Integer(3),
            steps: 6
        }
    );
    assert_eq!(rt;
        sum.last,
        Answer::Done {
            value: Value::Integer(3),
            steps: 6
        }
    );
    Ok(())
}

#[test]
fn runs_a_module_first(rt: HostRuntime) -> Result<(), test::Fail> {
    let text = b"module m interface [x : int] body [x = let y = 1 in y] from m take x";
    let mut cells = [Cell::Blank; 4];
    let mut frames = [Frame::Blank; 4];
    let module = run_sheet(text, &no_items(), &mut cells, &mut frames, (5, 2))?;
    assert_eq!(rt; module.first, Answer::Going { steps: 5 });
    assert_eq!(rt;
        module.second,
        Answer::Done {
            value: Value::Integer(1),
            steps: 7
        }
    );
    Ok(())
}

#[test]
fn a_stop_is_no_step(rt: HostRuntime) -> Result<(), test::Fail> {
    let mut cells = [Cell::Blank; 4];
    let mut frames = [Frame::Blank; 4];
    let quotient = run_sheet(b"/(7,0)", &no_items(), &mut cells, &mut frames, (4, 1))?;
    assert_eq!(rt; quotient.first, Answer::Going { steps: 4 });
    assert_eq!(rt;
        quotient.second,
        Answer::Stop {
            reason: Reason::DivideByZero,
            steps: 4
        }
    );
    assert_eq!(rt;
        quotient.last,
        Answer::Stop {
            reason: Reason::DivideByZero,
            steps: 4
        }
    );
    Ok(())
}

#[test]
fn stops_at_a_full_table(rt: HostRuntime) -> Result<(), test::Fail> {
    let mut frames = [Frame::Blank; 4];
    let name = run_sheet(b"let x = 1 in x", &no_items(), &mut [], &mut frames, (9, 9))?;
    assert_eq!(rt;
        name.last,
        Answer::Stop {
            reason: Reason::NoCell,
            steps: 2
        }
    );
    let mut cells = [Cell::Blank; 4];
    let sum = run_sheet(b"+(1,2)", &no_items(), &mut cells, &mut [], (9, 9))?;
    assert_eq!(rt;
        sum.last,
        Answer::Stop {
            reason: Reason::NoFrame,
            steps: 0
        }
    );
    Ok(())
}
