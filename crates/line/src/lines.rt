ghost use Rattle.std.specs.Prelude.{◌≡◌, ℕ, List};
ghost use Rattle.std.proofs.Math.ListN.{get_elem?};
ghost use Rattle.language.specs.Pantry.{stock_of};
ghost use Rattle.typing.specs.Told.{type_of_entry, type_within};
ghost use Rattle.line.specs.Sinks.{Put};
ghost use Rattle.line.specs.Lines.{answer, closing_of, line_of, name_of, refusal_bytes, steps_bytes, stop_bytes, value_bytes, written};

use crate::buffer::Front;
use crate::faults::TooShort;
use crate::outcomes::{Outcome, Refusal, Value};
use crate::sinks::{Measure, Sink};
use crate::types::ClosingType;
use itoa::{Buffer, Integer};
use job::Reason;
use pantry::pantries::Pantry;
use typing::types::TypeEntry;

// No type of a checked sheet is deeper.
const LEVELS: u8 = 32;

// What has a line of its own.
trait Told {
    ghost bytes: { Self → List ℕ };

    fn tell<S: Sink>(&self, sink: &mut S) -> Result<(), TooShort>
        ensures { Put S.room S.took (bytes self.now) result sink.old sink.new };
}

// Tells a number in decimal.
fn number<S: Sink, N: Integer>(sink: &mut S, n: N) -> Result<(), TooShort>
    ensures { Put S.room S.took (N.text n) result sink.old sink.new }
{
    sink.put(Buffer::new().format(n).as_bytes())
}

// Tells the steps, and ends the line.
fn steps<S: Sink>(sink: &mut S, n: u32) -> Result<(), TooShort>
    ensures { Put S.room S.took (steps_bytes n) result sink.old sink.new }
{
    sink.put(b" steps ")?;
    number(sink, n)?;
    sink.put(b"\n")
}

impl Told for Refusal {
    ghost bytes = { refusal_bytes };

    #[tactic(auto, unfolding(crate::specs::Lines::refusal_bytes))]
    fn tell<S: Sink>(&self, sink: &mut S) -> Result<(), TooShort> {
        sink.put(b"refused ")?;
        number(sink, self.number)?;
        sink.put(b" at ")?;
        number(sink, self.place)?;
        sink.put(b" by ")?;
        sink.put(self.layer.name())?;
        sink.put(b"\n")
    }
}

// The outermost form of the closing type.
fn outermost(closing: ClosingType) -> TypeEntry
    ensures { closing_of closing.entry ≡
        type_of_entry closing.entry.text.now (type_within 31 closing.entry.text.now closing.entry.types.now) result }
{
    closing.entry()
}

// Tells a value of the type, as far as that type shows it.
fn value<S: Sink>(sink: &mut S, closing: ClosingType, value: Value) -> Result<(), TooShort>
    ensures { Put S.room S.took (value_bytes (closing_of closing.entry) value) result sink.old sink.new }
{
    match (outermost(closing), value) {
        (TypeEntry::Int, Value::Integer(z)) => number(sink, z),
        (TypeEntry::Bool, Value::Boolean(true)) => sink.put(b"true"),
        (TypeEntry::Bool, Value::Boolean(false)) => sink.put(b"false"),
        _ => sink.put(b"hidden"),
    }
}

// The name of an entry, or nothing where the pantry has no such entry.
fn entry_name<P: Pantry>(pantry: &P, i: u8) -> &[u8]
    ensures { result.now ≡ name_of (get_elem? (stock_of (P.meaning pantry.now)) i) }
{
    pantry
        .entry(usize::from(i))
        .map(|entry| entry.name)
        .unwrap_or(b"")
}

// Tells why a job stopped: the number, and where the pantry has no answer the entry's name and the argument.
fn stop<S: Sink, P: Pantry>(sink: &mut S, pantry: &P, reason: Reason) -> Result<(), TooShort>
    ensures { Put S.room S.took (stop_bytes (P.meaning pantry.now) reason) result sink.old sink.new }
{
    number(sink, reason.number())?;
    if let Reason::NoAnswer(fault) = reason {
        sink.put(b" ")?;
        sink.put(entry_name(pantry, fault.entry))?;
        sink.put(b" ")?;
        number(sink, fault.argument)?;
    }
    Ok(())
}

// An outcome, with the pantry and the closing type that it speaks of.
#[derive(Drop)]
struct Report<'p, 't, 'y, P> {
    pantry: &'p P,
    closing: ClosingType<'t, 'y>,
    outcome: Outcome,
}

impl<P: Pantry> Told for Report<'_, '_, '_, P> {
    ghost bytes = { λ r. line_of (P.meaning r.pantry.now) (closing_of r.closing) r.outcome };

    fn tell<S: Sink>(&self, sink: &mut S) -> Result<(), TooShort> {
        match self.outcome {
            Outcome::Done { value: z, steps: n } => {
                sink.put(b"done ")?;
                self.closing.tell(sink, LEVELS)?;
                sink.put(b" ")?;
                value(sink, self.closing, z)?;
                steps(sink, n)
            }
            Outcome::Going { steps: n } => {
                sink.put(b"going")?;
                steps(sink, n)
            }
            Outcome::Stopped { reason, steps: n } => {
                sink.put(b"stop ")?;
                stop(sink, self.pantry, reason)?;
                steps(sink, n)
            }
            Outcome::Refused(refusal) => refusal.tell(sink),
        }
    }
}

// Writes the line at the front of the buffer, and gives its length. It is measured first, since a buffer that is too short stays as it is.
fn write<T: Told>(told: &T, buffer: &mut [u8]) -> Result<usize, TooShort>
    ensures answer { result ≡ answer (T.bytes told.now) buffer.old }
    ensures written { buffer.new ≡ written (T.bytes told.now) buffer.old }
{
    told.tell(&mut Measure { room: buffer.len() })?;
    let mut front = Front { buffer, at: 0 };
    told.tell(&mut front)?;
    Ok(front.at)
}

// Writes the line of an outcome at the front of the buffer, and gives its length.
pub fn write_line<P: Pantry>(
    pantry: &P,
    closing: ClosingType,
    outcome: Outcome,
    buffer: &mut [u8],
) -> Result<usize, TooShort>
    ensures answer { result ≡
        answer (line_of (P.meaning pantry.now) (closing_of closing.entry) outcome) buffer.old }
    ensures written { buffer.new ≡
        written (line_of (P.meaning pantry.now) (closing_of closing.entry) outcome) buffer.old }
{
    let report = Report {
        pantry,
        closing,
        outcome,
    };
    write(&report, buffer)
}

// Writes the line of a refusal at the front of the buffer, and gives its length.
pub fn write_refusal(refusal: Refusal, buffer: &mut [u8]) -> Result<usize, TooShort>
    ensures answer { result ≡ answer (refusal_bytes refusal) buffer.old }
    ensures written { buffer.new ≡ written (refusal_bytes refusal) buffer.old }
{
    write(&refusal, buffer)
}
