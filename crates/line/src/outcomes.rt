ghost use Rattle.std.specs.Prelude.{◌≡◌};
ghost use Rattle.line.specs.Lines.{layer_bytes};

use job::Reason;

// A closing value. No line tells more of a procedure.
#[derive(Clone, Copy, PartialEq, Eq, Debug)]
pub enum Value {
    Integer(i32),
    Boolean(bool),
    Procedure,
}

// The layer that refuses. The two that read a text have an enum of their own, since no other can refuse there.
#[derive(Clone, Copy, PartialEq, Eq, Debug)]
pub enum Layer {
    Words,
    Grammar,
    Check,
    Items,
    Line,
}

impl Layer {
    // Bytes and no Display: a line goes into a sink, which is no formatter.
    pub(crate) fn name(self) -> &'static [u8]
        ensures { result.now ≡ layer_bytes self }
    {
        match self {
            Layer::Words => b"words",
            Layer::Grammar => b"grammar",
            Layer::Check => b"check",
            Layer::Items => b"items",
            Layer::Line => b"line",
        }
    }
}

// A fault of a sheet, of the item file or of the line itself.
#[derive(Clone, Copy, PartialEq, Eq, Debug)]
pub struct Refusal {
    pub number: u8,
    pub place: usize,
    pub layer: Layer,
}

// What a line tells: a job's answer, with a procedure's parts left out, or a refusal. No Result: the laws of the line speak of
// all four cases alike.
#[derive(Clone, Copy, Debug, PartialEq, Eq)]
pub enum Outcome {
    Done { value: Value, steps: u32 },
    Going { steps: u32 },
    Stopped { reason: Reason, steps: u32 },
    Refused(Refusal),
}
