use crate::tables::Value;
use language::spans::Span;

// A part is evaluated in a scope, or a value is returned.
#[derive(Clone, Copy)]
pub enum Control {
    Evaluate { part: u16, scope: u16 },
    Return(Value),
}

// What the value of the expression under way is for.
#[derive(Clone, Copy)]
pub enum Target {
    Defining { name: Span, scope: u16 },
    Closing,
}

// What a job is at, and how many cells and frames are in use.
#[derive(Clone, Copy)]
pub struct Registers {
    pub control: Control,
    pub target: Target,
    pub cells: u16,
    pub frames: u16,
}
