use crate::reasons::Reason;
use crate::registers::Registers;
use crate::tables::Value;

// A job goes on with its registers, or has ended and keeps its end. No Result: a stop is a way to stand, which nothing hands on by `?`.
#[derive(Clone, Copy)]
pub enum Status {
    Running(Registers),
    Finished(Value),
    Stopped(Reason),
}

// What a call answers, always with the total of steps. No Result: a stop is an answer like the others.
#[derive(Clone, Copy, Debug, PartialEq, Eq)]
pub enum Answer {
    Going { steps: u32 },
    Done { value: Value, steps: u32 },
    Stop { reason: Reason, steps: u32 },
}

// How a job stands, and how many steps it has made.
#[derive(Clone, Copy)]
pub struct Progress {
    pub status: Status,
    pub steps: u32,
}
