use crate::tables::{Cell, Frame, Value};
use grammar::tree::Operator;
use language::spans::Span;

// What is to be handed on: a value, or what an operation or a fetch gives.
#[derive(Clone, Copy)]
pub enum Yield {
    Plain(Value),
    Operation {
        operator: Operator,
        left: i32,
        right: i32,
    },
    Fetched {
        entry: u8,
        argument: i32,
    },
}

// Whether the top frame is removed with the action.
#[derive(Clone, Copy)]
pub enum Frames {
    Kept,
    Removed,
}

// What a step does, as it is decided before any table is touched.
#[derive(Clone, Copy)]
pub enum Action {
    Hands {
        frames: Frames,
        what: Yield,
    },
    Binds {
        frames: Frames,
        cell: Cell,
        to: u16,
    },
    Branches {
        to: u16,
        scope: u16,
    },
    PutsDown {
        frame: Frame,
        to: u16,
        scope: u16,
    },
    Replaces {
        frame: Frame,
        to: u16,
        scope: u16,
    },
    Defines {
        name: Span,
        value: Value,
        scope: u16,
    },
    Ends(Value),
}
