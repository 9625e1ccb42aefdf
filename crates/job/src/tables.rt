use language::bindings::Binding;

// What an expression comes to. A procedure is its `proc` or `letrec` part and the scope that it keeps; a pantry procedure is its
// entry's number.
#[derive(Clone, Copy, Debug, PartialEq, Eq)]
pub enum Value {
    Integer(i32),
    Boolean(bool),
    Closure { part: u16, scope: u16 },
    PantryProcedure(u8),
}

// A place of the cell table. A `letrec` name is bound to its part.
#[derive(Clone, Copy, Debug, PartialEq, Eq)]
pub enum Cell {
    Blank,
    Bound(Binding<Value>),
    Letrec(Binding<u16>),
}

// A place of the frame table: a form that waits for the value of its first part, or of its second.
#[derive(Clone, Copy, Debug, PartialEq, Eq)]
pub enum Frame {
    Blank,
    AwaitFirst { part: u16, scope: u16 },
    AwaitSecond { part: u16, scope: u16, value: Value },
}
