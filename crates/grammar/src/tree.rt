use language::spans::Span;

#[derive(Clone, Copy, Debug, PartialEq, Eq)]
pub enum Operator {
    Plus,
    Minus,
    Times,
    Over,
    Less,
}

// A written type. Its parts are named by their places in the table; `at` is its first byte in the text.
#[derive(Clone, Copy, Debug, PartialEq, Eq)]
pub enum TypeNode {
    Int { at: u16 },
    Bool { at: u16 },
    Named { name: Span },
    From { at: u16, module: Span, name: Span },
    Arrow { at: u16, from: u16, to: u16 },
}

// An expression.
#[derive(Clone, Copy, Debug, PartialEq, Eq)]
pub enum ExpNode {
    Number {
        at: u16,
        value: i32,
    },
    Boolean {
        at: u16,
        value: bool,
    },
    Variable {
        name: Span,
    },
    From {
        at: u16,
        module: Span,
        name: Span,
    },
    IsZero {
        at: u16,
        part: u16,
    },
    Apply {
        at: u16,
        operator: u16,
        operand: u16,
    },
    Proc {
        at: u16,
        parameter: Span,
        of: u16,
        body: u16,
    },
    Let {
        at: u16,
        name: Span,
        bound: u16,
        body: u16,
    },
    If {
        at: u16,
        test: u16,
        consequent: u16,
        alternative: u16,
    },
    Letrec {
        at: u16,
        result: u16,
        name: Span,
        parameter: Span,
        of: u16,
        body: u16,
        rest: u16,
    },
    Binary {
        at: u16,
        operator: Operator,
        left: u16,
        right: u16,
    },
}

// A declaration, a definition, or the end of a module. Its parts and the module's items stand before it.
#[derive(Clone, Copy, Debug, PartialEq, Eq)]
pub enum Item {
    Opaque { at: u16, name: Span },
    Transparent { at: u16, name: Span, is: u16 },
    Declared { name: Span, of: u16 },
    TypeIs { at: u16, name: Span, is: u16 },
    ValueIs { name: Span, is: u16 },
    Module { at: u16, name: Span },
}

// A place of the tree table.
#[derive(Clone, Copy, Debug, PartialEq, Eq)]
pub enum Node {
    Blank,
    Type(TypeNode),
    Expression(ExpNode),
    Item(Item),
}
