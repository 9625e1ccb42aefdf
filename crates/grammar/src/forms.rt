use crate::tree::Operator;
use language::spans::Span;

// The forms of types, by what begins them. Not yet nodes: their parts are still to be read.
#[derive(Clone, Copy)]
pub enum TypeStart {
    Int,
    Bool,
    Named(Span),
    From,
    Arrow,
}

// The forms of expressions, by what begins them. Not yet nodes, like those of types.
#[derive(Clone, Copy)]
pub enum ExpStart {
    Number(i32),
    Boolean(bool),
    Variable(Span),
    From,
    IsZero,
    Apply,
    Proc,
    Let,
    If,
    Letrec,
    Binary(Operator),
}

// The forms of declarations, by what begins them. Not yet items.
#[derive(Clone, Copy)]
pub enum DeclarationStart {
    Opaque,
    Transparent,
    Value(Span),
}

// The forms of definitions, by what begins them. Not yet items.
#[derive(Clone, Copy)]
pub enum DefinitionStart {
    Named,
    Value(Span),
}
