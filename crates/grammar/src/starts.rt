ghost use Rattle.std.specs.Prelude.{◌≡◌, Option};
ghost use Rattle.grammar.specs.declared.next.Next.{Next};
ghost use Rattle.grammar.specs.Steps.{next_place};
ghost use Rattle.grammar.specs.Starts.{type_start, exp_start, declaration_start, definition_start, started};

use crate::faults::Fault;
use crate::forms::{DeclarationStart, DefinitionStart, ExpStart, TypeStart};
use crate::next::Next;
use crate::tree::Operator;
use words::{Keyword, Mark};

// The forms of one sort of part, by what begins them.
pub trait Start: Copy {
    ghost start_of: { Next → Option Self };

    // The form that begins so.
    fn of(first: Next) -> Option<Self>
        ensures { result ≡ start_of first };
}

// The form of a part whose first word is `first` and that may have at most `levels` levels.
pub fn begun<S: Start>(first: Next, levels: u8) -> Result<S, Fault>
    ensures { result ≡ started (S.start_of first) (next_place first) levels }
{
    let start = S::of(first).ok_or(first.unexpected())?;
    if levels == 0 {
        return Err(Fault::TooDeep(usize::from(first.place())));
    }
    Ok(start)
}

impl Start for TypeStart {
    ghost start_of = { type_start };

    fn of(first: Next) -> Option<TypeStart> {
        match first {
            Next::Name { name } => Some(TypeStart::Named(name)),
            Next::Key { key, .. } => match key {
                Keyword::Int => Some(TypeStart::Int),
                Keyword::Bool => Some(TypeStart::Bool),
                Keyword::From => Some(TypeStart::From),
                _ => None,
            },
            Next::Sign { mark, .. } => match mark {
                Mark::Open => Some(TypeStart::Arrow),
                _ => None,
            },
            _ => None,
        }
    }
}

impl Start for ExpStart {
    ghost start_of = { exp_start };

    fn of(first: Next) -> Option<ExpStart> {
        match first {
            Next::Name { name } => Some(ExpStart::Variable(name)),
            Next::Number { value, .. } => Some(ExpStart::Number(value)),
            Next::Key { key, .. } => match key {
                Keyword::True => Some(ExpStart::Boolean(true)),
                Keyword::False => Some(ExpStart::Boolean(false)),
                Keyword::From => Some(ExpStart::From),
                Keyword::IsZero => Some(ExpStart::IsZero),
                Keyword::Proc => Some(ExpStart::Proc),
                Keyword::Let => Some(ExpStart::Let),
                Keyword::If => Some(ExpStart::If),
                Keyword::Letrec => Some(ExpStart::Letrec),
                Keyword::Less => Some(ExpStart::Binary(Operator::Less)),
                _ => None,
            },
            Next::Sign { mark, .. } => match mark {
                Mark::Open => Some(ExpStart::Apply),
                Mark::Plus => Some(ExpStart::Binary(Operator::Plus)),
                Mark::Minus => Some(ExpStart::Binary(Operator::Minus)),
                Mark::Times => Some(ExpStart::Binary(Operator::Times)),
                Mark::Over => Some(ExpStart::Binary(Operator::Over)),
                _ => None,
            },
            Next::End { .. } => None,
        }
    }
}

impl Start for DeclarationStart {
    ghost start_of = { declaration_start };

    fn of(first: Next) -> Option<DeclarationStart> {
        match first {
            Next::Name { name } => Some(DeclarationStart::Value(name)),
            Next::Key { key, .. } => match key {
                Keyword::Opaque => Some(DeclarationStart::Opaque),
                Keyword::Transparent => Some(DeclarationStart::Transparent),
                _ => None,
            },
            _ => None,
        }
    }
}

impl Start for DefinitionStart {
    ghost start_of = { definition_start };

    fn of(first: Next) -> Option<DefinitionStart> {
        match first {
            Next::Name { name } => Some(DefinitionStart::Value(name)),
            Next::Key { key, .. } => match key {
                Keyword::Type => Some(DefinitionStart::Named),
                _ => None,
            },
            _ => None,
        }
    }
}
