ghost use Rattle.std.specs.Prelude.{◌≡◌};
ghost use Rattle.grammar.specs.declared.faults.Fault.TheVariants.{Unexpected};
ghost use Rattle.grammar.specs.Steps.{next_place};

use crate::faults::Fault;
use language::spans::Span;
use words::{Keyword, Mark};

// What comes next in the text. Not the cursor's token: places have 16 bits, a number has its value, and the end is one of them.
#[derive(Clone, Copy)]
pub enum Next {
    End { at: u16 },
    Name { name: Span },
    Number { at: u16, value: i32 },
    Key { at: u16, key: Keyword },
    Sign { at: u16, mark: Mark },
}

impl Next {
    // Where the word stands, or where the text ends.
    pub fn place(self) -> u16
        ensures { result ≡ next_place self }
    {
        match self {
            Next::Name { name } => name.place,
            Next::End { at }
            | Next::Number { at, .. }
            | Next::Key { at, .. }
            | Next::Sign { at, .. } => at,
        }
    }

    // The refusal of a word with which no sheet goes on.
    pub fn unexpected(self) -> Fault
        ensures { result ≡ Unexpected (next_place self) }
    {
        Fault::Unexpected(usize::from(self.place()))
    }
}
