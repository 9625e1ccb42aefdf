ghost use Rattle.std.specs.Prelude.{◌≡◌};
ghost use Rattle.grammar.specs.Steps.{Whole};
ghost use Rattle.grammar.specs.Readers.{text_of, Gives};
ghost use Rattle.grammar.specs.Laying.{end_m, closing_m, sheet_m};

use crate::expected::Expected;
use crate::faults::Fault;
use crate::next::Next;
use crate::reader::{LEVELS, MODULES, Reader};
use words::Keyword;

impl Reader<'_, '_> {
    // The text's end.
    fn end_of_text(&mut self) -> Result<(), Fault>
        ensures { Gives (end_m) result self.old self.new }
    {
        let next = self.next()?;
        match next {
            Next::End { .. } => Ok(()),
            _ => Err(next.unexpected()),
        }
    }

    // The closing expression, whose first word is `first`, and nothing behind it.
    fn closing(&mut self, first: Next) -> Result<u16, Fault>
        requires { Whole (text_of self.old) first }
        ensures { Gives (closing_m first) result self.old self.new }
    {
        let close = self.expression_from(first, LEVELS)?;
        self.end_of_text()?;
        Ok(close)
    }

    // At most 32 modules, and the closing expression, whose place is the answer.
    pub fn whole_sheet(&mut self) -> Result<u16, Fault>
        ensures { Gives (sheet_m 32) result self.old self.new }
    {
        for _ in 0..MODULES {
            let first = self.next()?;
            if !Keyword::Module.is(first) {
                return self.closing(first);
            }
            self.module(first.place())?;
        }
        let first = self.next()?;
        if Keyword::Module.is(first) {
            return Err(Fault::TooManyModules(usize::from(first.place())));
        }
        self.closing(first)
    }
}
