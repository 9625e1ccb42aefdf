ghost use Rattle.std.specs.Prelude.{◌≡◌, ℕ, ◌-◌};
ghost use Rattle.grammar.specs.Productions.{a_type};
ghost use Rattle.grammar.specs.Steps.{Whole};
ghost use Rattle.grammar.specs.Readers.{text_of, Gives};
ghost use Rattle.grammar.specs.Laying.{part_m, from_m, type_m, arrow_m, taken_m, qualified_type_m, parameter_m};

use crate::faults::Fault;
use crate::forms::TypeStart;
use crate::next::Next;
use crate::reader::Reader;
use crate::starts::begun;
use crate::tree::TypeNode;
use language::spans::Span;
use words::{Keyword, Mark};

impl Reader<'_, '_> {
    // A type of at most `levels` levels.
    #[cycle(types)]
    pub fn ty(&mut self, levels: u8) -> Result<u16, Fault>
        ensures { Gives (part_m a_type levels) result self.old self.new }
    {
        let first = self.next()?;
        let start = begun(first, levels)?;
        self.type_form(start, first.place(), levels - 1)
    }

    // The rest of a type behind its first word, which stands at `at`; its parts have at most `levels` levels.
    #[cycle(types)]
    fn type_form(&mut self, start: TypeStart, at: u16, levels: u8) -> Result<u16, Fault>
        ensures { Gives (type_m at levels start) result self.old self.new }
    {
        // A match and no table of closures: each form goes on with words of its own.
        match start {
            TypeStart::Int => self.place(TypeNode::Int { at }, at),
            TypeStart::Bool => self.place(TypeNode::Bool { at }, at),
            TypeStart::Named(name) => self.place(TypeNode::Named { name }, at),
            TypeStart::From => self.qualified_type(at),
            TypeStart::Arrow => self.arrow(at, levels),
        }
    }

    // A module's name and the name taken from it.
    pub fn taken(&mut self) -> Result<(Span, Span), Fault>
        ensures { Gives (taken_m) result self.old self.new }
    {
        let module = self.name()?;
        self.expect(Keyword::Take)?;
        let name = self.name()?;
        Ok((module, name))
    }

    fn qualified_type(&mut self, at: u16) -> Result<u16, Fault>
        ensures { Gives (qualified_type_m at) result self.old self.new }
    {
        let (module, name) = self.taken()?;
        self.place(TypeNode::From { at, module, name }, at)
    }

    #[cycle(types)]
    fn arrow(&mut self, at: u16, levels: u8) -> Result<u16, Fault>
        ensures { Gives (arrow_m at levels) result self.old self.new }
    {
        let from = self.ty(levels)?;
        self.expect(Mark::Arrow)?;
        let to = self.ty(levels)?;
        self.expect(Mark::Shut)?;
        self.place(TypeNode::Arrow { at, from, to }, at)
    }

    // A parameter with its type, in parentheses.
    pub fn parameter(&mut self, levels: u8) -> Result<(Span, u16), Fault>
        ensures { Gives (parameter_m levels) result self.old self.new }
    {
        self.expect(Mark::Open)?;
        let name = self.name()?;
        self.expect(Mark::Colon)?;
        let of = self.ty(levels)?;
        self.expect(Mark::Shut)?;
        Ok((name, of))
    }
}
