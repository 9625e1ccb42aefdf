ghost use Rattle.std.specs.Prelude.{◌≡◌};
ghost use Rattle.grammar.specs.Productions.{Sort, a_declaration, a_definition};
ghost use Rattle.grammar.specs.Steps.{Whole};
ghost use Rattle.grammar.specs.Readers.{text_of, Gives};
ghost use Rattle.grammar.specs.Laying.{from_m, many_m, opaque_m, equated_m, transparent_m, declared_m, type_is_m, value_is_m};
ghost use Rattle.grammar.specs.Laying.{headed_m, module_m};

use crate::expected::Expected;
use crate::faults::Fault;
use crate::forms::{DeclarationStart, DefinitionStart};
use crate::next::Next;
use crate::reader::{LEVELS, Reader};
use crate::starts::begun;
use crate::tree::Item;
use language::spans::Span;
use words::{Keyword, Mark};

// What may stand in brackets, one after the other.
pub trait Listed {
    ghost sort: { Sort };

    // One of them, whose first word is `first`.
    fn read(reader: &mut Reader, first: Next) -> Result<u16, Fault>
        requires { Whole (text_of reader.old) first }
        ensures { Gives (from_m sort first 49) result reader.old reader.new };
}

impl Listed for DeclarationStart {
    ghost sort = { a_declaration };

    fn read(reader: &mut Reader, first: Next) -> Result<u16, Fault> {
        let at = first.place();
        match begun(first, LEVELS + 1)? {
            DeclarationStart::Opaque => reader.opaque_type(at),
            DeclarationStart::Transparent => reader.transparent_type(at),
            DeclarationStart::Value(name) => reader.declared(name, at),
        }
    }
}

impl Listed for DefinitionStart {
    ghost sort = { a_definition };

    fn read(reader: &mut Reader, first: Next) -> Result<u16, Fault> {
        let at = first.place();
        match begun(first, LEVELS + 1)? {
            DefinitionStart::Named => reader.type_is(at),
            DefinitionStart::Value(name) => reader.value_is(name, at),
        }
    }
}

impl Reader<'_, '_> {
    fn opaque_type(&mut self, at: u16) -> Result<u16, Fault>
        ensures { Gives (opaque_m at) result self.old self.new }
    {
        let name = self.name()?;
        self.place(Item::Opaque { at, name }, at)
    }

    // A type's name and what it is.
    fn equated(&mut self) -> Result<(Span, u16), Fault>
        ensures { Gives (equated_m 48) result self.old self.new }
    {
        let name = self.name()?;
        self.expect(Mark::Equal)?;
        let is = self.ty(LEVELS)?;
        Ok((name, is))
    }

    // Shares `equated` with `type_is`; what is left is the node.
    fn transparent_type(&mut self, at: u16) -> Result<u16, Fault>
        ensures { Gives (transparent_m at 48) result self.old self.new }
    {
        let (name, is) = self.equated()?;
        self.place(Item::Transparent { at, name, is }, at)
    }

    fn type_is(&mut self, at: u16) -> Result<u16, Fault>
        ensures { Gives (type_is_m at 48) result self.old self.new }
    {
        let (name, is) = self.equated()?;
        self.place(Item::TypeIs { at, name, is }, at)
    }

    // Not one function with `value_is`: the mark, the part and the node all differ.
    fn declared(&mut self, name: Span, at: u16) -> Result<u16, Fault>
        ensures { Gives (declared_m name at 48) result self.old self.new }
    {
        self.expect(Mark::Colon)?;
        let of = self.ty(LEVELS)?;
        self.place(Item::Declared { name, of }, at)
    }

    fn value_is(&mut self, name: Span, at: u16) -> Result<u16, Fault>
        ensures { Gives (value_is_m name at 48) result self.old self.new }
    {
        self.expect(Mark::Equal)?;
        let is = self.expression(LEVELS)?;
        self.place(Item::ValueIs { name, is }, at)
    }

    // Declarations or definitions up to and with a `]`.
    fn list<L: Listed>(&mut self) -> Result<(), Fault>
        ensures { Gives (many_m L.sort) result self.old self.new }
    {
        loop {
            let first = self.next()?;
            if Mark::End.is(first) {
                return Ok(());
            }
            L::read(self, first)?;
        }
    }

    // A keyword and the list that it heads, in brackets.
    fn headed<L: Listed>(&mut self, head: Keyword) -> Result<(), Fault>
        ensures { Gives (headed_m head L.sort) result self.old self.new }
    {
        self.expect(head)?;
        self.expect(Mark::Begin)?;
        self.list::<L>()
    }

    // A module behind its first word, which stands at `at`.
    pub fn module(&mut self, at: u16) -> Result<u16, Fault>
        ensures { Gives (module_m at) result self.old self.new }
    {
        let name = self.name()?;
        self.headed::<DeclarationStart>(Keyword::Interface)?;
        self.headed::<DefinitionStart>(Keyword::Body)?;
        self.place(Item::Module { at, name }, at)
    }
}
