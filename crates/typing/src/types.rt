ghost use Rattle.std.specs.Prelude.{◌≡◌};
ghost use Rattle.typing.specs.Slots.{held_slot};

use grammar::tree::Node;
use language::bindings::{Binding, Holds};
use language::spans::Span;

// A place of the type table. A type is told by its place.
#[derive(Clone, Copy, Debug, Default, PartialEq, Eq)]
pub enum TypeEntry {
    #[default]
    Blank,
    Int,
    Bool,
    Hidden { module: Span, name: Span },
    Arrow { from: u16, to: u16, depth: u16 },
}

// A place of the scope table.
#[derive(Clone, Copy, Debug, Default, PartialEq, Eq)]
pub enum Slot {
    #[default]
    Blank,
    OfType(Binding<u16>),
    OfValue(Binding<u16>),
}

impl Holds for Slot {
    type Value = u16;

    ghost held = { held_slot };

    fn binding(&self, _link: u16) -> Option<Binding<u16>> {
        match *self {
            Slot::Blank => None,
            Slot::OfType(b) | Slot::OfValue(b) => Some(b),
        }
    }
}

// What is in scope: how many places of the scope table are in use, and where the search for a type name and for a value name begins.
#[derive(Clone, Copy, Debug, PartialEq, Eq)]
pub struct Scope {
    pub used: u16,
    pub types: u16,
    pub values: u16,
}

impl Scope {
    // Nothing in scope, with this many places in use.
    pub fn empty_at(used: u16) -> Scope
        ensures { result ≡ record { used = used; types = 0; values = 0 } }
    {
        Scope {
            used,
            types: 0,
            values: 0,
        }
    }
}

// The interface of a checked module: where the search for its type names and for its value names begins.
#[derive(Clone, Copy, Debug, Default, PartialEq, Eq)]
pub struct Interface {
    pub name: Span,
    pub types: u16,
    pub values: u16,
}

// An entry of the pantry: its name, and the number of its type.
#[derive(Clone, Copy)]
pub struct Known<'n> {
    pub name: &'n [u8],
    pub of: u16,
}

// What a check only reads: the text, the tree, the interfaces of the earlier modules, and the pantry's entries.
#[derive(Clone, Copy)]
pub struct Given<'g> {
    pub text: &'g [u8],
    pub tree: &'g [Node],
    pub interfaces: &'g [Interface],
    pub entries: &'g [Known<'g>],
}
