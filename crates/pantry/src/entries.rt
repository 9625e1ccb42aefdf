ghost use Rattle.std.specs.Prelude.{◌≡◌};
ghost use Rattle.language.specs.Pantry.{in_range};

// The greatest size of a figure, and of an argument.
pub const MAX_FIGURE: u32 = 2_000_000_000;

// The kind of an entry. A figure or a flag is the same for every argument; by item, it goes by the argument and may be missing.
#[derive(Clone, Copy, Debug, PartialEq, Eq)]
pub enum Kind {
    Figure,
    Flag,
    FigureByItem,
    FlagByItem,
}

// What a fetch gives: a figure or a flag.
#[derive(Clone, Copy, Debug, PartialEq, Eq)]
pub enum Answer {
    Number(i32),
    Truth(bool),
}

// An entry as a pantry lists it.
#[derive(Clone, Copy, Debug, PartialEq, Eq)]
pub struct Entry<'a> {
    pub name: &'a [u8],
    pub kind: Kind,
}

// An argument outside this range has no answer.
pub fn in_range(argument: i32) -> bool
    ensures { result ≡ in_range argument }
{
    argument.unsigned_abs() <= MAX_FIGURE
}
