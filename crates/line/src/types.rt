ghost use Rattle.std.specs.Prelude.{◌≡◌};
ghost use Rattle.language.specs.Typing.{hidden};
ghost use Rattle.typing.specs.Told.{entry_told, type_within};
ghost use Rattle.line.specs.Sinks.{Put};
ghost use Rattle.line.specs.Types.{type_bytes};

use crate::faults::TooShort;
use crate::sinks::Sink;
use language::spans::spelled;
use typing::types::TypeEntry;

// A type by its number in a type table, whose names are parts of the text.
#[derive(Clone, Copy)]
pub struct ClosingType<'t, 'y> {
    pub text: &'t [u8],
    pub types: &'y [TypeEntry],
    pub number: u16,
}

// The entry at a place of the table. A place that is not there is blank, and so is the one behind the last that counts.
fn entry_in(types: &[TypeEntry], number: u16) -> TypeEntry
    ensures { result ≡ entry_told types.now number }
{
    match number {
        u16::MAX => TypeEntry::Blank,
        i => types
            .get(usize::from(i))
            .copied()
            .unwrap_or(TypeEntry::Blank),
    }
}

impl ClosingType<'_, '_> {
    // The entry of the type.
    pub(crate) fn entry(self) -> TypeEntry
        ensures { result ≡ entry_told self.entry.types.now self.entry.number }
    {
        entry_in(self.types, self.number)
    }

    // Tells the type, of at most so many levels.
    pub(crate) fn tell<S: Sink>(self, sink: &mut S, levels: u8) -> Result<(), TooShort>
        ensures { Put S.room S.took
            (type_bytes (type_within levels self.entry.text.now self.entry.types.now self.entry.number)) result sink.old sink.new }
    {
        self.part(sink, self.number, levels)
    }

    // Tells the type of a number in the same table. A type shares its parts, so it may be far longer than any buffer: the first piece that
    // there is no room for ends it. The number stands beside the struct: a copy of the struct for each part takes a quarter more time.
    fn part<S: Sink>(&self, sink: &mut S, number: u16, levels: u8) -> Result<(), TooShort>
        ensures { Put S.room S.took
            (type_bytes (type_within levels self.now.text.now self.now.types.now number)) result sink.old sink.new }
    {
        if levels == 0 {
            return hidden(sink, b"", b"");
        }
        match entry_in(self.types, number) {
            TypeEntry::Blank => hidden(sink, b"", b""),
            TypeEntry::Int => sink.put(b"int"),
            TypeEntry::Bool => sink.put(b"bool"),
            TypeEntry::Hidden { module, name } => hidden(
                sink,
                spelled(self.text, module),
                spelled(self.text, name),
            ),
            TypeEntry::Arrow { from, to, .. } => {
                sink.put(b"(")?;
                self.part(sink, from, levels - 1)?;
                sink.put(b" -> ")?;
                self.part(sink, to, levels - 1)?;
                sink.put(b")")
            }
        }
    }
}

// Tells a hidden type, by its module and its name.
fn hidden<S: Sink>(sink: &mut S, module: &[u8], name: &[u8]) -> Result<(), TooShort>
    ensures { Put S.room S.took (type_bytes (hidden «module».now name.now)) result sink.old sink.new }
{
    sink.put(b"from ")?;
    sink.put(module)?;
    sink.put(b" take ")?;
    sink.put(name)
}
