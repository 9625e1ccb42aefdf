ghost use Rattle.std.specs.Prelude.{ℕ, ◌-◌, List, ◌++◌, length};
ghost use Rattle.line.specs.Sinks.{Put, Filled, Counted};
ghost use Rattle.line.specs.SinkLaws.{filled-twice, counted-twice};

use crate::buffer::Front;
use crate::faults::TooShort;

// Takes the bytes of a line, as long as there is room.
pub(crate) trait Sink {
    ghost room: { Self → ℕ };

    ghost took: { List ℕ → Self → Self → Type 0 };

    fn put(&mut self, bytes: &[u8]) -> Result<(), TooShort>
        ensures { Put room took bytes.now result self.old self.new };

    // Two texts that are taken one after the other are one text that is taken.
    ghost joins: { (a b : List ℕ) (s t u : Self) → took a s t → took b t u → took (a ++ b) s u };
}

// Counts the bytes, and keeps none.
#[derive(Drop)]
pub(crate) struct Measure {
    pub(crate) room: usize,
}

impl Sink for Measure {
    ghost room = { λ s. s.room };

    ghost took = { Counted };

    ghost joins = { counted-twice };

    fn put(&mut self, bytes: &[u8]) -> Result<(), TooShort> {
        self.room = self.room.checked_sub(bytes.len()).ok_or(TooShort)?;
        Ok(())
    }
}

impl Sink for Front<'_> {
    ghost room = { λ s. length s.buffer.now - s.at };

    ghost took = { Filled };

    ghost joins = { filled-twice };

    fn put(&mut self, bytes: &[u8]) -> Result<(), TooShort> {
        if bytes.len() > self.buffer.len() - self.at {
            return Err(TooShort);
        }
        let end = self.at + bytes.len();
        self.buffer[self.at..end].copy_from_slice(bytes);
        self.at = end;
        Ok(())
    }
}
