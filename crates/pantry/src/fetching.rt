ghost use Rattle.std.specs.Prelude.{◌≡◌, length, pos, map};
ghost use Rattle.language.specs.Pantry.{figure_reply};
ghost use Rattle.pantry.specs.Meaning.{answered, reply_for};
ghost use Rattle.pantry.specs.File.{record_of, records_of};
ghost use Rattle.pantry.specs.Items.{item_pantry, record_for, kcal_in, flag_in};
ghost use Rattle.pantry.specs.ItemLaws.{items_lawful};

use crate::entries::{Answer, Entry, Kind, in_range};
use crate::items::Items;
use crate::pantries::Pantry;
use crate::records::{HEADER, Record, Row, find};

const ENTRIES: [Entry; 3] = [
    Entry {
        name: b"kcal",
        kind: Kind::FigureByItem,
    },
    Entry {
        name: b"allergen",
        kind: Kind::FlagByItem,
    },
    Entry {
        name: b"items",
        kind: Kind::Figure,
    },
];

// the record of the item that is asked for
fn found(file: &[u8], rows: &[Row], argument: i32) -> Option<Record>
    requires { map record_of rows.now ≡ records_of file.now }
    ensures { result ≡ record_for (records_of file.now) argument }
{
    // No row has an item that two bytes do not hold.
    if argument > i32::from(u16::MAX) {
        return None;
    }
    find(rows, u32::try_from(argument).ok()?)
}

impl Items<'_> {
    // The rows behind the header, which was judged when the file was loaded.
    #[tactic(auto, using(crate::proofs::Rows::header_long))]
    fn rows(&self) -> &[Row]
        ensures { map record_of result.now ≡ records_of self.now.file.now }
    {
        let (rows, _) = self.file[HEADER..].as_chunks::<7>();
        rows
    }

    // the record of the item that is asked for
    fn record(&self, argument: i32) -> Option<Record>
        ensures { result ≡ record_for (records_of self.now.file.now) argument }
    {
        found(self.file, self.rows(), argument)
    }

    fn kcal(&self, argument: i32) -> Option<Answer>
        ensures { answered result ≡ kcal_in (record_for (records_of self.now.file.now) argument) }
    {
        // Not by `map`: within a closure it is not known that the figure fits.
        let record = self.record(argument)?;
        Some(Answer::Number(record.kcal as i32))
    }

    fn allergen(&self, argument: i32) -> Option<Answer>
        ensures { answered result ≡ flag_in (record_for (records_of self.now.file.now) argument) }
    {
        self.record(argument)
            .map(|record| Answer::Truth(record.flag == 1))
    }

    fn items(&self) -> Answer
        ensures { reply_for result ≡ figure_reply (pos (length (records_of self.now.file.now))) }
    {
        Answer::Number(self.rows().len() as i32)
    }
}

impl Pantry for Items<'_> {
    ghost meaning = { λ s. item_pantry (records_of s.file.now) };

    ghost lawful = { λ s. items_lawful s.file.now s.ok };

    fn count(&self) -> usize {
        ENTRIES.len()
    }

    fn entry(&self, i: usize) -> Option<Entry<'_>> {
        // The lifetime is written out, since the table outlives the pantry.
        let entry: &'static Entry<'static> = ENTRIES.get(i)?;
        Some(*entry)
    }

    fn fetch(&self, i: usize, argument: i32) -> Option<Answer> {
        if !in_range(argument) {
            return None;
        }
        // A match and no table of closures: only two of the three need the argument.
        match i {
            0 => self.kcal(argument),
            1 => self.allergen(argument),
            2 => Some(self.items()),
            _ => None,
        }
    }
}
