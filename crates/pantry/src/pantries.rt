ghost use Rattle.std.specs.Prelude.{◌≡◌, length};
ghost use Rattle.std.proofs.Math.ListN.{get_elem?};
ghost use Rattle.language.specs.Pantry.{Pantry as Meaning, Lawful, stock_of, fetch as fetched};
ghost use Rattle.pantry.specs.Meaning.{listed, answered, Asked};

use crate::entries::{Answer, Entry};
use crate::faults::NoAnswer;

// Where a sheet's figures come from. No call changes what a pantry means.
pub trait Pantry {
    ghost meaning: { Self → Meaning };

    ghost lawful: { (x : Self) → Lawful (meaning x) };

    fn count(&self) -> usize
        ensures { result ≡ length (meaning self.now) };

    fn entry(&self, i: usize) -> Option<Entry<'_>>
        ensures { listed result ≡ get_elem? (stock_of (meaning self.now)) i };

    fn fetch(&self, i: usize, argument: i32) -> Option<Answer>
        ensures { answered result ≡ fetched (meaning self.now) i argument };
}

// The fetch, with the fault that says what was asked for.
pub fn ask<P: Pantry>(pantry: &P, entry: u8, argument: i32) -> Result<Answer, NoAnswer>
    ensures { Asked (P.meaning pantry.now) «entry» argument result }
{
    pantry
        .fetch(usize::from(entry), argument)
        .ok_or(NoAnswer { entry, argument })
}
