ghost use Rattle.std.specs.Prelude.{◌≡◌, ◌<◌, ◌≤◌, min, length, take, drop};
ghost use Rattle.language.specs.Pantry.{stock_of};
ghost use Rattle.checker.specs.Stocks.{stock_in};

use pantry::entries::{Entry, Kind};
use pantry::pantries::Pantry;

// How many entries a pantry has at most.
pub const MOST_ENTRIES: usize = 64;

// A constant, so that a table of entries can be made of it.
pub const BLANK_ENTRY: Entry<'static> = Entry {
    name: b"",
    kind: Kind::Figure,
};

// Copies the names and kinds of a pantry's entries to the front of a table, as many as it has places for: how many these are. What works on
// such a table is not generic.
pub fn copy_entries<'n, P: Pantry>(pantry: &'n P, table: &mut [Entry<'n>]) -> usize
    ensures count { result ≡ min (length (P.meaning pantry.now)) (length table.old) }
    ensures copied { stock_in (take result table.new) ≡ take result (stock_of (P.meaning pantry.now)) }
    ensures rest { drop result table.new ≡ drop result table.old }
{
    let count = pantry.count().min(table.len());
    // By number: a pantry has no list of its entries to go along.
    for i in 0..count {
        if let Some(entry) = pantry.entry(i) {
            table[i] = entry;
        }
    }
    count
}
