ghost use Rattle.std.specs.Prelude.{◌≡◌, true};
ghost use Rattle.checker.specs.Stocks.{stock_in};
ghost use Rattle.checker.specs.Passes.{passes_with};

use grammar::sheet::ReadSheet;
use pantry::entries::Entry;
use typing::types::TypeEntry;

// A sheet that passed the check: what was read, the types that were found, the number of the closing type among them, and the names and
// kinds of the pantry that it was checked with.
#[derive(Clone, Copy)]
pub struct Pass<'t, 'r, 'y, 'e, 'n> {
    pub sheet: ReadSheet<'t, 'r>,
    pub types: &'y [TypeEntry],
    pub number: u16,
    pub entries: &'e [Entry<'n>],
    ghost passes: { passes_with (stock_in entries.now) sheet.text.now types.now number ≡ true },
}
