ghost use Rattle.std.specs.Prelude.{◌≡◌, ◌<◌, ◌≤◌, true, length};
ghost use Rattle.language.specs.Pantry.{stock_of};
ghost use Rattle.checker.specs.Sheets.{places};
ghost use Rattle.checker.specs.Stocks.{stock_in};
ghost use Rattle.checker.specs.Passes.{passes_with};
ghost use Rattle.checker.specs.Laws.{Answered, Promised, Judged, Exchanged};

use crate::call::check_tables;
use crate::copying::{BLANK_ENTRY, MOST_ENTRIES, copy_entries};
use crate::passes::Pass;
use grammar::sheet::ReadSheet;
use pantry::entries::Entry;
use pantry::pantries::Pantry;
use rules::faults::CheckFault;
use typing::types::{Slot, TypeEntry};

// The check with entries of these names and kinds, on the places of the tables that count.
fn check_entries(
    sheet: ReadSheet<'_, '_>,
    entries: &[Entry<'_>],
    types: &mut [TypeEntry],
    slots: &mut [Slot],
) -> Result<u16, CheckFault>
    requires { length entries.now ≤ 64 }
    ensures { Answered (stock_in entries.now) sheet.entry.text.now result
        types.old slots.old types.new slots.new }
{
    let t = types.len().min(65535);
    let s = slots.len().min(65535);
    check_tables(sheet, entries, &mut types[0..t], &mut slots[0..s])
}

// Checks a sheet that was read, with a pantry: the number of its type in the type table, or the one refusal. The tables are blanked first, and
// again on refusal.
pub fn check<P: Pantry>(
    sheet: ReadSheet<'_, '_>,
    pantry: &P,
    types: &mut [TypeEntry],
    slots: &mut [Slot],
) -> Result<u16, CheckFault>
    ensures answered { Answered (stock_of (P.meaning pantry.now)) sheet.entry.text.now result
        types.old slots.old types.new slots.new }
    ensures promised { Promised (stock_of (P.meaning pantry.now)) sheet.entry.text.now result types.new }
    ensures judged { Judged (stock_of (P.meaning pantry.now)) (places types.old) (places slots.old)
        sheet.entry.text.now result types.new }
    ensures exchanged { Exchanged (stock_of (P.meaning pantry.now)) (places types.old) (places slots.old)
        sheet.entry.text.now result types.new }
{
    // A table of a fixed length, and not a Vec: nothing below the results is on the heap.
    let mut entries = [BLANK_ENTRY; MOST_ENTRIES];
    let count = copy_entries(pantry, &mut entries);
    check_entries(sheet, &entries[0..count], types, slots)
}

// The pass of a sheet that the check passed with a pantry of these names and kinds; `number` is what it answered, and `types` the type table
// that it left.
pub fn pass<'t, 'r, 'y, 'e, 'n>(
    sheet: ReadSheet<'t, 'r>,
    entries: &'e [Entry<'n>],
    types: &'y [TypeEntry],
    number: u16,
) -> Pass<'t, 'r, 'y, 'e, 'n>
    requires { passes_with (stock_in entries.now) sheet.text.now types.now number ≡ true }
    ensures text { result.sheet.text.now ≡ sheet.entry.text.now }
    ensures tree { result.sheet.tree.now ≡ sheet.entry.tree.now }
    ensures close { result.sheet.close ≡ sheet.entry.close }
    ensures types { result.types.now ≡ types.now }
    ensures number { result.number ≡ number }
    ensures entries { result.entries.now ≡ entries.now }
{
    Pass {
        sheet,
        types,
        number,
        entries,
    }
}
