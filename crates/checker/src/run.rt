ghost use Rattle.std.specs.Prelude.{◌≤◌, length};
ghost use Rattle.checker.specs.Runs.{AfterAll};

use crate::kinds::start;
use crate::sheets::{all_modules, closing};
use grammar::sheet::ReadSheet;
use pantry::entries::Entry;
use rules::faults::CheckFault;
use typing::tables::Tables;
use typing::types::{Given, Interface, Known, Slot, TypeEntry};

// The whole check on the lent tables: the number of the closing type, and how many places of the scope table the declarations take.
pub fn run<'n>(
    sheet: ReadSheet<'_, '_>,
    entries: &[Entry<'n>],
    known: &mut [Known<'n>],
    interfaces: &mut [Interface],
    types: &mut [TypeEntry],
    slots: &mut [Slot],
) -> Result<(u16, u16), CheckFault>
    requires modules { 32 ≤ length interfaces.old }
    requires room { length entries.now ≤ length known.old }
    ensures { AfterAll sheet.entry.text.now sheet.entry.tree.now sheet.entry.close entries.now types.old slots.old result types.new slots.new }
{
    let given = Given {
        text: sheet.text,
        tree: sheet.tree,
        interfaces: &[],
        entries: &[],
    };
    let mut first = Tables {
        given,
        types: &mut *types,
        count: 0,
        slots: &mut *slots,
    };
    start(&mut first, entries, known)?;
    let count = first.count;
    let entries = &known[0..entries.len()];
    let mut tables = Tables {
        given: Given { entries, ..given },
        types,
        count,
        slots,
    };
    let at = all_modules(&mut tables, interfaces)?;
    let ty = closing(
        &mut tables,
        &interfaces[0..at.modules],
        at.used,
        sheet.close,
    )?;
    Ok((ty, at.used))
}
