ghost use Rattle.std.specs.Prelude.{◌≤◌, length};
ghost use Rattle.checker.specs.Runs.{AfterBlank, Checked};

use crate::run::run;
use grammar::sheet::ReadSheet;
use pantry::entries::Entry;
use rules::faults::CheckFault;
use typing::types::{Interface, Known, Slot, TypeEntry};

// The check on blanked tables, with tables of its own for what is known of the pantry and of the modules.
pub fn run_blank(
    sheet: ReadSheet<'_, '_>,
    entries: &[Entry<'_>],
    types: &mut [TypeEntry],
    slots: &mut [Slot],
) -> Result<(u16, u16), CheckFault>
    requires { length entries.now ≤ 64 }
    ensures { AfterBlank sheet.entry.text.now sheet.entry.tree.now sheet.entry.close entries.now types.old slots.old result types.new slots.new }
{
    types.fill(TypeEntry::Blank);
    slots.fill(Slot::Blank);
    // Tables of a fixed length, since nothing below the results is on the heap; what their last places hold is never read.
    // Plain ones serve for the interfaces too: the loop lends the filled part to each module.
    let mut known = [Known { name: b"", of: 0 }; 64];
    let mut interfaces = [Interface::default(); 32];
    run(sheet, entries, &mut known, &mut interfaces, types, slots)
}

// The same, with the tables blanked again on refusal, and the places of the scope table that are no declaration's on success.
pub fn check_tables(
    sheet: ReadSheet<'_, '_>,
    entries: &[Entry<'_>],
    types: &mut [TypeEntry],
    slots: &mut [Slot],
) -> Result<u16, CheckFault>
    requires { length entries.now ≤ 64 }
    ensures { Checked sheet.entry.text.now sheet.entry.tree.now sheet.entry.close entries.now types.old slots.old result types.new slots.new }
{
    match run_blank(sheet, entries, types, slots) {
        Ok((ty, used)) => {
            let declared = usize::from(used).min(slots.len());
            slots[declared..].fill(Slot::Blank);
            Ok(ty)
        }
        Err(fault) => {
            types.fill(TypeEntry::Blank);
            slots.fill(Slot::Blank);
            Err(fault)
        }
    }
}
