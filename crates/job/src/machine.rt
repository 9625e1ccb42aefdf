ghost use Rattle.std.specs.Prelude.{◌≤◌, length};

use crate::course::Course;
use crate::registers::Registers;
use crate::tables::{Cell, Frame};
use grammar::sheet::ReadSheet;

// A job under way, on the places of the lent tables that count. What no action alters is a clause of each (`same`), since a ghost field speaks
// of one state alone.
#[derive(Drop)]
pub(crate) struct Machine<'m, 't, 'r> {
    pub sheet: ReadSheet<'t, 'r>,
    pub course: &'m mut Course<'r>,
    pub registers: Registers,
    pub cells: &'m mut [Cell],
    pub frames: &'m mut [Frame],
    ghost cells_short: { length cells.now ≤ 65535 },
    ghost frames_short: { length frames.now ≤ 65535 },
}
