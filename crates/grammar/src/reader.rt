ghost use Rattle.std.specs.Prelude.{◌≡◌, ◌≤◌, length};

use crate::tree::Node;
use words::Cursor;

// A type or an expression has at most so many levels, a sheet so many modules, and a tree so many places, each named by a `u16`.
pub const LEVELS: u8 = 48;

pub const MODULES: u8 = 32;

pub const PLACES: usize = 65_535;

// A reader of a sheet: the words that are still to come, where the text ends, and the lent table with the places used so far.
#[derive(Drop)]
pub struct Reader<'t, 'r> {
    pub words: Cursor<'t>,
    pub end: u16,
    pub tree: &'r mut [Node],
    pub used: usize,
    ghost short: { length words.text.now ≤ 32768 },
    ghost ends: { end ≡ length words.text.now },
}
