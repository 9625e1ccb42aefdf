ghost use Rattle.grammar.specs.Read.{IsRead};

use crate::tree::Node;

// A sheet that was read: its text, its nodes, and the place of the closing expression among them.
#[derive(Clone, Copy)]
pub struct ReadSheet<'t, 'r> {
    pub text: &'t [u8],
    pub tree: &'r [Node],
    pub close: u16,
    ghost read: { IsRead text.now tree.now close },
}
