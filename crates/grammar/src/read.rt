ghost use Rattle.std.specs.Prelude.{◌≡◌, ℕ, ◌+◌, min, length, take};
ghost use Rattle.grammar.specs.Reading.{reading};
ghost use Rattle.grammar.specs.Read.{limit_of, blanked, Filled, Answered, IsRead, Promises};
ghost use Rattle.grammar.specs.Laws.{Judged};

use crate::faults::Fault;
use crate::reader::{PLACES, Reader};
use crate::sheet::ReadSheet;
use crate::tree::Node;
use words::{Cursor, measured};

// Makes the first 65,535 places of the table blank.
fn blank(tree: &mut [Node])
    ensures { tree.new ≡ blanked tree.old }
{
    let limit = tree.len().min(PLACES);
    tree[..limit].fill(Node::Blank);
}

// Fills the table from its front, and leaves it half filled on refusal.
fn fill(text: &[u8], tree: &mut [Node]) -> Result<u16, Fault>
    ensures { Filled (reading (limit_of tree.old) text.now) result tree.old tree.new }
{
    measured(text)?;
    let mut reader = Reader {
        words: Cursor::over(text),
        end: text.len() as u16,
        tree,
        used: 0,
    };
    reader.whole_sheet()
}

// Reads a text into the table: the nodes of its sheet from place 0 on, then blank places. The answer is the place of the closing
// expression, the last of the nodes.
pub fn read(text: &[u8], tree: &mut [Node]) -> Result<u16, Fault>
    ensures reads { Answered (reading (limit_of tree.old) text.now) result tree.old tree.new }
    ensures promises { Promises result text.now tree.new }
    ensures judged { Judged (limit_of tree.old) text.now result }
{
    blank(tree);
    let answer = fill(text, tree);
    if answer.is_err() {
        blank(tree); // a refusal leaves nothing behind
    }
    answer
}

// The sheet that `read` has read; `close` is what it answered.
pub fn sheet<'t, 'r>(text: &'t [u8], tree: &'r [Node], close: u16) -> ReadSheet<'t, 'r>
    requires { IsRead text.now (take (close + 1) tree.now) close }
    ensures text { result.text.now ≡ text.now }
    ensures tree { result.tree.now ≡ take (close + 1) tree.now }
    ensures close { result.close ≡ close }
{
    ReadSheet {
        text,
        tree: &tree[..=usize::from(close)],
        close,
    }
}
