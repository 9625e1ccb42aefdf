// From the bytes of a sheet to the line that is printed.
#![tactic(auto)]

ghost use Rattle.std.specs.Prelude.{◌≡◌, IfOk, string_bytes};
ghost use Rattle.grammar.specs.Reading.{reading};
ghost use Rattle.grammar.specs.Read.{limit_of};
ghost use Rattle.panels.specs.Lines.{answer_bytes, line_of};

use grammar::read::read;
use grammar::{Fault, Node};
use std::alloc::{AllocError, Global};

// The line that tells what the reader answered: how many nodes it read, or the refusal.
fn told(heap: Global, answer: Result<u16, Fault>) -> Result<String, AllocError>
    ensures { IfOk result (λ s. string_bytes s ≡ answer_bytes answer) }
{
    match answer {
        Ok(close) => format!(in heap; "read {}", u32::from(close) + 1),
        Err(fault) => format!(in heap;
            "refused {} at {} by {}",
            fault.number(),
            fault.place(),
            fault.layer()
        ),
    }
}

// The line on a sheet, which is read into the lent table.
pub fn line(heap: Global, text: &[u8], tree: &mut [Node]) -> Result<String, AllocError>
    ensures { IfOk result (λ s. string_bytes s ≡ line_of (reading (limit_of tree.old) text.now)) }
{
    told(heap, read(text, tree))
}
