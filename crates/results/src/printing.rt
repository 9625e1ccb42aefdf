ghost use Rattle.std.specs.Prelude.{◌≡◌, IfOk};
ghost use Rattle.line.specs.Faults.{line_refusal};
ghost use Rattle.line.specs.Lines.{refusal_bytes};
ghost use Rattle.results.specs.Panel.{printed};
ghost use Rattle.results.specs.Samples.{Samples, panel_setup};

use crate::setups::Setup;
use crate::tables::{Store, Tables};
use crate::telling::tell;
use grammar::tree::Node;
use job::{Cell, Frame};
use line::{TooShort, write_refusal};
use std::alloc::{AllocError, Global};
use typing::types::{Slot, TypeEntry};

// The line that says that the buffer is too short. It has 24 bytes.
fn refused(heap: Global, fault: TooShort) -> Result<Vec<u8>, AllocError>
    ensures { IfOk result (λ v. v.items ≡ refusal_bytes line_refusal) }
{
    let mut buffer = vec![in heap; 0u8; 24]?;
    let len = write_refusal(fault.into(), &mut buffer).unwrap();
    buffer.truncate(len);
    Ok(buffer)
}

// The line, written over tables of repeated blank records. Apart from `line`, whose contract names the samples too.
fn print(heap: Global, file: &[u8], text: &[u8], setup: Setup) -> Result<Vec<u8>, AllocError>
    ensures { IfOk result (λ v. v.items ≡ printed file.now text.now setup) }
{
    let mut tree = vec![in heap; Node::Blank; setup.tree]?;
    let mut types = vec![in heap; TypeEntry::Blank; setup.types]?;
    let mut slots = vec![in heap; Slot::Blank; setup.scope]?;
    let mut cells = vec![in heap; Cell::Blank; setup.cells]?;
    let mut frames = vec![in heap; Frame::Blank; setup.frames]?;
    let mut buffer = vec![in heap; 0u8; setup.buffer]?;
    let tables = Tables {
        tree: &mut tree,
        types: &mut types,
        slots: &mut slots,
    };
    let store = Store {
        cells: &mut cells,
        frames: &mut frames,
        allowance: setup.allowance,
    };
    match tell(file, text, tables, store, &mut buffer) {
        Ok(len) => {
            buffer.truncate(len);
            Ok(buffer)
        }
        Err(fault) => refused(heap, fault),
    }
}

// What the program `result_panel` runs with, and the samples are proved with.
pub fn panel() -> Setup
    ensures { result ≡ panel_setup }
{
    Setup::PANEL
}

// The line on an item file and a sheet, by a program with this setup.
pub fn line(heap: Global, file: &[u8], text: &[u8], setup: Setup) -> Result<Vec<u8>, AllocError>
    ensures is { IfOk result (λ v. v.items ≡ printed file.now text.now setup) }
    ensures samples { Samples }
{
    print(heap, file, text, setup)
}
