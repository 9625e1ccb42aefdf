ghost use Rattle.std.specs.Prelude.{◌≡◌, ℕ, true, length};
ghost use Rattle.language.specs.Pantry.{stock_of};
ghost use Rattle.pantry.specs.File.{fault as fault_in};
ghost use Rattle.grammar.specs.Plan.{plan_of};
ghost use Rattle.checker.specs.Passes.{passes_with};
ghost use Rattle.job.specs.Maps.{answer_of};
ghost use Rattle.results.specs.Panel.{answer_on, file_line, lent, told, Wrote};

use crate::tables::{Store, Tables};
use checker::copying::{BLANK_ENTRY, MOST_ENTRIES};
use checker::{check, copy_entries, pass};
use grammar::read::{read, sheet};
use grammar::sheet::ReadSheet;
use job::{Answer, Job};
use line::{ClosingType, Refusal, TooShort, write_line, write_refusal};
use pantry::{Items, Pantry, item_pantry, load};
use typing::types::TypeEntry;

// What a sheet that passed came to: the answer of its job, with the closing type and the pantry that it speaks of.
#[derive(Clone, Copy)]
pub(crate) struct Run<'f, 't, 'y> {
    pub(crate) pantry: Items<'f>,
    pub(crate) closing: ClosingType<'t, 'y>,
    pub(crate) answer: Answer,
}

// The answer of a job on a sheet that the check passed, after one advance.
fn run_sheet<P: Pantry>(
    sheet: ReadSheet<'_, '_>,
    pantry: &P,
    types: &[TypeEntry],
    number: u16,
    store: Store<'_>,
) -> Answer
    requires { passes_with (stock_of (P.meaning pantry.now)) sheet.text.now types.now number ≡ true }
    ensures { answer_of result ≡ answer_on (plan_of sheet.entry.text.now sheet.entry.tree.now sheet.entry.close) (P.meaning pantry.now)
        (length store.entry.cells.now) (length store.entry.frames.now) store.entry.allowance }
{
    let mut entries = [BLANK_ENTRY; MOST_ENTRIES];
    let count = copy_entries(pantry, &mut entries);
    let pass = pass(sheet, &entries[..count], types, number);
    let Store {
        cells,
        frames,
        allowance,
    } = store;
    let mut job = Job::open(pass, cells, frames);
    let _ = job.advance(cells, frames, pantry, allowance);
    job.finish()
}

// Loads the item file, and reads, checks and runs the text.
fn run_text<'f, 't, 'y>(
    file: &'f [u8],
    text: &'t [u8],
    tables: Tables<'y>,
    store: Store<'_>,
) -> Result<Run<'f, 't, 'y>, Refusal>
    ensures { (buffer : ℕ) → told result ≡
        file_line file.now text.now (lent tables.entry store.entry buffer) (fault_in file.now) }
{
    let Tables { tree, types, slots } = tables;
    load(file)?;
    let pantry = item_pantry(file);
    let close = read(text, tree)?;
    let sheet = sheet(text, tree, close);
    let number = check(sheet, &pantry, types, slots)?;
    let answer = run_sheet(sheet, &pantry, types, number, store);
    let closing = ClosingType {
        text,
        types,
        number,
    };
    Ok(Run {
        pantry,
        closing,
        answer,
    })
}

// Writes the line on an item file and a text.
pub(crate) fn tell(
    file: &[u8],
    text: &[u8],
    tables: Tables,
    store: Store,
    buffer: &mut [u8],
) -> Result<usize, TooShort>
    ensures { Wrote (file_line file.now text.now (lent tables.entry store.entry (length buffer.old)) (fault_in file.now))
        result buffer.old buffer.new }
{
    match run_text(file, text, tables, store) {
        Ok(run) => write_line(&run.pantry, run.closing, run.answer.into(), buffer),
        Err(refusal) => write_refusal(refusal, buffer),
    }
}
