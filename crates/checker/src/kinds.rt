ghost use Rattle.std.specs.Prelude.{◌≡◌, ℕ, ◌+◌, ◌<◌, ◌≤◌, List, [], length};
ghost use Rattle.language.specs.Typing.{ExpandedType};
ghost use Rattle.rules.specs.Checking.{enter_all, kind_types};
ghost use Rattle.typing.specs.Tables.{state_of, Kept, Gives};
ghost use Rattle.typing.specs.Stands.{Stands};
ghost use Rattle.checker.specs.Sheets.{Base};
ghost use Rattle.checker.specs.Stocks.{stock_in};
ghost use Rattle.checker.specs.Kinds.{kind_n, Begun, AfterKinds, first_n, first_types};

use pantry::entries::{Entry, Kind};
use rules::faults::CheckFault;
use typing::tables::{BOOL, INT, Tables};
use typing::types::{Known, TypeEntry};

// The number of the type of an entry of that kind; an arrow is entered unless it is there.
fn kind_number(tables: &mut Tables, kind: Kind) -> Result<u16, CheckFault>
    ensures { Gives (kind_n tables.old.given.text.now kind) result tables.old tables.new }
{
    match kind {
        Kind::Figure => Ok(INT),
        Kind::Flag => Ok(BOOL),
        Kind::FigureByItem => tables.arrow(0, INT, INT),
        Kind::FlagByItem => tables.arrow(0, INT, BOOL),
    }
}

// The types of all entries, in their order: each entry's name with the number of its type.
fn all_kinds<'n>(
    tables: &mut Tables,
    entries: &[Entry<'n>],
    known: &mut [Known<'n>],
) -> Result<(), CheckFault>
    requires { length entries.now ≤ length known.old }
    ensures kept { Kept tables.old tables.new }
    ensures goes { (base : Base) (tp sp : ℕ) (ts : List ExpandedType) →
        Begun tables.old.given.text.now base tp sp (state_of tables.old) ts →
        AfterKinds tables.old.given.text.now base tp sp entries.now (enter_all tp sp (kind_types (stock_in entries.now)) ts)
        result known.new (state_of tables.new) }
{
    // By place: with `zip` and `iter_mut` the proof did not reach what the loop writes.
    for (i, entry) in entries.iter().enumerate() {
        let of = kind_number(tables, entry.kind)?;
        known[i] = Known {
            name: entry.name,
            of,
        };
    }
    Ok(())
}

// `int` and `bool`, at the first two places of the type table.
fn first_types(tables: &mut Tables) -> Result<(), CheckFault>
    ensures { Gives first_n result tables.old tables.new }
{
    let _ = tables.add(0, TypeEntry::Int)?;
    let _ = tables.add(0, TypeEntry::Bool)?;
    Ok(())
}

// What stands in the type table before anything of a sheet is checked.
pub fn start<'n>(
    tables: &mut Tables,
    entries: &[Entry<'n>],
    known: &mut [Known<'n>],
) -> Result<(), CheckFault>
    requires { length entries.now ≤ length known.old }
    ensures kept { Kept tables.old tables.new }
    ensures goes { (base : Base) (tp sp : ℕ) →
        Stands tables.old.given.text.now tp sp base (state_of tables.old) [] →
        AfterKinds tables.old.given.text.now base tp sp entries.now (enter_all tp sp (first_types entries.now) [])
        result known.new (state_of tables.new) }
{
    first_types(tables)?;
    all_kinds(tables, entries, known)
}
