ghost use Rattle.std.specs.Prelude.{◌≡◌, ℕ, List, pos, if◌then◌else◌};
ghost use Rattle.language.specs.Pantry.{by_item};
ghost use Rattle.language.specs.Machine.{hands, kept, plain, fetched, pantry_procedure};
ghost use Rattle.language.specs.Rules.{entry_for};
ghost use Rattle.language.specs.Step.{from_entry, asking};
ghost use Rattle.pantry.specs.Meaning.{kind_of};
ghost use Rattle.job.specs.Maps.{action_of, value_of};
ghost use Rattle.job.specs.Rules.{Asks, AsksWith};

use crate::actions::{Action, Frames, Yield};
use crate::tables::Value;
use pantry::entries::Kind;
use pantry::pantries::Pantry;
use words::names::same_name;

// A plain entry is fetched at 0; one by item is handed as a procedure.
fn taken(entry: u8, kind: Kind) -> Action
    ensures { (text : List ℕ) (d : ℕ) → action_of text d result ≡
        (if by_item (kind_of kind) then hands kept (plain (pantry_procedure «entry»)) else hands kept (fetched «entry» (pos 0))) }
{
    let what = match kind {
        Kind::Figure | Kind::Flag => Yield::Fetched { entry, argument: 0 },
        Kind::FigureByItem | Kind::FlagByItem => Yield::Plain(Value::PantryProcedure(entry)),
    };
    Action::Hands {
        frames: Frames::Kept,
        what,
    }
}

// `from pantry take x`.
pub(crate) fn from_entry<P: Pantry>(pantry: &P, name: &[u8]) -> Option<Action>
    ensures { Asks result (λ _ _. from_entry (entry_for (P.meaning pantry.now) name.now)) }
{
    // By number: a pantry has no list of its entries to go along.
    for i in 0..pantry.count() {
        let entry = pantry.entry(i)?;
        if same_name(entry.name, name) {
            return Some(taken(u8::try_from(i).ok()?, entry.kind));
        }
    }
    None
}

// A pantry procedure gets its argument, if its entry is listed.
pub(crate) fn asked<P: Pantry>(pantry: &P, entry: u8, value: Value) -> Option<Action>
    ensures { AsksWith (P.meaning pantry.now) result (λ d w. asking w d «entry» (value_of value)) }
{
    match value {
        Value::Integer(argument) => {
            pantry.entry(usize::from(entry))?;
            Some(Action::Hands {
                frames: Frames::Removed,
                what: Yield::Fetched { entry, argument },
            })
        }
        _ => None,
    }
}
