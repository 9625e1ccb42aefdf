ghost use Rattle.std.specs.Prelude.{◌≡◌, ◌<◌, map};
ghost use Rattle.language.specs.Names.{lookup};
ghost use Rattle.language.specs.Machine.{nearest as nearest_of};
ghost use Rattle.job.specs.Maps.{value_of, cell_of, scope_of};
ghost use Rattle.job.specs.Lookups.{held_cell, maybe, same};

use crate::course::ModuleScope;
use crate::tables::{Cell, Value};
use language::bindings::{Binding, Holds, nearest};
use language::spans::spelled;
use words::names::same_name;

impl Holds for Cell {
    type Value = Value;

    ghost held = { held_cell };

    fn binding(&self, link: u16) -> Option<Binding<Value>> {
        match *self {
            Cell::Bound(b) => Some(b),
            Cell::Letrec(b) => Some(Binding {
                name: b.name,
                value: Value::Closure {
                    part: b.value,
                    scope: link,
                },
                outer: b.outer,
            }),
            Cell::Blank => None,
        }
    }
}

// The value of the nearest binding of a name.
pub(crate) fn value_of(text: &[u8], cells: &[Cell], scope: u16, name: &[u8]) -> Option<Value>
    ensures { maybe value_of result ≡ nearest_of (map (cell_of text.now) cells.now) scope name.now }
{
    nearest(text, cells, scope, name)
}

// The scope of a module whose body has ended.
pub(crate) fn module_scope(text: &[u8], scopes: &[ModuleScope], name: &[u8]) -> Option<u16>
    ensures { maybe same result ≡ lookup (map (scope_of text.now) scopes.now) name.now }
{
    let module = scopes
        .iter()
        .find(|m| same_name(spelled(text, m.name), name))?;
    Some(module.scope)
}
