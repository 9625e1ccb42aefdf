ghost use Rattle.std.specs.Prelude.{◌≡◌, ℕ, ◌+◌, ◌<◌, ◌≤◌};
ghost use Rattle.typing.specs.Tables.{Gives};
ghost use Rattle.checker.specs.Items.{AllHold, body_n, is_new, module_n};

use crate::items::{Declaring, Defining, Matching, all_items};
use grammar::tree::Node;
use language::spans::{Span, spelled};
use rules::faults::CheckFault;
use typing::tables::{Tables, is_pantry};
use typing::types::Scope;

// Puts the scope back when it is dropped: the names of a body leave on every way out.
struct Level<'a> {
    scope: &'a mut Scope,
    before: Scope,
}

impl Drop for Level<'_> {
    fn drop(self)
        ensures { self.exit.0.now ≡ self.entry.before }
    {
        *self.scope = self.before;
        let Level {
            scope: _,
            before: _,
        } = self;
    }
}

// The definitions of a body, then the matching.
fn definitions(tables: &mut Tables, scope: &mut Scope, nodes: &[Node]) -> Result<(), CheckFault>
    requires { AllHold tables.old.given nodes.now }
    ensures { Gives (body_n tables.old.given nodes.now scope.old.used) result tables.old tables.new }
{
    let first = scope.used;
    let inner = all_items(&Defining, tables, Scope::empty_at(first), nodes)?;
    *scope = inner;
    let _ = all_items(&Matching { body: inner }, tables, first, nodes)?;
    Ok(())
}

// The body of a module, behind its interface: its names leave the scope on every way out.
fn body(tables: &mut Tables, scope: &mut Scope, nodes: &[Node]) -> Result<(), CheckFault>
    requires { AllHold tables.old.given nodes.now }
    ensures back { scope.new ≡ scope.old }
    ensures gives { Gives (body_n tables.old.given nodes.now scope.old.used) result tables.old tables.new }
{
    let before = *scope;
    let level = Level { scope, before };
    definitions(tables, level.scope, nodes)
}

// Whether a module's name is no earlier module's and not the pantry's.
fn is_new(tables: &Tables, m: Span) -> bool
    ensures { result ≡ is_new tables.now.given m }
{
    !is_pantry(spelled(tables.given.text, m)) && tables.interface(m).is_none()
}

// A module: its name, its interface, which stays in scope, and its body, which does not.
pub fn module(tables: &mut Tables, used: u16, m: Span, nodes: &[Node]) -> Result<Scope, CheckFault>
    requires { AllHold tables.old.given nodes.now }
    ensures { Gives (module_n tables.old.given m nodes.now used) result tables.old tables.new }
{
    if !is_new(tables, m) {
        return Err(CheckFault::Repeated(m.place));
    }
    let mut scope = all_items(
        &Declaring { module: m },
        tables,
        Scope::empty_at(used),
        nodes,
    )?;
    body(tables, &mut scope, nodes)?;
    Ok(scope)
}
