ghost use Rattle.std.specs.Prelude.{◌≡◌, ℕ, ◌+◌, ◌-◌, ◌<◌, ◌≤◌, length, drop, IfOk};
ghost use Rattle.grammar.specs.Syntax.{count as count_of};
ghost use Rattle.grammar.specs.Table.{modules_of};
ghost use Rattle.typing.specs.Tables.{state_of, Kept, HasExp};
ghost use Rattle.checker.specs.Items.{AllHold};
ghost use Rattle.checker.specs.Sheets.{end_of, module_end, ModuleTold, StepTold, ModulesTold, ClosingTold};

use crate::items::LEVELS;
use crate::modules::module;
use grammar::tree::{Item, Node};
use language::spans::Span;
use rules::faults::CheckFault;
use typing::tables::Tables;
use typing::types::{Given, Interface, Scope};

// How far the check has come: the modules so far, the next node, and the scope places so far.
#[derive(Clone, Copy)]
pub struct Progress {
    pub modules: usize,
    pub start: usize,
    pub used: u16,
}

// The name of the module that ends with a node.
fn ended(node: Node) -> Option<Span>
    ensures { result ≡ end_of node }
{
    match node {
        Node::Item(Item::Module { name, .. }) => Some(name),
        _ => None,
    }
}

// The place and the name of the first module that ends at `start` or behind it.
fn module_end(tree: &[Node], start: usize) -> Option<(usize, Span)>
    ensures { result ≡ module_end start (drop start tree.now) }
{
    // By place, which is half of the answer: with `enumerate`, `skip` and `find_map` the proof did not close.
    for k in start..tree.len() {
        if let Some(name) = ended(tree[k]) {
            return Some((k, name));
        }
    }
    None
}

// One module, behind those of the interfaces: the scope of its own.
fn module_in(
    tables: &mut Tables,
    interfaces: &[Interface],
    used: u16,
    m: Span,
    nodes: &[Node],
) -> Result<Scope, CheckFault>
    requires { AllHold tables.old.given nodes.now }
    ensures kept { Kept tables.old tables.new }
    ensures goes { ModuleTold tables.old.given (state_of tables.old) (state_of tables.new) interfaces.now used m nodes.now result }
{
    let mut seen = Tables {
        given: Given {
            interfaces,
            ..tables.given
        },
        types: &mut *tables.types,
        count: tables.count,
        slots: &mut *tables.slots,
    };
    let scope = module(&mut seen, used, m, nodes);
    tables.count = seen.count;
    scope
}

// The next module, whose nodes stand up to `end`: its interface is kept with those of the earlier ones.
fn step(
    tables: &mut Tables,
    interfaces: &mut [Interface],
    at: Progress,
    end: usize,
    name: Span,
) -> Result<Progress, CheckFault>
    requires holds { AllHold tables.old.given tables.old.given.tree.now }
    requires room { at.modules < length interfaces.old }
    requires range { (at.start ≤ end) × (end < length tables.old.given.tree.now) }
    ensures kept { Kept tables.old tables.new }
    ensures next { IfOk result (λ p. (p.modules ≡ at.modules + 1) × (p.start ≡ end + 1)) }
    ensures goes { StepTold tables.old.given (state_of tables.old) (state_of tables.new) interfaces.old interfaces.new at end name result }
{
    let earlier = &interfaces[0..at.modules];
    let nodes = &tables.given.tree[at.start..end];
    let scope = module_in(tables, earlier, at.used, name, nodes)?;
    interfaces[at.modules] = Interface {
        name,
        types: scope.types,
        values: scope.values,
    };
    Ok(Progress {
        modules: at.modules + 1,
        start: end + 1,
        used: scope.used,
    })
}

// All modules, in the order of the tree. The interfaces are kept in a table of their own.
pub fn all_modules(
    tables: &mut Tables,
    interfaces: &mut [Interface],
) -> Result<Progress, CheckFault>
    requires holds { AllHold tables.old.given tables.old.given.tree.now }
    requires few { count_of (modules_of tables.old.given.text.now tables.old.given.tree.now tables.old.given.tree.now) ≤ length interfaces.old }
    ensures kept { Kept tables.old tables.new }
    ensures fits { IfOk result (λ p. p.modules ≤ length interfaces.old) }
    ensures goes { ModulesTold tables.old.given (state_of tables.old) (state_of tables.new) interfaces.new result }
{
    let tree = tables.given.tree;
    let mut at = Progress {
        modules: 0,
        start: 0,
        used: 0,
    };
    while let Some((end, name)) = module_end(tree, at.start) {
        at = step(tables, interfaces, at, end, name)?;
    }
    Ok(at)
}

// The closing expression, behind the modules of the interfaces: the number of its type. It lends the tables on by itself, as a module does:
// a helper that took the check as a closure would have to promise the tables that it hands over and all that comes back.
pub fn closing(
    tables: &mut Tables,
    interfaces: &[Interface],
    used: u16,
    close: u16,
) -> Result<u16, CheckFault>
    requires { HasExp tables.old.given 48 close }
    ensures kept { Kept tables.old tables.new }
    ensures goes { ClosingTold tables.old.given (state_of tables.old) (state_of tables.new) interfaces.now used close result }
{
    let mut seen = Tables {
        given: Given {
            interfaces,
            ..tables.given
        },
        types: &mut *tables.types,
        count: tables.count,
        slots: &mut *tables.slots,
    };
    let ty = seen.type_of(Scope::empty_at(used), close, LEVELS);
    tables.count = seen.count;
    ty
}
