ghost use Rattle.std.specs.Prelude.{◌≡◌, ℕ, ◌+◌, ◌<◌, ◌≤◌, cond, ok_or, Some, None};
ghost use Rattle.rules.specs.declared.faults.CheckFault.TheVariants.{Repeated, Missing};
ghost use Rattle.typing.specs.Tables.{state_of, Gives, HasType, HasExp};
ghost use Rattle.checker.specs.Items.{Act, is_fresh, opaque_n, type_is_n, declared_n, value_is_n, match_opaque_n, match_n, declare_item, define_item, match_item, on_item, all_items as all_items_of, NodeHolds, AllHold, is_type, defines as defines_n, number_at, definition_n};

use grammar::tree::{Item, Node};
use language::spans::{Span, spelled};
use rules::faults::CheckFault;
use typing::tables::Tables;
use typing::types::{Scope, Slot};
use words::names::same_name;

// Functions and no methods below, since the tables are a type of another crate.

// The levels that a type or an expression may nest.
pub const LEVELS: u8 = 48;

// What a name names.
#[derive(Clone, Copy)]
pub enum Sort {
    Type,
    Value,
}

// A way through the items of a module: what is found at an item, on what was found so far.
pub trait Way {
    type Found: Copy;

    ghost act: { Self → Act Self.Found };

    fn item(
        &self,
        tables: &mut Tables,
        found: Self::Found,
        node: Node,
    ) -> Result<Self::Found, CheckFault>
        requires { NodeHolds tables.old.given node }
        ensures { Gives (on_item (act self.now tables.old.given) node found) result tables.old tables.new };
}

// All items among the nodes, in order.
pub fn all_items<W: Way>(
    way: &W,
    tables: &mut Tables,
    start: W::Found,
    nodes: &[Node],
) -> Result<W::Found, CheckFault>
    requires { AllHold tables.old.given nodes.now }
    ensures { Gives (all_items_of (W.act way.now tables.old.given) nodes.now start) result tables.old tables.new }
{
    let mut found = start;
    for node in nodes {
        found = way.item(tables, found, *node)?;
    }
    Ok(found)
}

// A name has to be no name of this interface or body yet, type or value alike.
fn fresh(tables: &Tables, scope: Scope, name: Span) -> Result<(), CheckFault>
    ensures { result ≡ cond (is_fresh tables.now.given scope name (state_of tables.now)) (Ok tt) (Err (Repeated name.place)) }
{
    let known = tables.look(scope.types, name).is_some();
    if known || tables.look(scope.values, name).is_some() {
        return Err(CheckFault::Repeated(name.place));
    }
    Ok(())
}

// `opaque` in the module `m`.
fn opaque(
    tables: &mut Tables,
    scope: Scope,
    at: u16,
    m: Span,
    name: Span,
) -> Result<Scope, CheckFault>
    ensures { Gives (opaque_n tables.old.given at m name scope) result tables.old tables.new }
{
    fresh(tables, scope, name)?;
    let a = tables.hide(at, m, name)?;
    tables.enter_type(at, scope, name, a)
}

// A type name that stands for a written type.
fn type_is(
    tables: &mut Tables,
    scope: Scope,
    at: u16,
    name: Span,
    ty: u16,
) -> Result<Scope, CheckFault>
    requires { HasType tables.old.given 48 ty }
    ensures { Gives (type_is_n tables.old.given at name ty scope) result tables.old tables.new }
{
    fresh(tables, scope, name)?;
    let a = tables.expand(scope, ty, LEVELS)?;
    tables.enter_type(at, scope, name, a)
}

// A value name at a written type. The next function types an expression instead, which asks for another fact of the tree.
fn declared(tables: &mut Tables, scope: Scope, name: Span, ty: u16) -> Result<Scope, CheckFault>
    requires { HasType tables.old.given 48 ty }
    ensures { Gives (declared_n tables.old.given name ty scope) result tables.old tables.new }
{
    fresh(tables, scope, name)?;
    let a = tables.expand(scope, ty, LEVELS)?;
    tables.enter(name.place, scope, name, a)
}

// A value name at the type of an expression.
fn value_is(tables: &mut Tables, scope: Scope, name: Span, body: u16) -> Result<Scope, CheckFault>
    requires { HasExp tables.old.given 48 body }
    ensures { Gives (value_is_n tables.old.given name body scope) result tables.old tables.new }
{
    fresh(tables, scope, name)?;
    let a = tables.type_of(scope, body, LEVELS)?;
    tables.enter(name.place, scope, name, a)
}

// The declarations of a module; anything else is passed over.
#[derive(Drop)]
pub struct Declaring {
    pub module: Span,
}

impl Way for Declaring {
    type Found = Scope;

    ghost act = { λ d w. declare_item w d.«module» };

    #[tactic(auto, unfolding(crate::specs::Items::declare_item))]
    fn item(&self, tables: &mut Tables, scope: Scope, node: Node) -> Result<Scope, CheckFault> {
        // A match and no table of closures: each item has parts of its own.
        match node {
            Node::Item(Item::Opaque { at, name }) => opaque(tables, scope, at, self.module, name),
            Node::Item(Item::Transparent { at, name, is }) => type_is(tables, scope, at, name, is),
            Node::Item(Item::Declared { name, of }) => declared(tables, scope, name, of),
            _ => Ok(scope),
        }
    }
}

// The definitions of a body; anything else is passed over.
#[derive(Drop)]
pub struct Defining;

impl Way for Defining {
    type Found = Scope;

    ghost act = { λ d w. define_item w };

    #[tactic(auto, unfolding(crate::specs::Items::define_item))]
    fn item(&self, tables: &mut Tables, scope: Scope, node: Node) -> Result<Scope, CheckFault> {
        match node {
            Node::Item(Item::TypeIs { at, name, is }) => type_is(tables, scope, at, name, is),
            Node::Item(Item::ValueIs { name, is }) => value_is(tables, scope, name, is),
            _ => Ok(scope),
        }
    }
}

// The declarations against the definitions of a body, which are left from a place on; anything else is passed over.
#[derive(Drop)]
pub struct Matching {
    pub body: Scope,
}

impl Way for Matching {
    type Found = u16;

    ghost act = { λ d w. match_item w d.body };

    #[tactic(auto, unfolding(crate::specs::Items::match_item))]
    fn item(&self, tables: &mut Tables, from: u16, node: Node) -> Result<u16, CheckFault> {
        match node {
            Node::Item(Item::Opaque { name, .. }) => match_opaque(tables, self.body, name, from),
            Node::Item(Item::Transparent { name, is, .. }) => {
                match_type(tables, self.body, Sort::Type, name, is, from)
            }
            Node::Item(Item::Declared { name, of }) => {
                match_type(tables, self.body, Sort::Value, name, of, from)
            }
            _ => Ok(from),
        }
    }
}

// An opaque declaration, which any type definition of its name matches.
fn match_opaque(tables: &mut Tables, body: Scope, name: Span, from: u16) -> Result<u16, CheckFault>
    ensures { Gives (match_opaque_n tables.old.given name body from) result tables.old tables.new }
{
    let (_, next) = supplied(tables, body, Sort::Type, name, from)?;
    Ok(next)
}

// A declaration whose type has to agree with its definition's.
fn match_type(
    tables: &mut Tables,
    body: Scope,
    sort: Sort,
    name: Span,
    ty: u16,
    from: u16,
) -> Result<u16, CheckFault>
    requires { HasType tables.old.given 48 ty }
    ensures { Gives (match_n tables.old.given (is_type sort) name ty body from) result tables.old tables.new }
{
    let (b, next) = supplied(tables, body, sort, name, from)?;
    let a = tables.expand(body, ty, LEVELS)?;
    if a != b {
        return Err(CheckFault::Mismatch(name.place));
    }
    Ok(next)
}

// The definition that a declaration is matched with, which has to be there: the number of its type, and the place behind it.
fn supplied(
    tables: &Tables,
    body: Scope,
    sort: Sort,
    name: Span,
    from: u16,
) -> Result<(u16, u16), CheckFault>
    ensures { result ≡ ok_or (definition_n tables.now.given.text.now (is_type sort) name body.used from (state_of tables.now)) (Missing name.place) }
{
    definition(tables, sort, name, body.used, from).ok_or(CheckFault::Missing(name.place))
}

// The first definition of a name among the places from `from` to `used`: the number of its type, and the place behind it.
fn definition(tables: &Tables, sort: Sort, name: Span, used: u16, from: u16) -> Option<(u16, u16)>
    ensures { result ≡ definition_n tables.now.given.text.now (is_type sort) name used from (state_of tables.now) }
{
    let text = tables.given.text;
    let wanted = spelled(text, name);
    // By place, and the place behind it is half of the answer: with `(from..used).find_map(..)` the proof did not close.
    for k in from..used {
        let slot = *tables.slots.get(usize::from(k))?;
        if let Some(number) = defined(text, sort, wanted, slot) {
            return Some((number, k + 1));
        }
    }
    None
}

// The number of the type that a place of the scope table gives to a name, as a type or as a value, where it defines the name.
fn defined(text: &[u8], sort: Sort, name: &[u8], slot: Slot) -> Option<u16>
    ensures { result ≡ cond (defines_n text.now (is_type sort) name.now slot) (Some (number_at slot)) None }
{
    match (sort, slot) {
        (Sort::Type, Slot::OfType(b)) | (Sort::Value, Slot::OfValue(b)) => {
            same_name(spelled(text, b.name), name).then_some(b.value)
        }
        _ => None,
    }
}
