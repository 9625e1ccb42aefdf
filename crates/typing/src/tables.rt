ghost use Rattle.std.specs.Prelude.{◌≡◌, ℕ, ◌+◌, ◌-◌, ◌<◌, ◌≤◌, min, max, length, take, position, slice_set, MatchOption};
ghost use Rattle.language.specs.Bindings.{spelled_in};
ghost use Rattle.language.specs.Names.{pantry_name};
ghost use Rattle.words.specs.Names.{same_name};
ghost use Rattle.typing.specs.Tables.{entry_at, depth_of, sides_of, alike, found_n, adding, arrow_n, hide_n, binding, enter_n, enter_type_n, nearest_n, interface_n, types_of, values_of, declared_n, entry_n, taken_n, state_of, Gives};

use crate::types::{Given, Interface, Known, Scope, Slot, TypeEntry};
use language::bindings::{Binding, nearest};
use language::spans::{Span, spelled};
use rules::faults::CheckFault;
use words::names::same_name;

pub const INT: u16 = 0;

pub const BOOL: u16 = 1;

// The tables that a check fills, and what it reads. The tables are lent, so a count says how far the types go.
#[derive(Drop)]
pub struct Tables<'g, 't, 's> {
    pub given: Given<'g>,
    pub types: &'t mut [TypeEntry],
    pub count: u16,
    pub slots: &'s mut [Slot],
}

// Whether a module's name is the pantry's.
#[tactic(auto, unfolding(language::specs::Names::pantry_name))]
pub fn is_pantry(name: &[u8]) -> bool
    ensures { result ≡ same_name pantry_name name.now }
{
    same_name(b"pantry", name)
}

impl TypeEntry {
    fn depth(self) -> u16
        ensures { result ≡ depth_of self }
    {
        match self {
            TypeEntry::Blank => 0,
            TypeEntry::Int | TypeEntry::Bool | TypeEntry::Hidden { .. } => 1,
            TypeEntry::Arrow { depth, .. } => depth,
        }
    }

    // The two sides of an arrow.
    pub(crate) fn sides(self) -> Option<(u16, u16)>
        ensures { result ≡ sides_of self }
    {
        match self {
            TypeEntry::Arrow { from, to, .. } => Some((from, to)),
            _ => None,
        }
    }

    // Whether another entry tells this arrow or hidden type.
    fn is_told(self, text: &[u8], other: TypeEntry) -> bool
        ensures { result ≡ alike text.now self other }
    {
        match (self, other) {
            (TypeEntry::Hidden { module, name }, TypeEntry::Hidden { module: m, name: t }) => {
                spelled(text, m) == spelled(text, module) && spelled(text, t) == spelled(text, name)
            }
            (TypeEntry::Arrow { from, to, .. }, TypeEntry::Arrow { from: a, to: b, .. }) => {
                a == from && b == to
            }
            _ => false,
        }
    }
}

// The place of an arrow or a hidden type among the first `count` types of a lent table.
fn place_in(text: &[u8], types: &[TypeEntry], count: usize, wanted: TypeEntry) -> Option<usize>
    ensures { result ≡ position (alike text.now wanted) (take count types.now) }
{
    types
        .iter()
        .take(count)
        .position(|entry| wanted.is_told(text, *entry))
}

// The interface of a module's name in a list of interfaces.
fn interface_in(text: &[u8], interfaces: &[Interface], name: &[u8]) -> Option<Interface>
    ensures { result ≡ interface_n text.now name.now interfaces.now }
{
    interfaces
        .iter()
        .find(|i| same_name(spelled(text, i.name), name))
        .copied()
}

// The type of the pantry's entry of that name.
fn entry_in(entries: &[Known], name: &[u8]) -> Option<u16>
    ensures { result ≡ entry_n name.now entries.now }
{
    entries
        .iter()
        .find(|e| same_name(e.name, name))
        .map(|e| e.of)
}

// Puts an item at a place of a table, of whose places 65,535 count: the next place.
fn put<T: Copy>(table: &mut [T], k: u16, item: T) -> Option<u16>
    ensures { MatchOption result ((min (length table.old) 65535 ≤ k) × (table.new ≡ table.old)) (λ next. (k < min (length table.old) 65535) × (next ≡ k + 1) × (table.new ≡ slice_set table.old k item)) }
{
    // By index: the proof of a write through `get_mut` did not close, neither behind `?` nor behind `if let`.
    let next = k.checked_add(1)?;
    if usize::from(k) >= table.len() {
        return None;
    }
    table[usize::from(k)] = item;
    Some(next)
}

impl Tables<'_, '_, '_> {
    // The type of a number.
    pub(crate) fn entry(&self, k: u16) -> TypeEntry
        ensures { result ≡ entry_at self.now.types.now k }
    {
        self.types
            .get(usize::from(k))
            .copied()
            .unwrap_or(TypeEntry::Blank)
    }

    // One type more; `at` is the part that needs it.
    #[tactic(auto, unfolding(crate::specs::Tables::adding))]
    pub fn add(&mut self, at: u16, entry: TypeEntry) -> Result<u16, CheckFault>
        ensures { Gives (adding at entry) result self.old self.new }
    {
        let n = self.count;
        self.count = put(self.types, n, entry).ok_or(CheckFault::TypesFull(at))?;
        Ok(n)
    }

    // Where an arrow or a hidden type stands, if it is there.
    fn find(&self, wanted: TypeEntry) -> Option<u16>
        ensures { result ≡ found_n self.now.given.text.now wanted (state_of self.now) }
    {
        let count = usize::from(self.count);
        let k = place_in(self.given.text, self.types, count, wanted)?;
        u16::try_from(k).ok()
    }

    // The arrow between two types, which is entered unless it is there.
    #[tactic(auto, unfolding(crate::specs::Tables::arrow_n))]
    pub fn arrow(&mut self, at: u16, from: u16, to: u16) -> Result<u16, CheckFault>
        ensures { Gives (arrow_n self.old.given.text.now at from to) result self.old self.new }
    {
        if let Some(k) = self.find(TypeEntry::Arrow { from, to, depth: 0 }) {
            return Ok(k);
        }
        let inner = self.entry(from).depth().max(self.entry(to).depth());
        if inner >= 32 {
            return Err(CheckFault::TooDeep(at));
        }
        self.add(
            at,
            TypeEntry::Arrow {
                from,
                to,
                depth: inner + 1,
            },
        )
    }

    // The hidden type of a module's name, which is entered unless it is there.
    #[tactic(auto, unfolding(crate::specs::Tables::hide_n))]
    pub fn hide(&mut self, at: u16, module: Span, name: Span) -> Result<u16, CheckFault>
        ensures { Gives (hide_n self.old.given.text.now at «module» name) result self.old self.new }
    {
        let entry = TypeEntry::Hidden { module, name };
        if let Some(k) = self.find(entry) {
            return Ok(k);
        }
        self.add(at, entry)
    }

    // A binding at the next place of the scope table, and the link that leads to it.
    #[tactic(auto, unfolding(crate::specs::Tables::binding))]
    fn bind(&mut self, at: u16, used: u16, slot: Slot) -> Result<u16, CheckFault>
        ensures { Gives (binding at used slot) result self.old self.new }
    {
        put(self.slots, used, slot).ok_or(CheckFault::ScopeFull(at))
    }

    // One value name more in scope. A type name has a function of its own: with a sort as a parameter each step would ask for the sort.
    #[tactic(auto, unfolding(crate::specs::Tables::enter_n))]
    pub fn enter(&mut self, at: u16, scope: Scope, name: Span, ty: u16) -> Result<Scope, CheckFault>
        ensures { Gives (enter_n at scope name ty) result self.old self.new }
    {
        let link = self.bind(
            at,
            scope.used,
            Slot::OfValue(Binding {
                name,
                value: ty,
                outer: scope.values,
            }),
        )?;
        Ok(Scope {
            used: link,
            values: link,
            ..scope
        })
    }

    // One type name more in scope.
    #[tactic(auto, unfolding(crate::specs::Tables::enter_type_n))]
    pub fn enter_type(
        &mut self,
        at: u16,
        scope: Scope,
        name: Span,
        ty: u16,
    ) -> Result<Scope, CheckFault>
        ensures { Gives (enter_type_n at scope name ty) result self.old self.new }
    {
        let link = self.bind(
            at,
            scope.used,
            Slot::OfType(Binding {
                name,
                value: ty,
                outer: scope.types,
            }),
        )?;
        Ok(Scope {
            used: link,
            types: link,
            ..scope
        })
    }

    // The nearest binding of a name, from a link on.
    #[tactic(auto, unfolding(crate::specs::Tables::nearest_n))]
    pub fn look(&self, link: u16, name: Span) -> Option<u16>
        ensures { result ≡ nearest_n self.now.given.text.now link name (state_of self.now) }
    {
        nearest(
            self.given.text,
            self.slots,
            link,
            spelled(self.given.text, name),
        )
    }

    // The interface of an earlier module.
    pub fn interface(&self, module: Span) -> Option<Interface>
        ensures { result ≡ interface_n self.now.given.text.now (spelled_in self.now.given.text.now «module») self.now.given.interfaces.now }
    {
        let name = spelled(self.given.text, module);
        interface_in(self.given.text, self.given.interfaces, name)
    }

    // What an earlier module's interface has a type name for.
    #[tactic(auto, unfolding(crate::specs::Tables::declared_n))]
    pub(crate) fn take_type(&self, module: Span, name: Span) -> Option<u16>
        ensures { result ≡ declared_n self.now.given.text.now self.now.given.interfaces.now types_of «module» name (state_of self.now) }
    {
        self.look(self.interface(module)?.types, name)
    }

    // The type of a value name of an earlier module's interface, or of an entry of the pantry.
    #[tactic(auto, unfolding(crate::specs::Tables::declared_n, crate::specs::Tables::taken_n))]
    pub(crate) fn take_value(&self, module: Span, name: Span) -> Option<u16>
        ensures { result ≡ taken_n self.now.given «module» name (state_of self.now) }
    {
        if is_pantry(spelled(self.given.text, module)) {
            return entry_in(self.given.entries, spelled(self.given.text, name));
        }
        self.look(self.interface(module)?.values, name)
    }
}
