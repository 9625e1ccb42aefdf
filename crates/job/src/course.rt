ghost use Rattle.std.specs.Prelude.{◌+◌, ◌≤◌, length};
ghost use Rattle.job.specs.Endings.{ends_from};

use arrayvec::ArrayVec;
use grammar::tree::Node;
use language::spans::Span;

// A module whose body has ended, and the scope of that body.
#[derive(Clone, Copy, Default)]
pub struct ModuleScope {
    pub name: Span,
    pub scope: u16,
}

// How far a job has come through the tree: the next place to look for a definition, and the modules whose bodies have ended. There is
// room for those that are still to end.
#[derive(Drop)]
pub struct Course<'r> {
    pub tree: &'r [Node],
    pub next: u16,
    pub modules: ArrayVec<ModuleScope, 32>,
    ghost short: { length tree.now ≤ 65535 },
    ghost room: { length modules.items + ends_from tree.now next ≤ 32 },
}
