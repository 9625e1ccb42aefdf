ghost use Rattle.std.specs.Prelude.{◌≡◌, ℕ, [], List};
ghost use Rattle.language.specs.Tree as tree;
ghost use Rattle.grammar.specs.Plan.{with_task};
ghost use Rattle.job.specs.Begins.{before, remaining, Takes};
ghost use Rattle.job.specs.Maps.{registers_of};

use crate::course::{Course, ModuleScope};
use crate::registers::{Control, Registers, Target};
use arrayvec::ArrayVec;
use grammar::sheet::ReadSheet;
use grammar::tree::{Item, Node};
use language::spans::Span;

// What a place of the tree has a job do.
#[derive(Clone, Copy)]
pub(crate) enum Task {
    Define { name: Span, part: u16 },
    EndModule { name: Span },
}

fn task_of(node: Node) -> Option<Task>
    ensures { (text : List ℕ) (ts : List tree.Task) → with_task text node ts ≡ before text result ts }
{
    let Node::Item(item) = node else {
        return None;
    };
    match item {
        Item::ValueIs { name, is } => Some(Task::Define { name, part: is }),
        Item::Module { name, .. } => Some(Task::EndModule { name }),
        _ => None,
    }
}

impl<'r> Course<'r> {
    // Nothing of the sheet has begun.
    pub(crate) fn new(sheet: ReadSheet<'_, 'r>) -> Course<'r>
        ensures tree { result.tree ≡ sheet.entry.tree }
        ensures next { result.next ≡ 0 }
        ensures modules { result.modules.items ≡ [] }
    {
        Course {
            tree: sheet.tree,
            next: 0,
            modules: ArrayVec::new(),
        }
    }

    // The next task, if one is left. By place, and not by what `split_first` leaves: what is left to define is told by the tree and a place,
    // and the place is kept from call to call.
    fn next_task(&mut self) -> Option<Task>
        ensures { Takes self.old self.new result }
    {
        while let Some(node) = self.tree.get(usize::from(self.next)).copied() {
            self.next += 1;
            if let Some(task) = task_of(node) {
                return Some(task);
            }
        }
        None
    }

    // With so many cells in use, turns to the next definition, in the scope of its body; past the last one, to the closing expression.
    pub(crate) fn begin(&mut self, close: u16, cells: u16) -> Registers
        ensures is { (text : List ℕ) → registers_of text self.new result ≡ remaining text close cells self.old cells }
        ensures tree { self.new.tree ≡ self.old.tree }
    {
        let mut scope = cells;
        while let Some(task) = self.next_task() {
            match task {
                Task::Define { name, part } => {
                    return Registers {
                        control: Control::Evaluate { part, scope },
                        target: Target::Defining { name, scope },
                        cells,
                        frames: 0,
                    };
                }
                Task::EndModule { name } => {
                    self.modules.push(ModuleScope { name, scope });
                    scope = 0;
                }
            }
        }
        Registers {
            control: Control::Evaluate {
                part: close,
                scope: 0,
            },
            target: Target::Closing,
            cells,
            frames: 0,
        }
    }
}
