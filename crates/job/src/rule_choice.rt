ghost use Rattle.std.specs.Prelude.{◌≡◌, ℕ, ◌-◌, List, map};
ghost use Rattle.language.specs.Tree.{node_at};
ghost use Rattle.language.specs.Machine.{
  value_cell,
  frame_at,
  nearest as nearest_of,
  hands,
  kept,
  removed,
  plain,
  binds,
  puts_down,
  replaces,
  await_first,
  await_second as second,
};
ghost use Rattle.language.specs.Pantry.{Pantry as Meaning};
ghost use Rattle.language.specs.Rules.{procedure_at};
ghost use Rattle.language.specs.Step.{
  testing_zero,
  choosing,
  on_first,
  calling,
  applying,
  computing,
  on_second,
  on_frame,
  handing_value,
  on_node,
  ending,
  rule_for,
};
ghost use Rattle.language.specs.Bindings.{spelled_in};
ghost use Rattle.grammar.specs.Plain.{plain_o};
ghost use Rattle.grammar.specs.Plan.{node_of};
ghost use Rattle.job.specs.Maps.{value_of, frame_of, target_of, action_of};
ghost use Rattle.job.specs.Rules.{Asks, on_qualified};
ghost use Rattle.job.specs.Machines.{text_of, Decides};

use crate::actions::{Action, Frames, Yield};
use crate::entries::{asked, from_entry};
use crate::lookups::{module_scope, value_of};
use crate::machine::Machine;
use crate::registers::{Control, Target};
use crate::tables::{Cell, Frame, Value};
use grammar::tree::{ExpNode, Node, Operator};
use language::bindings::Binding;
use language::spans::{Span, spelled};
use pantry::pantries::Pantry;
use words::names::same_name;

// A value is handed on, and the frames are kept.
fn handed(value: Value) -> Action
    ensures { (text : List ℕ) (d : ℕ) → action_of text d result ≡ hands kept (plain (value_of value)) }
{
    Action::Hands {
        frames: Frames::Kept,
        what: Yield::Plain(value),
    }
}

// A form waits for its first part.
fn put_down(part: u16, scope: u16, to: u16) -> Action
    ensures { (text : List ℕ) (d : ℕ) → action_of text d result ≡ puts_down (await_first part scope) to scope }
{
    Action::PutsDown {
        frame: Frame::AwaitFirst { part, scope },
        to,
        scope,
    }
}

// The value that the top frame waited for is bound, in the scope of a body.
fn bind(name: Span, value: Value, outer: u16, to: u16) -> Action
    ensures { (text : List ℕ) (d : ℕ) → action_of text d result ≡
        binds (removed d) (value_cell (spelled_in text name) (value_of value) outer) to }
{
    Action::Binds {
        frames: Frames::Removed,
        cell: Cell::Bound(Binding { name, value, outer }),
        to,
    }
}

// A form whose first part has a value waits for its second.
fn await_second(part: u16, scope: u16, value: Value, to: u16) -> Action
    ensures { (text : List ℕ) (d : ℕ) → action_of text d result ≡ replaces d (second part scope (value_of value)) to scope }
{
    Action::Replaces {
        frame: Frame::AwaitSecond { part, scope, value },
        to,
        scope,
    }
}

// The value of `zero?`'s part.
fn tested_zero(value: Value) -> Option<Action>
    ensures { Asks result (λ text d. testing_zero d (value_of value)) }
{
    match value {
        Value::Integer(z) => Some(Action::Hands {
            frames: Frames::Removed,
            what: Yield::Plain(Value::Boolean(z == 0)),
        }),
        _ => None,
    }
}

// The value of a test.
fn chosen(value: Value, scope: u16, consequent: u16, alternative: u16) -> Option<Action>
    ensures { Asks result (λ text d. choosing d scope consequent alternative (value_of value)) }
{
    match value {
        Value::Boolean(holds) => Some(Action::Branches {
            to: if holds { consequent } else { alternative },
            scope,
        }),
        _ => None,
    }
}

// The value of the first part of a form.
fn on_first(node: Node, part: u16, scope: u16, value: Value) -> Option<Action>
    ensures { Asks result (λ text d. on_first d part scope (value_of value) (node_of text node)) }
{
    match node {
        Node::Expression(ExpNode::IsZero { .. }) => tested_zero(value),
        Node::Expression(ExpNode::Apply { operand, .. }) => {
            Some(await_second(part, scope, value, operand))
        }
        Node::Expression(ExpNode::Let { name, body, .. }) => {
            Some(bind(name, value, scope, body))
        }
        Node::Expression(
            ExpNode::If {
                consequent,
                alternative,
                ..
            },
        ) => chosen(value, scope, consequent, alternative),
        Node::Expression(ExpNode::Binary { right, .. }) => {
            Some(await_second(part, scope, value, right))
        }
        _ => None,
    }
}

// A procedure's part gets its argument.
fn called(node: Node, scope: u16, value: Value) -> Option<Action>
    ensures { Asks result (λ text d. calling d scope (value_of value) (procedure_at (node_of text node))) }
{
    match node {
        Node::Expression(
            ExpNode::Proc {
                parameter,
                body,
                ..
            }
            | ExpNode::Letrec {
                parameter,
                body,
                ..
            },
        ) => Some(bind(parameter, value, scope, body)),
        _ => None,
    }
}

// The two sides of an operation.
fn operated(operator: Operator, left: Value, right: Value) -> Option<Action>
    ensures { Asks result (λ text d. computing d (plain_o operator) (value_of left) (value_of right)) }
{
    match (left, right) {
        (Value::Integer(left), Value::Integer(right)) => Some(Action::Hands {
            frames: Frames::Removed,
            what: Yield::Operation {
                operator,
                left,
                right,
            },
        }),
        _ => None,
    }
}

// No frame is left.
fn ended(target: Target, value: Value) -> Option<Action>
    ensures { Asks result (λ text d. ending (value_of value) (target_of text target)) }
{
    match target {
        Target::Defining { name, scope } => Some(Action::Defines { name, value, scope }),
        Target::Closing => Some(Action::Ends(value)),
    }
}

impl Machine<'_, '_, '_> {
    // A place of the tree; past its end there is none.
    fn node_at(&self, part: u16) -> Node
        ensures { (text : List ℕ) → node_of text result ≡ node_at (map (node_of text) self.now.sheet.tree.now) part }
    {
        self.sheet
            .tree
            .get(usize::from(part))
            .copied()
            .unwrap_or(Node::Blank)
    }

    // A place of the frames; past their end there is none.
    fn frame_at(&self, place: u16) -> Frame
        ensures { frame_of result ≡ frame_at (map frame_of self.now.frames.now) place }
    {
        self.frames
            .get(usize::from(place))
            .copied()
            .unwrap_or(Frame::Blank)
    }

    // An operator gets its operand.
    fn applied<P: Pantry>(&self, pantry: &P, operator: Value, operand: Value) -> Option<Action>
        ensures { Decides (P.meaning pantry.now) self.now result
            (λ w s g. applying w (g.frame_count - 1) (value_of operator) (value_of operand)) }
    {
        match operator {
            Value::Closure { part, scope } => called(self.node_at(part), scope, operand),
            Value::PantryProcedure(entry) => asked(pantry, entry, operand),
            _ => None,
        }
    }

    // The value of the second part of a form; `first` was its first part's.
    fn on_second<P: Pantry>(
        &self,
        pantry: &P,
        node: Node,
        first: Value,
        value: Value,
    ) -> Option<Action>
        ensures { Decides (P.meaning pantry.now) self.now result
            (λ w s g. on_second w (g.frame_count - 1) (value_of first) (value_of value) (node_of (text_of self.now) node)) }
    {
        match node {
            Node::Expression(ExpNode::Apply { .. }) => self.applied(pantry, first, value),
            Node::Expression(ExpNode::Binary { operator, .. }) => {
                operated(operator, first, value)
            }
            _ => None,
        }
    }

    // The top frame gets a value.
    fn on_frame<P: Pantry>(&self, pantry: &P, frame: Frame, value: Value) -> Option<Action>
        ensures { Decides (P.meaning pantry.now) self.now result
            (λ w s g. on_frame w (g.frame_count - 1) (value_of value) (frame_of frame)) }
    {
        match frame {
            Frame::AwaitFirst { part, scope } => {
                on_first(self.node_at(part), part, scope, value)
            }
            Frame::AwaitSecond {
                part,
                value: first,
                ..
            } => self.on_second(pantry, self.node_at(part), first, value),
            Frame::Blank => None,
        }
    }

    // A name hands its value.
    fn looked_up(&self, scope: u16, name: &[u8]) -> Option<Action>
        ensures { (p : Meaning) → Decides p self.now result (λ w s g. handing_value (nearest_of s.cells scope name.now)) }
    {
        value_of(self.sheet.text, self.cells, scope, name).map(handed)
    }

    // `from m take x` hands its value.
    fn qualified<P: Pantry>(&self, pantry: &P, module: &[u8], name: &[u8]) -> Option<Action>
        ensures { Decides (P.meaning pantry.now) self.now result (λ w s g. on_qualified w s g «module».now name.now) }
    {
        if same_name(b"pantry", module) {
            return from_entry(pantry, name);
        }
        let scope = module_scope(self.sheet.text, &self.course.modules, module)?;
        self.looked_up(scope, name)
    }

    // A part is evaluated.
    fn on_node<P: Pantry>(&self, pantry: &P, node: Node, part: u16, scope: u16) -> Option<Action>
        ensures { Decides (P.meaning pantry.now) self.now result
            (λ w s g. on_node w s g part scope (node_of (text_of self.now) node)) }
    {
        // Taken apart before the match, so that no form of an expression can be left out.
        let Node::Expression(node) = node else {
            return None;
        };
        let text = self.sheet.text;
        // A match and no table of closures: each form has parts of its own.
        match node {
            ExpNode::Number { value, .. } => Some(handed(Value::Integer(value))),
            ExpNode::Boolean { value, .. } => Some(handed(Value::Boolean(value))),
            ExpNode::Variable { name } => self.looked_up(scope, spelled(text, name)),
            ExpNode::From { module, name, .. } => {
                self.qualified(pantry, spelled(text, module), spelled(text, name))
            }
            ExpNode::Proc { .. } => Some(handed(Value::Closure { part, scope })),
            ExpNode::Letrec { name, rest, .. } => Some(Action::Binds {
                frames: Frames::Kept,
                cell: Cell::Letrec(Binding {
                    name,
                    value: part,
                    outer: scope,
                }),
                to: rest,
            }),
            ExpNode::IsZero { part: to, .. } => Some(put_down(part, scope, to)),
            ExpNode::Apply { operator, .. } => Some(put_down(part, scope, operator)),
            ExpNode::Let { bound, .. } => Some(put_down(part, scope, bound)),
            ExpNode::If { test, .. } => Some(put_down(part, scope, test)),
            ExpNode::Binary { left, .. } => Some(put_down(part, scope, left)),
        }
    }

    // The action that the rules ask for, if there is one. Nothing is altered.
    pub(crate) fn rule_for<P: Pantry>(&self, pantry: &P) -> Option<Action>
        ensures { Decides (P.meaning pantry.now) self.now result (λ w s g. rule_for w s g) }
    {
        // A match: a part and a value have rules of their own.
        match self.registers.control {
            Control::Evaluate { part, scope } => self.on_node(
                pantry,
                self.node_at(part),
                part,
                scope,
            ),
            Control::Return(value) => match self.registers.frames.checked_sub(1) {
                Some(top) => self.on_frame(pantry, self.frame_at(top), value),
                None => ended(self.registers.target, value),
            },
        }
    }
}
