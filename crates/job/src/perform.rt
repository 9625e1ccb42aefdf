ghost use Rattle.std.specs.Prelude.{◌≡◌, ◌+◌, ◌-◌, ◌<◌, ◌≤◌, length, nat_lt, slice_set, if◌then◌else◌};
ghost use Rattle.language.specs.Bindings.{spelled_in};
ghost use Rattle.language.specs.Pantry.{fetch};
ghost use Rattle.language.specs.Machine.{
  try,
  gives,
  replied,
  count_without,
  handing,
  perform as perform_of,
  binds,
  branches,
  puts_down,
  replaces,
  defines,
};
ghost use Rattle.job.specs.Maps.{value_of, cell_of, frame_of, frames_of, yield_of, tried_of, action_of};
ghost use Rattle.job.specs.Machines.{text_of};
ghost use Rattle.job.specs.Performs.{Removes, Moves, MovesIf, Performs, Same, SparedIf, Spared};

use crate::actions::{Action, Frames, Yield};
use crate::arithmetic::computed;
use crate::machine::Machine;
use crate::reasons::Reason;
use crate::registers::Control;
use crate::tables::{Cell, Frame, Value};
use language::bindings::Binding;
use language::spans::Span;
use pantry::entries::Answer;
use pantry::pantries::{Pantry, ask};

// An entry's answer to an argument.
fn fetched<P: Pantry>(pantry: &P, entry: u8, argument: i32) -> Result<Value, Reason>
    ensures { tried_of result ≡ replied «entry» argument (fetch (P.meaning pantry.now) «entry» argument) }
{
    let answer = ask(pantry, entry, argument)?;
    match answer {
        Answer::Number(z) => Ok(Value::Integer(z)),
        Answer::Truth(b) => Ok(Value::Boolean(b)),
    }
}

// What is to be handed on, if it can be had.
fn tried<P: Pantry>(pantry: &P, what: Yield) -> Result<Value, Reason>
    ensures { tried_of result ≡ try (P.meaning pantry.now) (yield_of what) }
{
    match what {
        Yield::Plain(value) => Ok(value),
        Yield::Operation {
            operator,
            left,
            right,
        } => computed(operator, left, right),
        Yield::Fetched { entry, argument } => fetched(pantry, entry, argument),
    }
}

// The count with one more place in use, or why there is none.
fn one_more(used: u16, len: usize, full: Reason) -> Result<u16, Reason>
    requires { len ≤ 65535 }
    ensures { result ≡ (if nat_lt used len then Ok (used + 1) else Err full) }
{
    if usize::from(used) < len {
        Ok(used + 1)
    } else {
        Err(full)
    }
}

// Writes a place, if there is such a one. Not by `get_mut`, which does not tell what a slice is after it.
fn write<T: Copy>(table: &mut [T], place: u16, content: T)
    ensures { table.new ≡ slice_set table.old place content }
{
    let i = usize::from(place);
    if i < table.len() {
        table[i] = content;
    }
}

// Removes the top frame, or keeps all; the count of frames then.
fn removed(frames: &mut [Frame], which: Frames, count: u16) -> u16
    ensures is { Removes frames.old frames.new (frames_of (count - 1) which) }
    ensures left { result ≡ count_without (frames_of (count - 1) which) count }
{
    match which {
        Frames::Kept => count,
        Frames::Removed => {
            let top = count.saturating_sub(1);
            write(frames, top, Frame::Blank);
            top
        }
    }
}

impl Machine<'_, '_, '_> {
    // Hands a value on.
    fn hand(&mut self, which: Frames, value: Value)
        ensures is { Moves self.old self.new
            (λ w s g. handing s g (frames_of (g.frame_count - 1) which) (gives (value_of value))) }
        ensures same { Same self.old self.new }
    {
        self.registers.frames = removed(self.frames, which, self.registers.frames);
        self.registers.control = Control::Return(value);
    }

    // Turns to a branch.
    fn branch(&mut self, to: u16, scope: u16)
        ensures is { Moves self.old self.new
            (λ w s g. perform_of w s g (branches (g.frame_count - 1) to scope)) }
        ensures same { Same self.old self.new }
    {
        self.registers.frames = removed(self.frames, Frames::Removed, self.registers.frames);
        self.registers.control = Control::Evaluate { part: to, scope };
    }

    // Replaces the content of the top frame and turns to a part.
    fn replace(&mut self, frame: Frame, to: u16, scope: u16)
        ensures is { Moves self.old self.new
            (λ w s g. perform_of w s g (replaces (g.frame_count - 1) (frame_of frame) to scope)) }
        ensures same { Same self.old self.new }
    {
        let top = self.registers.frames.saturating_sub(1);
        write(self.frames, top, frame);
        self.registers.frames = top + 1;
        self.registers.control = Control::Evaluate { part: to, scope };
    }

    // Puts a frame down and turns to a part.
    fn put_down(&mut self, frame: Frame, to: u16, scope: u16) -> Result<(), Reason>
        ensures is { MovesIf self.old self.new result (λ w s g. perform_of w s g (puts_down (frame_of frame) to scope)) }
        ensures same { Same self.old self.new }
        ensures spared { SparedIf self.old self.new result }
    {
        let count = one_more(self.registers.frames, self.frames.len(), Reason::NoFrame)?;
        write(self.frames, self.registers.frames, frame);
        self.registers.frames = count;
        self.registers.control = Control::Evaluate { part: to, scope };
        Ok(())
    }

    // Binds a cell and turns to a part in the scope that begins there.
    fn bind(&mut self, which: Frames, cell: Cell, to: u16) -> Result<(), Reason>
        ensures is { MovesIf self.old self.new result
            (λ w s g. perform_of w s g (binds (frames_of (g.frame_count - 1) which) (cell_of (text_of self.old) cell) to)) }
        ensures same { Same self.old self.new }
        ensures spared { SparedIf self.old self.new result }
    {
        let count = one_more(self.registers.cells, self.cells.len(), Reason::NoCell)?;
        write(self.cells, self.registers.cells, cell);
        self.registers.frames = removed(self.frames, which, self.registers.frames);
        self.registers.cells = count;
        self.registers.control = Control::Evaluate {
            part: to,
            scope: count,
        };
        Ok(())
    }

    // Binds a definition's value and turns to the next definition.
    fn define(&mut self, name: Span, value: Value, scope: u16) -> Result<(), Reason>
        ensures is { MovesIf self.old self.new result
            (λ w s g. perform_of w s g (defines (spelled_in (text_of self.old) name) (value_of value) scope)) }
        ensures same { Same self.old self.new }
        ensures spared { SparedIf self.old self.new result }
    {
        let count = one_more(self.registers.cells, self.cells.len(), Reason::NoCell)?;
        let cell = Cell::Bound(Binding {
            name,
            value,
            outer: scope,
        });
        write(self.cells, self.registers.cells, cell);
        self.registers = self.course.begin(self.sheet.close, count);
        Ok(())
    }

    // Performs an action; the closing value, if it ends the job. One that stops or ends the job alters no table.
    pub(crate) fn perform<P: Pantry>(
        &mut self,
        pantry: &P,
        action: Action,
    ) -> Result<Option<Value>, Reason>
        ensures is { Performs (P.meaning pantry.now) self.old self.new result
            (λ w s g. perform_of w s g (action_of (text_of self.old) (g.frame_count - 1) action)) }
        ensures same { Same self.old self.new }
        ensures spared { Spared self.old self.new result }
    {
        // A match and no table of closures: each action has values of its own, and a closure could not be kept in a rule's answer.
        match action {
            Action::Hands { frames, what } => self.hand(frames, tried(pantry, what)?),
            Action::Binds { frames, cell, to } => self.bind(frames, cell, to)?,
            Action::Branches { to, scope } => self.branch(to, scope),
            Action::PutsDown { frame, to, scope } => self.put_down(frame, to, scope)?,
            Action::Replaces { frame, to, scope } => self.replace(frame, to, scope),
            Action::Defines { name, value, scope } => self.define(name, value, scope)?,
            Action::Ends(value) => return Ok(Some(value)),
        }
        Ok(None)
    }
}
