ghost use Rattle.std.specs.Prelude.{◌≡◌, ◌≤◌, min, length};
ghost use Rattle.language.specs.Job.{step_limit};
ghost use Rattle.language.specs.Step.{step as step_of};
ghost use Rattle.job.specs.Performs.{Performs, Same, Spared};
ghost use Rattle.job.specs.Advances.{Advances, lent_to};

use crate::answers::{Progress, Status};
use crate::course::Course;
use crate::machine::Machine;
use crate::reasons::Reason;
use crate::registers::Registers;
use crate::tables::{Cell, Frame, Value};
use grammar::sheet::ReadSheet;
use pantry::pantries::Pantry;

// A job makes no more steps.
const STEP_LIMIT: u32 = 4_000_000_000;

// No more places of a table count.
const TABLE_LIMIT: usize = 65_535;

impl Machine<'_, '_, '_> {
    // One step; the closing value, if it ends the job. One that stops or ends the job alters no table.
    fn step<P: Pantry>(&mut self, pantry: &P) -> Result<Option<Value>, Reason>
        ensures is { Performs (P.meaning pantry.now) self.old self.new result (λ w s g. step_of w s g) }
        ensures same { Same self.old self.new }
        ensures spared { Spared self.old self.new result }
    {
        // Not by `ok_or` and `?`: they copy the action twice, and a step takes twice as long.
        match self.rule_for(pantry) {
            Some(action) => self.perform(pantry, action),
            None => Err(Reason::NoRule),
        }
    }

    // Goes on for at most so many steps.
    fn stepping<P: Pantry>(&mut self, made: u32, pantry: &P, allowance: u32) -> Progress
        requires { made ≤ step_limit }
        ensures is { Advances (P.meaning pantry.now) self.old.sheet (lent_to self.old) (lent_to self.new)
            self.old.registers made allowance result }
        ensures same { Same self.old self.new }
        ensures counted { result.steps ≤ step_limit }
    {
        let end = made.saturating_add(allowance).min(STEP_LIMIT);
        // What is counted is the answer.
        for steps in made..end {
            match self.step(pantry) {
                Ok(None) => {}
                Ok(Some(value)) => {
                    return Progress {
                        status: Status::Finished(value),
                        steps: steps + 1,
                    };
                }
                Err(reason) => {
                    return Progress {
                        status: Status::Stopped(reason),
                        steps,
                    };
                }
            }
        }
        Progress {
            status: Status::Running(self.registers),
            steps: end,
        }
    }
}

// How many places of a table count.
pub(crate) fn limited(len: usize) -> usize
    ensures { result ≡ min 65535 len }
{
    TABLE_LIMIT.min(len)
}

// A job that has not ended goes on for at most so many steps, on these tables.
pub(crate) fn stepping_on<'t, 'r, P: Pantry>(
    sheet: ReadSheet<'t, 'r>,
    course: &mut Course<'r>,
    cells: &mut [Cell],
    frames: &mut [Frame],
    registers: Registers,
    made: u32,
    pantry: &P,
    allowance: u32,
) -> Progress
    requires cells_short { length cells.old ≤ 65535 }
    requires frames_short { length frames.old ≤ 65535 }
    requires counted { made ≤ step_limit }
    ensures is { Advances (P.meaning pantry.now) sheet.entry
        (record { course = course.old; cells = cells.old; frames = frames.old })
        (record { course = course.new; cells = cells.new; frames = frames.new })
        registers made allowance result }
    ensures tree { course.new.tree ≡ course.old.tree }
    ensures counted { result.steps ≤ step_limit }
{
    let mut machine = Machine {
        sheet,
        course,
        registers,
        cells,
        frames,
    };
    machine.stepping(made, pantry, allowance)
}
