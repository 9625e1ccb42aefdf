ghost use Rattle.std.specs.Prelude.{◌≡◌, ℕ, ◌+◌, ◌<◌, min, List, length, replicate};
ghost use Rattle.language.specs.Job.{blanked, opened, after, answer_of as answer_for};
ghost use Rattle.job.specs.declared.course.Course.{Course as Way};
ghost use Rattle.checker.specs.declared.passes.Pass.{Pass as Passed};
ghost use Rattle.job.specs.Maps.{status_of, answer_of};
ghost use Rattle.job.specs.Advances.{within, behind, Behind};
ghost use Rattle.job.specs.Safety.{SafeRuns};
ghost use Rattle.job.specs.Jobs.{plan_for, store_for, started, job_of, moment_of, SamePass};

use crate::answers::{Answer, Progress, Status};
use crate::course::Course;
use crate::jobs::Job;
use crate::steps::{limited, stepping_on};
use crate::tables::{Cell, Frame};
use checker::passes::Pass;
use pantry::pantries::Pantry;

// Blanks the places of both tables that count.
fn blank_tables(cells: &mut [Cell], frames: &mut [Frame])
    ensures is { (p : Passed) → store_for p cells.new frames.new ≡
        blanked (store_for p cells.old frames.old) }
    ensures behind { Behind cells.old cells.new frames.old frames.new }
{
    let c = limited(cells.len());
    cells[..c].fill(Cell::Blank);
    let f = limited(frames.len());
    frames[..f].fill(Frame::Blank);
}

// What the answer says of how a job stands.
fn said(progress: Progress) -> Answer
    ensures { (text : List ℕ) (way : Way) → answer_of result ≡
        answer_for (record { status = status_of text way progress.status; steps = progress.steps }) }
{
    let steps = progress.steps;
    match progress.status {
        Status::Running(_) => Answer::Going { steps },
        Status::Finished(value) => Answer::Done { value, steps },
        Status::Stopped(reason) => Answer::Stop { reason, steps },
    }
}

impl<'t, 'r, 'y, 'e, 'n> Job<'t, 'r, 'y, 'e, 'n> {
    // A job that has made no step.
    fn fresh(pass: Pass<'t, 'r, 'y, 'e, 'n>) -> Job<'t, 'r, 'y, 'e, 'n>
        ensures is { (cells : List Cell) (frames : List Frame) → moment_of result cells frames ≡
            started (plan_for pass.entry) (store_for pass.entry cells frames) }
        ensures pass { SamePass result.pass pass.entry }
        ensures safe { SafeRuns pass.entry }
    {
        let mut course = Course::new(pass.sheet);
        let registers = course.begin(pass.sheet.close, 0);
        Job {
            pass,
            course,
            progress: Progress {
                status: Status::Running(registers),
                steps: 0,
            },
        }
    }

    // Opens a job on a pass and blanks the tables. A sheet that passed has only sound jobs (`safe`).
    pub fn open(
        pass: Pass<'t, 'r, 'y, 'e, 'n>,
        cells: &mut [Cell],
        frames: &mut [Frame],
    ) -> Job<'t, 'r, 'y, 'e, 'n>
        ensures is { moment_of result cells.new frames.new ≡
            opened (plan_for pass.entry) (store_for pass.entry cells.old frames.old) }
        ensures behind { Behind cells.old cells.new frames.old frames.new }
        ensures pass { SamePass result.pass pass.entry }
        ensures safe { SafeRuns pass.entry }
    {
        blank_tables(cells, frames);
        Job::fresh(pass)
    }

    // How the job stands. Nothing is altered.
    pub fn status(&self) -> Answer
        ensures { answer_of result ≡ answer_for (job_of self.now) }
    {
        said(self.progress)
    }

    // The tables are lent anew to each advance, so they are no part of the job.
    fn go_on<P: Pantry>(
        &mut self,
        cells: &mut [Cell],
        frames: &mut [Frame],
        pantry: &P,
        allowance: u32,
    )
        ensures is { moment_of self.new cells.new frames.new ≡
            after (plan_for self.old.pass) (P.meaning pantry.now) allowance
            (moment_of self.old cells.old frames.old) }
        ensures behind { Behind cells.old cells.new frames.old frames.new }
        ensures adds { (b : ℕ) → after (plan_for self.old.pass) (P.meaning pantry.now) (allowance + b)
            (moment_of self.old cells.old frames.old) ≡
            after (plan_for self.old.pass) (P.meaning pantry.now) b
            (moment_of self.new cells.new frames.new) }
        ensures pass { SamePass self.new.pass self.old.pass }
    {
        let Status::Running(registers) = self.progress.status else {
            return;
        };
        let c = limited(cells.len());
        let f = limited(frames.len());
        self.progress = stepping_on(
            self.pass.sheet,
            &mut self.course,
            &mut cells[..c],
            &mut frames[..f],
            registers,
            self.progress.steps,
            pantry,
            allowance,
        );
    }

    // Goes on for at most so many steps, on these tables as they stand.
    pub fn advance<P: Pantry>(
        &mut self,
        cells: &mut [Cell],
        frames: &mut [Frame],
        pantry: &P,
        allowance: u32,
    ) -> Answer
        ensures is { moment_of self.new cells.new frames.new ≡
            after (plan_for self.old.pass) (P.meaning pantry.now) allowance
            (moment_of self.old cells.old frames.old) }
        ensures answer { answer_of result ≡ answer_for (job_of self.new) }
        ensures behind { Behind cells.old cells.new frames.old frames.new }
        ensures adds { (b : ℕ) → after (plan_for self.old.pass) (P.meaning pantry.now) (allowance + b)
            (moment_of self.old cells.old frames.old) ≡
            after (plan_for self.old.pass) (P.meaning pantry.now) b
            (moment_of self.new cells.new frames.new) }
        ensures pass { SamePass self.new.pass self.old.pass }
    {
        self.go_on(cells, frames, pantry, allowance);
        self.status()
    }

    // Lays the job down, half run or not, and gives its last answer.
    pub fn finish(self) -> Answer
        ensures { answer_of result ≡ answer_for (job_of self.entry) }
    {
        let Job {
            pass: _,
            course: _,
            progress,
        } = self;
        said(progress)
    }
}
