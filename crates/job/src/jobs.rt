ghost use Rattle.std.specs.Prelude.{◌≡◌, ◌≤◌};
ghost use Rattle.language.specs.Job.{step_limit};

use crate::answers::Progress;
use crate::course::Course;
use checker::passes::Pass;

// A job on a pass. It is spent by `finish` alone.
pub struct Job<'t, 'r, 'y, 'e, 'n> {
    pub(crate) pass: Pass<'t, 'r, 'y, 'e, 'n>,
    pub(crate) course: Course<'r>,
    pub(crate) progress: Progress,
    ghost same_tree: { course.tree.now ≡ pass.sheet.tree.now },
    ghost counted: { progress.steps ≤ step_limit },
}
