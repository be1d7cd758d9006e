// How far a timetable is made.
ghost use Rattle.std.specs.Prelude.{◌≡◌, length};
ghost use Rattle.steps.specs.Limits.{max_steps};

use steps::limits::MAX_STEPS;

// The time, how many rows are written, and the end of each step that has begun. The rows lie in the caller's table, so their
// number stands apart from them.
#[derive(Drop)]
pub(crate) struct Run {
    pub(crate) time: u32,
    pub(crate) count: usize,
    pub(crate) ends: [Option<u32>; MAX_STEPS],
    ghost whole: { length ends ≡ max_steps },
}
