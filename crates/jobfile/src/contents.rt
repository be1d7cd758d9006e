// What a job file holds.
ghost use Rattle.std.specs.Prelude.{◌≡◌, ◌≤◌, length};
ghost use Rattle.steps.specs.Limits.{max_steps};

use steps::limits::MAX_STEPS;
use steps::step::Step;

mod loading;

pub use loading::load;

// The benches of the head, and the steps: the first `count` of the table; what stands behind them means nothing.
#[derive(Clone, Copy)]
pub struct Contents {
    pub benches: u8,
    pub count: usize,
    pub steps: [Step; MAX_STEPS],
    ghost size: { length steps ≡ max_steps },
    ghost counted: { count ≤ max_steps },
}
