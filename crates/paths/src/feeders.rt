// Feeders: the steps that lead into another.
ghost use Rattle.std.specs.Prelude.{◌≡◌};
ghost use Rattle.steps.specs.Limits.{max_steps};
ghost use Rattle.steps.specs.Sheet.{Sized, Descending};
ghost use Rattle.paths.specs.Feeders.{Marked};

use steps::limits::MAX_STEPS;
use steps::step::Step;

// Marks the steps that another leads into.
pub(crate) fn fed_steps(steps: &[Step]) -> [bool; MAX_STEPS]
    requires size { Sized max_steps steps.now }
    requires descending { Descending steps.now }
    ensures { Marked steps.now result }
{
    let mut fed = [false; MAX_STEPS];
    for step in &steps[1..] {
        fed[step.target as usize] = true;
    }
    fed
}
