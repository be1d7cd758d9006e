// Leaves: the AND steps that no step leads into.
ghost use Rattle.std.specs.Prelude.{◌≡◌, not, ◌&&◌};
ghost use Rattle.plans.specs.Leaves.{is_and};

use steps::step::{Join, Step};

// Whether a step is a leaf, where it is known whether another leads into it.
pub fn is_leaf(step: &Step, fed: bool) -> bool
    ensures { result ≡ (is_and step.now.join && not fed) }
{
    matches!(step.join, Join::And) && !fed
}

// Whether the path of the step is one of the limits.
pub fn sets_limit(step: &Step, fed: bool) -> bool
    ensures { result ≡ (is_and step.now.join && not fed && not step.now.closed) }
{
    is_leaf(step, fed) && !step.closed
}
