// Tails: the minutes from a step to the hand-over. What is asked of the steps stands in each contract here, since `Paths`, which
// holds it, is made by these functions.
ghost use Rattle.std.specs.Prelude.{◌≡◌, ℕ, ◌<◌, ◌≤◌, length, drop, slice_index};
ghost use Rattle.steps.specs.Limits.{max_steps};
ghost use Rattle.steps.specs.Sheet.{Sized, Descending, Timed};
ghost use Rattle.ways.specs.Paths.{tail};
ghost use Rattle.paths.specs.Tails.{IsTails};

use steps::limits::MAX_STEPS;
use steps::step::Step;

// The minutes of a step and of all that it leads to, up to step 0. Targets have lower numbers, so it ends.
pub fn tail(steps: &[Step], i: usize) -> u32
    requires within { i < length steps.now }
    requires few { length steps.now < 65536 }
    requires descending { Descending steps.now }
    requires timed { Timed steps.now }
    ensures { result ≡ tail steps.now i }
{
    let minutes = u32::from(steps[i].minutes);
    if i == 0 {
        minutes
    } else {
        minutes + tail(steps, steps[i].target as usize)
    }
}

// Writes the tail of each step into a table; what stands behind is kept.
pub fn fill_tails(steps: &[Step], tails: &mut [u32])
    requires room { length steps.now ≤ length tails.old }
    requires few { length steps.now < 65536 }
    requires descending { Descending steps.now }
    requires timed { Timed steps.now }
    ensures tails { (i : ℕ) → i < length steps.now → slice_index tails.new i ≡ tail steps.now i }
    ensures kept { drop (length steps.now) tails.new ≡ drop (length steps.now) tails.old }
{
    // by numbers: of what a slice's `iter_mut` lends, a proof does not know what was written
    for i in 0..steps.len() {
        tails[i] = tail(steps, i);
    }
}

// The tail of each step.
pub(crate) fn tails_of(steps: &[Step]) -> [u32; MAX_STEPS]
    requires size { Sized max_steps steps.now }
    requires descending { Descending steps.now }
    requires timed { Timed steps.now }
    ensures { IsTails steps.now result }
{
    let mut tails = [0; MAX_STEPS];
    fill_tails(steps, &mut tails);
    tails
}
