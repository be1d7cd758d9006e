// Places in lists of ready steps.
ghost use Rattle.std.specs.Prelude.{◌≡◌, Bool};
ghost use Rattle.steps.specs.declared.ready.Ready.{Ready};
ghost use Rattle.steps.specs.Placing.{rising};
ghost use Rattle.policies.specs.Places.{Strict, Says, IsFirstBest};

use steps::ready::Ready;

// Whether the step numbers rise.
pub fn rises(ready: &[Ready]) -> bool
    ensures { result ≡ rising ready.now }
{
    ready.is_sorted_by(|a, b| a.step < b.step)
}

// The first entry that none comes before, by a rule that says of two whether the one comes before the other; place 0 where the
// step numbers do not rise.
pub fn first_best<F: Fn(&Ready, &Ready) -> bool>(ready: &[Ready], comes_before: F) -> usize
    requires { F.IsAlwaysCallable comes_before }
    ensures { (beats : Ready → Ready → Bool) → Strict beats → Says F.Fn comes_before beats → IsFirstBest beats ready.now result }
{
    if !rises(ready) {
        return 0;
    }
    let mut best = 0;
    for (i, r) in ready.iter().enumerate() {
        if comes_before(r, &ready[best]) {
            best = i;
        }
    }
    best
}
