// The values that changeable policies keep.
ghost use Rattle.std.specs.Prelude.{◌≡◌, length};
ghost use Rattle.policies.specs.Values.{kept_values};

use steps::limits::MAX_STEPS;

mod keeping;

// Changeable policies keep a value for each step that a sheet may have. `specs/Values.antt` has the same number.
pub const KEPT_VALUES: usize = MAX_STEPS;

// One value for each of the first `KEPT_VALUES` steps.
#[derive(Clone, Copy)]
pub struct Values {
    values: [u16; KEPT_VALUES],
    ghost whole: { length values ≡ kept_values },
}
