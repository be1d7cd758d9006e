ghost use Rattle.std.specs.Prelude.{◌≡◌, ℕ, ◌<◌, if◌then◌else◌, nat_lt, slice_index};
ghost use Rattle.steps.specs.Numbers.{told};
ghost use Rattle.policies.specs.Values.{kept_values, value_or, set_answer};
ghost use Rattle.policies.specs.Changes.{put_value};

use super::{KEPT_VALUES, Values};
use steps::refusal::Refusal;

impl Values {
    // All values 0.
    pub fn new() -> Values
        ensures { (step : ℕ) → slice_index result.values step ≡ 0 }
    {
        Values {
            values: [0; KEPT_VALUES],
        }
    }

    // The value kept for a step, or another where none is kept.
    pub fn value_or(&self, otherwise: u16, step: u16) -> u16
        ensures { result ≡ value_or otherwise self.now.values step }
    {
        self.values
            .get(usize::from(step))
            .copied()
            .unwrap_or(otherwise)
    }

    pub fn set(&mut self, step: u16, value: u16) -> Result<(), Refusal>
        ensures answer { told result ≡ set_answer step }
        ensures after { self.new ≡ (if nat_lt step kept_values then put_value self.old step value else self.old) }
    {
        let step = usize::from(step);
        if step >= KEPT_VALUES {
            return Err(Refusal::NoValueKept);
        }
        // by number: of a slice after a write through `get_mut` a proof knows the length alone
        self.values[step] = value;
        Ok(())
    }
}
