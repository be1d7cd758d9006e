// Policies that keep values which may be changed.
ghost use Rattle.std.specs.Prelude.{◌≡◌, ℕ, ◌<◌, if◌then◌else◌, ◌≢◌, nat_lt};
ghost use Rattle.steps.specs.Numbers.{told};
ghost use Rattle.policies.specs.Values.{kept_values, set_answer, cleared};

use crate::Policy;
use crate::values::KEPT_VALUES;
use steps::refusal::Refusal;

// A changeable policy keeps a value of 16 bits for each step that a sheet may have, and a rest.
pub trait Changeable: Policy {
    // what is kept besides the values
    type Rest;

    // the value of a step
    ghost keeps: { Self → ℕ → ℕ };

    ghost rest: { Self → Self.Rest };

    // the policy with the value of one step replaced
    ghost put: { Self → ℕ → ℕ → Self };

    // Replaces the value of one step.
    fn set(&mut self, step: u16, value: u16) -> Result<(), Refusal>
        ensures answer { told result ≡ set_answer step }
        ensures after { self.new ≡ (if nat_lt step kept_values then put self.old step value else self.old) };

    // the value is read back
    ghost reads: { (p : Self) (step v : ℕ) → step < kept_values → keeps (put p step v) step ≡ v };

    // those of all other steps are as they were, and so is the rest
    ghost others: { (p : Self) (step v other : ℕ) → (other ≢ step) → keeps (put p step v) other ≡ keeps p other };

    ghost leaves: { (p : Self) (step v : ℕ) → rest (put p step v) ≡ rest p };

    // to replace a value by itself changes nothing, and of two replacements the second holds
    ghost same: { (p : Self) (step : ℕ) → put p step (keeps p step) ≡ p };

    ghost second: { (p : Self) (step v w : ℕ) → put (put p step v) step w ≡ put p step w };
}

// Sets all values to 0.
pub fn clear<C: Changeable>(policy: &mut C)
    ensures zeros { (step : ℕ) → step < kept_values → C.keeps policy.new step ≡ 0 }
    ensures kept { C.rest policy.new ≡ C.rest policy.old }
    ensures after { policy.new ≡ cleared C.put kept_values policy.old }
{
    for step in 0..KEPT_VALUES as u16 {
        let _ = policy.set(step, 0);
    }
}
