// The three measures of the counter.
ghost use Rattle.measures.specs.Counter.{meaning_of};

use crate::Measure;
use ways::StepFacts;

#[derive(Clone, Copy, PartialEq, Eq, Debug)]
pub enum CounterMeasure {
    // the work of a way: all its minutes together
    Minutes,
    // the critical path of a way: the most minutes from a leaf to the hand-over
    Chain,
    // all fees of a way together, in cents
    Fees,
}

impl Measure for CounterMeasure {
    type Figure = u32;

    ghost number = { λ _ a. a };

    ghost meaning = { meaning_of };

    fn empty(&self) -> u32 {
        0
    }

    // Both are worked out and then one is chosen: a pass over the steps was measured to take less time so.
    fn join(&self, a: u32, b: u32) -> u32 {
        let sum = a.saturating_add(b);
        let greater = a.max(b);
        match self {
            CounterMeasure::Minutes | CounterMeasure::Fees => sum,
            CounterMeasure::Chain => greater,
        }
    }

    fn grow(&self, step: StepFacts, a: u32) -> u32 {
        let amount = match self {
            CounterMeasure::Minutes | CounterMeasure::Chain => u32::from(step.minutes),
            CounterMeasure::Fees => step.fee,
        };
        a.saturating_add(amount)
    }

    fn not_above(&self, a: u32, b: u32) -> bool {
        a <= b
    }
}
