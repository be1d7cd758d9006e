// Measures of ways: what one is, and the three of the counter.
#![tactic(auto)]

ghost use Rattle.std.specs.Prelude.{◌≡◌, ℕ, nat_le};
ghost use Rattle.ways.specs.Measures.{Meaning};
ghost use Rattle.measures.specs.Plain.{SumsPlain};

use ways::StepFacts;

mod counter;
mod one_of;

pub use counter::CounterMeasure::{self, Chain, Fees, Minutes};
pub use steps::one_of::OneOf;

// A measure rates ways by figures, each of which stands for a number. Its meaning is its rules on these numbers, with their
// laws: neither joining nor growing falls when a figure rises.
pub trait Measure {
    type Figure: Copy;

    ghost number: { Self → Self.Figure → ℕ };

    ghost meaning: { Self → Meaning };

    fn empty(&self) -> Self::Figure
        ensures { number self.now result ≡ (meaning self.now).empty };

    fn join(&self, a: Self::Figure, b: Self::Figure) -> Self::Figure
        ensures { number self.now result ≡ (meaning self.now).joins (number self.now a) (number self.now b) };

    fn grow(&self, step: StepFacts, a: Self::Figure) -> Self::Figure
        ensures { number self.now result ≡ (meaning self.now).grows step (number self.now a) };

    fn not_above(&self, a: Self::Figure, b: Self::Figure) -> bool
        ensures { result ≡ nat_le (number self.now a) (number self.now b) };
}

// On every sheet the sums of the three measures never stop.
pub fn sums_stand()
    ensures { SumsPlain }
{}
