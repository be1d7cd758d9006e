// A measure whose join depends on the order of its arguments.
ghost use Rattle.sheet_tests.specs.Skewed.{skewed_meaning};

use measures::Measure;
use ways::StepFacts;

#[derive(Clone, Copy)]
pub struct Skewed;

impl Measure for Skewed {
    type Figure = u32;

    ghost number = { λ _ a. a };

    ghost meaning = { λ _. skewed_meaning };

    fn empty(&self) -> u32 {
        0
    }

    fn join(&self, a: u32, b: u32) -> u32 {
        a.saturating_add(b).saturating_add(b)
    }

    fn grow(&self, step: StepFacts, a: u32) -> u32 {
        a.saturating_add(u32::from(step.minutes))
    }

    fn not_above(&self, a: u32, b: u32) -> bool {
        a <= b
    }
}
