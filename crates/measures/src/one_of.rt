ghost use Rattle.std.specs.Prelude.{if◌then◌else◌};

use crate::Measure;
use steps::one_of::OneOf;
use ways::StepFacts;

// One of two measures; its figures are pairs, of which the chosen part counts.
impl<A: Measure, B: Measure> Measure for OneOf<A, B> {
    type Figure = (A::Figure, B::Figure);

    ghost number = { λ m f. if m.first then A.Measure.number m.a f.0 else B.Measure.number m.b f.1 };

    ghost meaning = { λ m. if m.first then A.Measure.meaning m.a else B.Measure.meaning m.b };

    fn empty(&self) -> (A::Figure, B::Figure) {
        (self.a.empty(), self.b.empty())
    }

    fn join(&self, x: (A::Figure, B::Figure), y: (A::Figure, B::Figure)) -> (A::Figure, B::Figure) {
        (self.a.join(x.0, y.0), self.b.join(x.1, y.1))
    }

    fn grow(&self, step: StepFacts, x: (A::Figure, B::Figure)) -> (A::Figure, B::Figure) {
        (self.a.grow(step, x.0), self.b.grow(step, x.1))
    }

    fn not_above(&self, x: (A::Figure, B::Figure), y: (A::Figure, B::Figure)) -> bool {
        if self.first {
            self.a.not_above(x.0, y.0)
        } else {
            self.b.not_above(x.1, y.1)
        }
    }
}
