ghost use Rattle.std.specs.Prelude.{cond, if◌then◌else◌};

use crate::Policy;
use steps::one_of::OneOf;
use steps::ready::Ready;

// One of two policies.
impl<A: Policy, B: Policy> Policy for OneOf<A, B> {
    ghost placing = { λ p. if p.first then A.Policy.placing p.a else B.Policy.placing p.b };

    ghost rule = { λ p rs i. cond p.first (A.Policy.rule p.a rs i) (B.Policy.rule p.b rs i) };

    fn pick(&self, ready: &[Ready]) -> usize {
        if self.first {
            self.a.pick(ready)
        } else {
            self.b.pick(ready)
        }
    }
}
