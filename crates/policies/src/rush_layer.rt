ghost use Rattle.std.specs.Prelude.{◌≡◌, ℕ, slice_index};
ghost use Rattle.std.proofs.Common.{ap, rules};
ghost use Rattle.policies.specs.Meanings.{rush_layer, marked};
ghost use Rattle.policies.specs.Rules.{FirstMarked};
ghost use Rattle.policies.specs.Changes.{put_value};
ghost use Rattle.policies.specs.Kept.{put_same, put_second};

use crate::places::rises;
use crate::values::Values;
use crate::{Changeable, Policy};
use steps::ready::Ready;
use steps::refusal::Refusal;

// The first marked step first; where none is marked, what the policy below names.
#[derive(Clone, Copy)]
pub struct RushLayer<P> {
    marks: Values,
    below: P,
}

impl<P> RushLayer<P> {
    // No step marked.
    pub fn new(below: P) -> RushLayer<P>
        ensures marks { (step : ℕ) → slice_index result.marks.values step ≡ 0 }
        ensures below { result.below ≡ below }
    {
        RushLayer {
            marks: Values::new(),
            below,
        }
    }

    fn is_marked(&self, ready: &Ready) -> bool
        ensures { result ≡ marked self.now.marks.values ready.now }
    {
        self.marks.value_or(0, ready.step) != 0
    }
}

impl<P: Policy> Policy for RushLayer<P> {
    ghost placing = { λ p. rush_layer p.marks.values (P.Policy.placing p.below) };

    ghost rule = { λ p rs i. FirstMarked p.marks.values (P.Policy.placing p.below) rs i };

    fn pick(&self, ready: &[Ready]) -> usize {
        if !rises(ready) {
            return 0;
        }
        // all policies go over the ready steps with their places
        for (i, r) in ready.iter().enumerate() {
            if self.is_marked(r) {
                return i;
            }
        }
        self.below.pick(ready)
    }
}

impl<P: Policy> Changeable for RushLayer<P> {
    type Rest = P;

    ghost keeps = { λ p step. slice_index p.marks.values step };

    ghost put = { λ p step v. record { marks = put_value p.marks step v; below = p.below } };

    ghost rest = { λ p. p.below };

    ghost reads = { Prim.search rules };

    ghost others = { Prim.search rules };

    ghost leaves = { Prim.search rules };

    ghost same = { λ p step. Prim.rw (put_same p.marks step) };

    ghost second = { λ p step v w. Prim.rw (put_second p.marks step v w) };

    fn set(&mut self, step: u16, value: u16) -> Result<(), Refusal> {
        self.marks.set(step, value)
    }
}
