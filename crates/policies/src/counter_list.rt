ghost use Rattle.std.specs.Prelude.{◌≡◌, ℕ, slice_index};
ghost use Rattle.std.proofs.Common.{ap, rules};
ghost use Rattle.policies.specs.Meanings.{counter_list, rank};
ghost use Rattle.policies.specs.Rules.{FirstRanked};
ghost use Rattle.policies.specs.Changes.{put_value};
ghost use Rattle.policies.specs.Kept.{put_same, put_second};

use crate::places::first_best;
use crate::values::Values;
use crate::{Changeable, Policy};
use steps::ready::Ready;
use steps::refusal::Refusal;

// The rank of a step for which none is kept.
const UNRANKED: u16 = 65_535;

// The lowest rank first; among equals the lowest step.
#[derive(Clone, Copy)]
pub struct CounterList {
    ranks: Values,
}

impl CounterList {
    // All ranks 0.
    pub fn new() -> CounterList
        ensures { (step : ℕ) → slice_index result.ranks.values step ≡ 0 }
    {
        CounterList {
            ranks: Values::new(),
        }
    }

    fn rank(&self, ready: &Ready) -> u16
        ensures { result ≡ rank self.now.ranks.values ready.now }
    {
        self.ranks.value_or(UNRANKED, ready.step)
    }
}

impl Policy for CounterList {
    ghost placing = { λ p. counter_list p.ranks.values };

    ghost rule = { λ p rs i. FirstRanked p.ranks.values rs i };

    fn pick(&self, ready: &[Ready]) -> usize {
        first_best(ready, |r, best| self.rank(r) < self.rank(best))
    }
}

// As for the rush layer, but for the field and the rest; an impl over all that hold `Values` would be told both by a trait of its own.
impl Changeable for CounterList {
    type Rest = ();

    ghost keeps = { λ p step. slice_index p.ranks.values step };

    ghost put = { λ p step v. record { ranks = put_value p.ranks step v } };

    ghost rest = { λ _. tt };

    ghost reads = { Prim.search rules };

    ghost others = { Prim.search rules };

    ghost leaves = { Prim.search rules };

    ghost same = { λ p step. Prim.rw (put_same p.ranks step) };

    ghost second = { λ p step v w. Prim.rw (put_second p.ranks step v w) };

    fn set(&mut self, step: u16, value: u16) -> Result<(), Refusal> {
        self.ranks.set(step, value)
    }
}
