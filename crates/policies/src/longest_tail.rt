ghost use Rattle.policies.specs.Meanings.{longest_tail};
ghost use Rattle.policies.specs.Rules.{FirstLongest};

use crate::Policy;
use crate::places::first_best;
use steps::ready::Ready;

// The longest tail first; among equals the lowest step.
#[derive(Clone, Copy)]
pub struct LongestTail;

impl Policy for LongestTail {
    ghost placing = { λ _. longest_tail };

    ghost rule = { λ _ rs i. FirstLongest rs i };

    fn pick(&self, ready: &[Ready]) -> usize {
        first_best(ready, |r, best| r.tail > best.tail)
    }
}
