ghost use Rattle.std.specs.Prelude.{◌≡◌};
ghost use Rattle.policies.specs.Meanings.{sheet_order};

use crate::Policy;
use steps::ready::Ready;

// The lowest step first.
#[derive(Clone, Copy)]
pub struct SheetOrder;

impl Policy for SheetOrder {
    ghost placing = { λ _. sheet_order };

    ghost rule = { λ _ _ i. i ≡ 0 };

    fn pick(&self, _ready: &[Ready]) -> usize {
        0
    }
}
