// Policies: which of the ready steps begins next.
#![tactic(auto)]

ghost use Rattle.std.specs.Prelude.{◌≡◌, ℕ, ◌<◌, true, List, length};
ghost use Rattle.steps.specs.declared.ready.Ready.{Ready};
ghost use Rattle.steps.specs.Placing.{Placing, rising};

use steps::ready::Ready;

mod changing;
mod counter_list;
mod longest_tail;
mod one_of;
mod places;
mod rush_layer;
mod sheet_order;
mod values;

pub use changing::{Changeable, clear};
pub use counter_list::CounterList;
pub use longest_tail::LongestTail;
pub use rush_layer::RushLayer;
pub use sheet_order::SheetOrder;
pub use steps::one_of::OneOf;
pub use values::KEPT_VALUES;

// A policy names a place, counted from 0, in a list of ready steps, and changes nothing by that. It means the place that it
// gives each list; the laws come with the meaning: the place is inside any list with entries, and it is 0 in the empty list
// and wherever the step numbers do not rise.
pub trait Policy {
    ghost placing: { Self → Placing };

    // what the place is, in words of the entries, in a list with entries whose step numbers rise
    ghost rule: { Self → List Ready → ℕ → Type 0 };

    fn pick(&self, ready: &[Ready]) -> usize
        ensures place { result ≡ (placing self.now).place ready.now }
        ensures rule { rising ready.now ≡ true → 0 < length ready.now → rule self.now ready.now result };
}
