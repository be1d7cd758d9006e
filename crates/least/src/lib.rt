// The least figures of a sheet's steps, filled into a table in one pass from the highest step down.
#![tactic(auto)]

ghost use Rattle.std.specs.Prelude.{◌≡◌, ◌<◌, ◌≤◌, length};
ghost use Rattle.steps.specs.Sheet.{Descending};
ghost use Rattle.least.specs.Entries.{least_figure, Filled};

use crate::settling::{begin, settle};
use measures::Measure;
use steps::step::Step;

mod settling;

// The least figure of a step's open ways. A step that has none holds the empty figure, which callers may read: so it is
// promised in docs/RULES.md, and no `Option` takes the place of the two fields.
#[derive(Clone, Copy)]
pub struct Entry<F> {
    pub found: bool,
    pub figure: F,
}

impl<F: Copy> Entry<F> {
    // The least figure, where the step has an open way.
    pub fn least(self) -> Option<F>
        ensures { result ≡ least_figure self }
    {
        self.found.then_some(self.figure)
    }
}

// Fills the entries of all steps with the least figures of their open ways; the entries behind them are kept.
pub fn fill<M: Measure>(measure: &M, steps: &[Step], table: &mut [Entry<M::Figure>])
    requires room { length steps.now ≤ length table.old }
    requires few { length steps.now < 65536 }
    requires descending { Descending steps.now }
    ensures { Filled (M.Measure.meaning measure.now) (M.Measure.number measure.now) steps.now table.old table.new }
{
    begin(measure, steps, table);
    // by number, since settling a step also writes the entry of its target, which has a lower one
    for i in (0..steps.len()).rev() {
        settle(measure, steps, table, i);
    }
}
