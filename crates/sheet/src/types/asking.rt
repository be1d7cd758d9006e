// The least figure of an issued sheet's open ways.
ghost use Rattle.sheet.specs.Least.{LeastPromise};
ghost use Rattle.sheet.specs.Model.{issued_sheet};

use super::Issued;
use least::{Entry, fill};
use measures::Measure;
use steps::refusal::Refusal;

impl Issued {
    // Answers the least figure of the open ways, and fills the table with the least figure of each step's.
    pub fn least<M: Measure>(
        &self,
        measure: &M,
        table: &mut [Entry<M::Figure>],
    ) -> Result<M::Figure, Refusal>
        ensures { LeastPromise (M.Measure.meaning measure.now) (M.Measure.number measure.now) (issued_sheet self.now).steps table.old table.new result }
    {
        if table.len() < self.steps.len() {
            return Err(Refusal::TableTooShort);
        }
        fill(measure, self.steps(), table);
        table[0].least().ok_or(Refusal::NoOpenWay)
    }
}
