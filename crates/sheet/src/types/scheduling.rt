// The timetable of an issued sheet.
ghost use Rattle.sheet.specs.Model.{issued_sheet};
ghost use Rattle.sheet.specs.Planning.{PlanPromise};

use super::Issued;
use planning::{Plan, make_plan};
use policies::Policy;
use steps::refusal::Refusal;
use steps::row::Row;

impl Issued {
    // Plans the sheet: chooses the way with the least score, hands its steps to the benches as the policy names them, and writes
    // the timetable into the front of `rows`. Whatever the policy, the finish keeps the limit that the contract states.
    pub fn plan<P: Policy>(&self, policy: &P, rows: &mut [Row]) -> Result<Plan, Refusal>
        ensures { PlanPromise (P.Policy.placing policy.now) (issued_sheet self.now) rows.old rows.new result }
    {
        if rows.len() < self.steps.len() {
            return Err(Refusal::TableTooShort);
        }
        let plan = make_plan(self.steps(), self.benches, policy, rows);
        plan.ok_or(Refusal::NoOpenWay)
    }
}
