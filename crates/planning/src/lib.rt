// A plan: the planned way of a sheet's steps, and its timetable under a policy.
#![tactic(auto)]

ghost use Rattle.std.specs.Prelude.{◌≡◌, ◌≤◌, length};
ghost use Rattle.steps.specs.Limits.{max_steps};
ghost use Rattle.steps.specs.Sheet.{sheet_of, WellFormed};
ghost use Rattle.planning.specs.Planning.{plan_of, rows_of, written};

use choice::{members, planned};
use dispatch::dispatch;
use paths::Paths;
use policies::Policy;
use steps::row::Row;
use steps::step::Step;

// The score of the planned way, when its timetable ends, and how many rows it has.
#[derive(Clone, Copy, PartialEq, Eq, Debug)]
pub struct Plan {
    pub score: u32,
    pub finish: u32,
    pub rows: usize,
}

// Plans the steps of a sheet and writes the timetable into the front of `rows`. Where no way is open there is no plan, and
// nothing is written.
pub fn make_plan<P: Policy>(
    steps: &[Step],
    benches: u8,
    policy: &P,
    rows: &mut [Row],
) -> Option<Plan>
    requires sheet { WellFormed max_steps (sheet_of steps.now benches) }
    requires room { length steps.now ≤ length rows.old }
    ensures answer { result ≡ plan_of (P.Policy.placing policy.now) benches steps.now }
    ensures rows { rows.new ≡ written (rows_of (P.Policy.placing policy.now) benches steps.now) rows.old }
{
    let paths = Paths::new(steps);
    let best = planned(&paths, benches)?;
    let way = members(&paths, best.limit);
    let made = dispatch(&paths, &way, benches, policy, rows);
    Some(Plan {
        score: best.score,
        finish: made.finish,
        rows: made.rows,
    })
}
