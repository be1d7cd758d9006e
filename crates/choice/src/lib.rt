// The choice of the planned way: the limits of a sheet, the way taken at each, and the best of these ways for a crew.
#![tactic(auto)]

ghost use Rattle.std.specs.Prelude.{◌≡◌, ℕ, ◌<◌, ◌≤◌, false, length, slice_index_or};
ghost use Rattle.arrayvec.specs.ArrayVec.{array_vec_len};
ghost use Rattle.steps.specs.Limits.{max_benches, max_steps};
ghost use Rattle.steps.specs.Sheet.{step};
ghost use Rattle.plans.specs.Limited.{at_limit, taken_at};
ghost use Rattle.plans.specs.Limits.{limits as limits_of};
ghost use Rattle.plans.specs.Plan.{consider as better_plan, planned as plan_of};
ghost use Rattle.choice.specs.Entries.{Within, along};

use crate::inserting::insert;
use crate::leaves::sets_limit;
use crate::settling::{Entry, settle_all};
use arrayvec::ArrayVec;
use paths::Paths;
use plans::{Plan, Sums};
use steps::limits::MAX_STEPS;
use steps::step::{Join, Step};

mod inserting;
mod leaves;
mod settling;

// The different paths of the leaves that are not closed, ascending.
pub fn limits(paths: &Paths) -> ArrayVec<u32, MAX_STEPS>
    ensures listed { result.items ≡ limits_of paths.now.steps.now }
    ensures few { array_vec_len result ≤ length paths.now.steps.now }
{
    let mut limits = ArrayVec::new();
    for (i, step) in paths.steps.iter().enumerate().rev() {
        if sets_limit(step, paths.fed[i]) {
            insert(&mut limits, paths.tails[i]);
        }
    }
    limits
}

// The minutes and the chain of the way taken at a limit, if one is.
pub fn at_limit(paths: &Paths, limit: u32) -> Option<Sums>
    ensures { result ≡ at_limit limit paths.now.steps.now }
{
    settle_all(paths, limit)[0].sums
}

// The least score among the ways taken at the limits, with its limit; of equal ones that of the smallest limit.
pub fn planned(paths: &Paths, benches: u8) -> Option<Plan>
    requires some { 1 ≤ benches }
    requires few { benches ≤ max_benches }
    ensures { result ≡ plan_of benches paths.now.steps.now }
{
    let limits = limits(paths);
    let mut best = None;
    for &limit in limits.as_slice() {
        let sums = at_limit(paths, limit);
        best = consider(benches, limit, sums, best);
    }
    best
}

// Marks the members of the way taken at a limit.
pub fn members(paths: &Paths, limit: u32) -> [bool; MAX_STEPS]
    ensures { (k : ℕ) → slice_index_or result k false ≡ taken_at limit paths.now.steps.now k }
{
    let steps = paths.steps;
    let table = settle_all(paths, limit);
    let mut way = [false; MAX_STEPS];
    way[0] = true;
    // by numbers, since each mark is made from those before it
    for k in 1..steps.len() {
        way[k] = comes_along(steps, &table, &way, k);
    }
    way
}

// The better of the best plan so far and that of a limit; the former if their scores tie. That the sums are within their bound is
// what `at_limit` gives; their type is not only for such.
fn consider(benches: u8, limit: u32, sums: Option<Sums>, best: Option<Plan>) -> Option<Plan>
    requires some { 1 ≤ benches }
    requires few { benches ≤ max_benches }
    requires within { Within sums }
    ensures { result ≡ better_plan benches limit sums best }
{
    let Some(sums) = sums else {
        return best;
    };
    let score = sums.work + u32::from(benches - 1) * sums.long;
    match best {
        Some(plan) if plan.score <= score => best,
        _ => Some(Plan { limit, score }),
    }
}

// Whether step `k` is on the way, where those of lower number are marked.
fn comes_along(steps: &[Step], table: &[Entry], way: &[bool], k: usize) -> bool
    requires within { k < length steps.now }
    requires few { length steps.now ≤ max_steps }
    requires low { (step steps.now k).target < k }
    requires table { length steps.now ≤ length table.now }
    requires way { length steps.now ≤ length way.now }
    ensures { result ≡ along steps.now table.now way.now k }
{
    let target = steps[k].target as usize;
    way[target]
        && match steps[target].join {
            Join::And => true,
            Join::Or => table[target].feeder == Some(k as u16),
        }
}
