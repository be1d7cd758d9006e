// The minutes and the chains of all steps at a limit, in one pass from the highest step down. `least` makes the same pass; one
// text for both would be handed how a step begins, settles and is folded, each with its law, and be no plainer.
ghost use Rattle.std.specs.Prelude.{◌≡◌, ◌+◌, ◌<◌, ◌≤◌, true, ◌&&◌, ◌||◌, length, nat_lt};
ghost use Rattle.steps.specs.Sheet.{step};
ghost use Rattle.ways.specs.Least.{plus_all};
ghost use Rattle.ways.specs.Paths.{tail};
ghost use Rattle.ways.specs.Progress.{folded};
ghost use Rattle.ways.specs.Taken.{wins as no_worse};
ghost use Rattle.plans.specs.Leaves.{is_leaf};
ghost use Rattle.plans.specs.Limited.{both};
ghost use Rattle.choice.specs.Entries.{Within, grown, fold_entry, start_entry, Settled};

use crate::leaves::is_leaf;
use paths::Paths;
use plans::Sums;
use steps::limits::MAX_STEPS;
use steps::step::{Join, Step};

// The sums of a step, made from those of its feeders; and the feeder that an OR step takes, if it takes one. Its number is kept in
// 16 bits, as in a step's target: a table of 256 entries is made anew at every limit, and is the half of one with numbers of 64 bits.
#[derive(Clone, Copy)]
pub struct Entry {
    pub sums: Option<Sums>,
    pub feeder: Option<u16>,
}

// Settles all steps.
pub fn settle_all(paths: &Paths, limit: u32) -> [Entry; MAX_STEPS]
    ensures { Settled limit paths.now.steps.now 0 result }
{
    let mut table = [Entry {
        sums: None,
        feeder: None,
    }; MAX_STEPS];
    begin(paths, limit, &mut table);
    // by numbers, since settling a step also writes the entry of its target
    for i in (0..paths.steps.len()).rev() {
        settle(paths, limit, &mut table, i);
    }
    table
}

// Begins the entries of all steps; no entry behind them is read. Not by `from_fn`: that works out all 256 at every limit, however few
// the steps are.
fn begin(paths: &Paths, limit: u32, table: &mut [Entry])
    requires { length paths.now.steps.now ≤ length table.old }
    ensures { Settled limit paths.now.steps.now (length paths.now.steps.now) table.new }
{
    for (i, step) in paths.steps.iter().enumerate() {
        table[i] = start(step.join);
    }
}

// Settles step `i`, into which all its feeders are folded, and folds it into its target.
fn settle(paths: &Paths, limit: u32, table: &mut [Entry], i: usize)
    requires room { length paths.now.steps.now ≤ length table.old }
    requires within { i < length paths.now.steps.now }
    requires settled { Settled limit paths.now.steps.now (i + 1) table.old }
    ensures { Settled limit paths.now.steps.now i table.new }
{
    let steps = paths.steps;
    let closed = closed_at(paths, limit, i);
    let sums = finish(steps[i].minutes, closed, table[i].sums);
    table[i].sums = sums;
    if i > 0 {
        let target = steps[i].target as usize;
        table[target] = fold(steps[target].join, i as u16, sums, table[target]);
    }
}

// Whether step `i` counts as closed at the limit: it is closed, or a leaf of a longer path.
fn closed_at(paths: &Paths, limit: u32, i: usize) -> bool
    requires { i < length paths.now.steps.now }
    ensures { result ≡ ((step paths.now.steps.now i).closed || (is_leaf paths.now.steps.now i && nat_lt limit (tail paths.now.steps.now i))) }
{
    let step = &paths.steps[i];
    step.closed || is_leaf(step, paths.fed[i]) && limit < paths.tails[i]
}

// What a step begins with, before its feeders are folded in.
fn start(join: Join) -> Entry
    ensures { result ≡ start_entry join }
{
    let sums = match join {
        Join::And => Some(Sums { work: 0, long: 0 }),
        Join::Or => None,
    };
    Entry { sums, feeder: None }
}

// The sums of a step into which all its feeders are folded. That sums are within their bound is asked of the result, here and below,
// so that no addition overflows; no type of an argument could hold it.
fn finish(minutes: u16, closed: bool, so_far: Option<Sums>) -> Option<Sums>
    requires { Within (grown closed minutes so_far) }
    ensures { result ≡ grown closed minutes so_far }
{
    if closed {
        return None;
    }
    let sums = so_far?;
    Some(Sums {
        work: sums.work + u32::from(minutes),
        long: sums.long + u32::from(minutes),
    })
}

// A step with one feeder more, the next one in descending order.
fn fold(join: Join, number: u16, feeder: Option<Sums>, so_far: Entry) -> Entry
    requires { Within (folded both join feeder so_far.sums) }
    ensures { result ≡ fold_entry join number feeder so_far }
{
    match join {
        Join::And => Entry {
            sums: add(feeder, so_far.sums),
            ..so_far
        },
        Join::Or if wins(feeder, so_far.sums) => Entry {
            sums: feeder,
            feeder: Some(number),
        },
        Join::Or => so_far,
    }
}

// All feeders: the next one with those of higher number.
fn add(feeder: Option<Sums>, so_far: Option<Sums>) -> Option<Sums>
    requires { Within (plus_all both true feeder so_far) }
    ensures { result ≡ plus_all both true feeder so_far }
{
    let feeder = feeder?;
    let so_far = so_far?;
    Some(Sums {
        work: feeder.work + so_far.work,
        long: feeder.long.max(so_far.long),
    })
}

// One feeder: whether the next one has no more minutes than the best of higher number.
fn wins(feeder: Option<Sums>, best: Option<Sums>) -> bool
    ensures { result ≡ no_worse both true feeder best }
{
    match (feeder, best) {
        (Some(feeder), Some(best)) => feeder.work <= best.work,
        (Some(_), None) => true,
        (None, _) => false,
    }
}
