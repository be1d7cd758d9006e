// The least figure of each step, made from those of its feeders, which are folded into it from the highest number down. `choice`
// makes the same pass, with bounded sums and a record of the feeder that is taken; one text for both would be handed how a step
// begins, settles and is folded, each with its law, and be no plainer.
ghost use Rattle.std.specs.Prelude.{◌≡◌, ◌+◌, ◌<◌, ◌≤◌, true, length, drop};
ghost use Rattle.std.specs.Option.{option_map};
ghost use Rattle.steps.specs.Sheet.{Descending};
ghost use Rattle.ways.specs.Least.{plus_all, lesser};
ghost use Rattle.ways.specs.Measures.{numbers};
ghost use Rattle.ways.specs.Progress.{started, folded, finished};
ghost use Rattle.least.specs.Entries.{shown, entry_for};
ghost use Rattle.least.specs.Progress.{Settled};

use crate::Entry;
use measures::Measure;
use steps::step::{Join, Step};
use ways::StepFacts;

// Begins the entries of all steps.
pub fn begin<M: Measure>(measure: &M, steps: &[Step], table: &mut [Entry<M::Figure>])
    requires { length steps.now ≤ length table.old }
    ensures settled { Settled (M.Measure.meaning measure.now) (M.Measure.number measure.now) steps.now (length steps.now) table.new }
    ensures kept { drop (length steps.now) table.new ≡ drop (length steps.now) table.old }
{
    for (i, step) in steps.iter().enumerate() {
        // by number: of what a slice's `iter_mut` lends, a proof does not know what was written
        table[i] = entry(measure, start(measure, step.join));
    }
}

// Settles step `i`, into which all its feeders are folded, and folds it into its target. The table is the caller's, so it is handed on
// with the measure and the steps; a struct of these two would be made by `fill` alone.
pub fn settle<M: Measure>(measure: &M, steps: &[Step], table: &mut [Entry<M::Figure>], i: usize)
    requires room { length steps.now ≤ length table.old }
    requires few { length steps.now < 65536 }
    requires descending { Descending steps.now }
    requires within { i < length steps.now }
    requires settled { Settled (M.Measure.meaning measure.now) (M.Measure.number measure.now) steps.now (i + 1) table.old }
    ensures settled { Settled (M.Measure.meaning measure.now) (M.Measure.number measure.now) steps.now i table.new }
    ensures kept { drop (length steps.now) table.new ≡ drop (length steps.now) table.old }
{
    let least = finish(measure, i, &steps[i], table[i].least());
    table[i] = entry(measure, least);
    if i > 0 {
        let target = steps[i].target as usize;
        let so_far = table[target].least();
        table[target] = entry(measure, fold(measure, steps[target].join, least, so_far));
    }
}

// The entry of a step that has this least figure, or none.
fn entry<M: Measure>(measure: &M, least: Option<M::Figure>) -> Entry<M::Figure>
    ensures { shown (M.Measure.number measure.now) result ≡ entry_for (M.Measure.meaning measure.now) (option_map (M.Measure.number measure.now) least) }
{
    Entry {
        found: least.is_some(),
        // asked for only where it is wanted, since a measure may have to work it out
        figure: least.unwrap_or_else(|| measure.empty()),
    }
}

// What a step begins with, before its feeders are folded in.
fn start<M: Measure>(measure: &M, join: Join) -> Option<M::Figure>
    ensures { option_map (M.Measure.number measure.now) result ≡ started (numbers (M.Measure.meaning measure.now)) join }
{
    match join {
        Join::And => Some(measure.empty()),
        Join::Or => None,
    }
}

// The least figure of a step into which all its feeders are folded.
fn finish<M: Measure>(
    measure: &M,
    number: usize,
    step: &Step,
    so_far: Option<M::Figure>,
) -> Option<M::Figure>
    requires { number < 65536 }
    ensures { option_map (M.Measure.number measure.now) result ≡ finished (numbers (M.Measure.meaning measure.now)) number step.now (option_map (M.Measure.number measure.now) so_far) }
{
    if step.closed {
        return None;
    }
    let so_far = so_far?;
    let joined = match step.join {
        Join::And => so_far,
        Join::Or => measure.join(so_far, measure.empty()),
    };
    let facts = StepFacts {
        number: number as u16,
        minutes: step.minutes,
        fee: step.fee,
    };
    Some(measure.grow(facts, joined))
}

// A step with one feeder more, the next one in descending order.
fn fold<M: Measure>(
    measure: &M,
    join: Join,
    feeder: Option<M::Figure>,
    so_far: Option<M::Figure>,
) -> Option<M::Figure>
    ensures { option_map (M.Measure.number measure.now) result ≡ folded (numbers (M.Measure.meaning measure.now)) join (option_map (M.Measure.number measure.now) feeder) (option_map (M.Measure.number measure.now) so_far) }
{
    match join {
        Join::And => add(measure, feeder, so_far),
        Join::Or => lesser(measure, feeder, so_far),
    }
}

// All feeders: the next one joined with those of higher number.
fn add<M: Measure>(
    measure: &M,
    feeder: Option<M::Figure>,
    so_far: Option<M::Figure>,
) -> Option<M::Figure>
    ensures { option_map (M.Measure.number measure.now) result ≡ plus_all (numbers (M.Measure.meaning measure.now)) true (option_map (M.Measure.number measure.now) feeder) (option_map (M.Measure.number measure.now) so_far) }
{
    Some(measure.join(feeder?, so_far?))
}

// One feeder: the lesser of the next one and the best of higher number; the next one among equals.
fn lesser<M: Measure>(
    measure: &M,
    feeder: Option<M::Figure>,
    best: Option<M::Figure>,
) -> Option<M::Figure>
    ensures { option_map (M.Measure.number measure.now) result ≡ lesser (numbers (M.Measure.meaning measure.now)) true (option_map (M.Measure.number measure.now) feeder) (option_map (M.Measure.number measure.now) best) }
{
    match (feeder, best) {
        (Some(next), Some(figure)) if !measure.not_above(next, figure) => best,
        (Some(_), _) => feeder,
        (None, _) => best,
    }
}
