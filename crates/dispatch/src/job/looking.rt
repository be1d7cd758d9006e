// What is ready, what is free, and what ends next.
ghost use Rattle.std.specs.Prelude.{◌≡◌, ℕ, suc, ◌<◌, false, not, is_some, ◌&&◌, min, map, length, drop, nat_lt, slice_index_or};
ghost use Rattle.std.specs.List.{filter, find, range_with_len, reduce};
ghost use Rattle.schedules.specs.Dispatch.{busy, fed};
ghost use Rattle.dispatch.specs.Members.{members};
ghost use Rattle.dispatch.specs.Tracking.{passed, done_by, ready_by};

use super::Job;
use crate::run::Run;
use arrayvec::ArrayVec;
use steps::limits::MAX_STEPS;
use steps::ready::Ready;
use steps::row::Row;

// Whether a step is on the way and not done.
fn is_pending(on_way: bool, end: Option<u32>, time: u32) -> bool
    ensures { result ≡ (on_way && not (passed time end)) }
{
    on_way && end.is_none_or(|end| end > time)
}

// Whether a step is on the way, has not begun and need not wait.
fn may_begin(on_way: bool, end: Option<u32>, waits: bool) -> bool
    ensures { result ≡ (on_way && not (is_some end) && not waits) }
{
    on_way && end.is_none() && !waits
}

impl<'a> Job<'a> {
    // Marks the steps that wait for a feeder on the way which has not ended.
    fn waiting(&self, run: &Run) -> [bool; MAX_STEPS]
        ensures { (i : ℕ) → i < length self.now.paths.now.steps.now → slice_index_or result i false ≡ not (fed (members self.now.way.now) (done_by run.now.time run.now.ends) i (suc i) (drop (suc i) self.now.paths.now.steps.now)) }
    {
        let mut waiting = [false; MAX_STEPS];
        // by numbers from 1 on, since step 0 leads nowhere, and a step's mark and end are asked by its number; an iterator over
        // the steps from there on would count one less, and be no plainer
        for k in (1..self.paths.steps.len()).rev() {
            if is_pending(self.way[k], run.ends[k], run.time) {
                waiting[self.paths.steps[k].target as usize] = true;
            }
        }
        waiting
    }

    // Lists the steps that are ready, ascending, in place of what the list held. It is lent, since a new one would be made whole,
    // 256 places, at every turn.
    pub(super) fn list_ready(&self, run: &Run, ready: &mut ArrayVec<Ready, MAX_STEPS>)
        ensures { ready.new.items ≡ ready_by self.now.paths.now.steps.now self.now.paths.now.tails self.now.way.now run.now.time run.now.ends }
    {
        let waiting = self.waiting(run);
        ready.clear();
        for (i, step) in self.paths.steps.iter().enumerate() {
            if may_begin(self.way[i], run.ends[i], waiting[i]) {
                ready.push(Ready {
                    step: i as u16,
                    minutes: step.minutes,
                    tail: self.paths.tails[i],
                });
            }
        }
    }
}

fn is_busy(rows: &[Row], bench: u8, time: u32) -> bool
    ensures { result ≡ busy time bench rows.now }
{
    rows.iter().any(|row| row.bench == bench && row.end > time)
}

// The lowest bench on which nothing runs. The clauses of this and of `next_end` say it by the library's words, which a chain is
// proved by; `next_row` and `turn`, which ask them, say it by the dispatch rule's.
pub(super) fn lowest_free(rows: &[Row], benches: u8, time: u32) -> Option<u8>
    ensures { result ≡ find (λ b. not (busy time b rows.now)) (range_with_len 0 benches) }
{
    (0..benches).find(|&bench| !is_busy(rows, bench, time))
}

// The least of the ends that are later.
pub(super) fn next_end(rows: &[Row], time: u32) -> Option<u32>
    ensures { result ≡ reduce min (map (λ r. r.end) (filter (λ r. nat_lt time r.end) rows.now)) }
{
    rows.iter()
        .filter(|row| row.end > time)
        .map(|row| row.end)
        .min()
}
