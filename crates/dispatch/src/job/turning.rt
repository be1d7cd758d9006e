// One turn after the other: the step that the policy names begins, or the time goes on to the next end.
ghost use Rattle.std.specs.Prelude.{◌≡◌, ◌+◌, ◌*◌, ◌<◌, ◌≤◌, false, length, take, drop, slice_set};
ghost use Rattle.steps.specs.Limits.{max_steps, max_minutes};
ghost use Rattle.ways.specs.Ways.{Way};
ghost use Rattle.schedules.specs.Dispatch.{moment, begun, free, turn, empty_state, final};
ghost use Rattle.schedules.specs.Greedy.{Greedy};
ghost use Rattle.dispatch.specs.Members.{members};
ghost use Rattle.dispatch.specs.Tracking.{ready_by};
ghost use Rattle.dispatch.specs.Promise.{Dispatches};
ghost use Rattle.dispatch.specs.Running.{state, Tracked, chosen, next_row};

use super::Job;
use super::looking::{lowest_free, next_end};
use crate::run::Run;
use arrayvec::ArrayVec;
use paths::Paths;
use policies::Policy;
use steps::limits::MAX_STEPS;
use steps::ready::Ready;
use steps::row::Row;

// What the timetable of a way comes to: when its step 0 ends, and the number of its rows.
#[derive(Clone, Copy, PartialEq, Eq, Debug)]
pub struct Timetable {
    pub finish: u32,
    pub rows: usize,
}

// Writes one row more. `Tracked` is asked here and by the turns: it speaks of the caller's rows too, and beside what is lent for
// writing a struct can hold no fact.
fn begin(run: &mut Run, rows: &mut [Row], row: Row)
    requires room { run.old.count < length rows.old }
    requires within { row.step < max_steps }
    requires fresh { begun row.step (take run.old.count rows.old) ≡ false }
    requires tracked { Tracked run.old rows.old }
    ensures time { run.new.time ≡ run.old.time }
    ensures count { run.new.count ≡ run.old.count + 1 }
    ensures rows { rows.new ≡ slice_set rows.old run.old.count row }
    ensures tracked { Tracked run.new rows.new }
{
    rows[run.count] = row;
    run.count += 1;
    run.ends[row.step as usize] = Some(row.end);
}

impl<'a> Job<'a> {
    // The ready step that the policy names; it is asked only where one is ready.
    fn choose<P: Policy>(
        &self,
        policy: &P,
        run: &Run,
        ready: &mut ArrayVec<Ready, MAX_STEPS>,
    ) -> Option<Ready>
        ensures { result ≡ chosen (P.Policy.placing policy.now) (ready_by self.now.paths.now.steps.now self.now.paths.now.tails self.now.way.now run.now.time run.now.ends) }
    {
        self.list_ready(run, ready);
        if ready.is_empty() {
            return None;
        }
        Some(ready[policy.pick(ready)])
    }

    // The row of the step that begins now, if one does. `rows` are those written so far.
    fn next_row<P: Policy>(
        &self,
        policy: &P,
        run: &Run,
        rows: &[Row],
        ready: &mut ArrayVec<Ready, MAX_STEPS>,
    ) -> Option<Row>
        requires early { run.now.time ≤ max_steps * max_minutes }
        ensures { result ≡ next_row run.now.time (chosen (P.Policy.placing policy.now) (ready_by self.now.paths.now.steps.now self.now.paths.now.tails self.now.way.now run.now.time run.now.ends)) (free self.now.benches (moment run.now.time rows.now)) }
    {
        let bench = lowest_free(rows, self.benches, run.time)?;
        let ready = self.choose(policy, run, ready)?;
        Some(Row {
            step: ready.step,
            bench,
            start: run.time,
            end: run.time + u32::from(ready.minutes),
        })
    }

    // One turn: a step begins, or the time goes on to the next end.
    fn turn<P: Policy>(
        &self,
        policy: &P,
        run: &mut Run,
        rows: &mut [Row],
        ready: &mut ArrayVec<Ready, MAX_STEPS>,
    )
        requires way { Way self.now.paths.now.steps.now (members self.now.way.now) }
        requires room { length self.now.paths.now.steps.now ≤ length rows.old }
        requires count { run.old.count ≤ length rows.old }
        requires greedy { Greedy self.now.benches self.now.paths.now.steps.now (members self.now.way.now) (state run.old rows.old) }
        requires tracked { Tracked run.old rows.old }
        ensures turned { state run.new rows.new ≡ turn self.now.benches self.now.paths.now.steps.now (P.Policy.placing policy.now) (members self.now.way.now) (state run.old rows.old) }
        ensures tracked { Tracked run.new rows.new }
        ensures count { run.new.count ≤ length rows.new }
        ensures more { run.old.count ≤ run.new.count }
        ensures kept { drop run.new.count rows.new ≡ drop run.new.count rows.old }
    {
        match self.next_row(policy, run, &rows[..run.count], ready) {
            Some(row) => begin(run, rows, row),
            None => {
                if let Some(end) = next_end(&rows[..run.count], run.time) {
                    run.time = end;
                }
            }
        }
    }

    // All turns: each step takes at most one to begin, and one to wait for its end.
    fn make_turns<P: Policy>(&self, policy: &P, run: &mut Run, rows: &mut [Row])
        requires way { Way self.now.paths.now.steps.now (members self.now.way.now) }
        requires room { length self.now.paths.now.steps.now ≤ length rows.old }
        requires starts { state run.old rows.old ≡ empty_state }
        requires count { run.old.count ≤ length rows.old }
        requires tracked { Tracked run.old rows.old }
        ensures turned { state run.new rows.new ≡ final self.now.benches self.now.paths.now.steps.now (P.Policy.placing policy.now) (members self.now.way.now) }
        ensures tracked { Tracked run.new rows.new }
        ensures count { run.new.count ≤ length rows.new }
        ensures kept { drop run.new.count rows.new ≡ drop run.new.count rows.old }
    {
        let mut ready = ArrayVec::new();
        for _turns in 0..2 * self.paths.steps.len() {
            self.turn(policy, run, rows, &mut ready);
        }
    }
}

// Makes the timetable of a way under a policy: its rows, in the order in which they begin, in the front of `rows`. `way` marks
// the members of one of the sheet's ways.
pub fn dispatch<P: Policy>(
    paths: &Paths,
    way: &[bool],
    benches: u8,
    policy: &P,
    rows: &mut [Row],
) -> Timetable
    requires marked { length paths.now.steps.now ≤ length way.now }
    requires way { Way paths.now.steps.now (members way.now) }
    requires crewed { 0 < benches }
    requires room { length paths.now.steps.now ≤ length rows.old }
    ensures { Dispatches benches paths.now.steps.now (members way.now) (P.Policy.placing policy.now) rows.old rows.new result }
{
    let job = Job {
        paths,
        way,
        benches,
    };
    let mut run = Run {
        time: 0,
        count: 0,
        ends: [None; MAX_STEPS],
    };
    job.make_turns(policy, &mut run, rows);
    Timetable {
        finish: run.ends[0].unwrap_or(0),
        rows: run.count,
    }
}
