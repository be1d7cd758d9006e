// The timetable of a way: list scheduling of its steps on the benches, under a policy.
#![tactic(auto)]

mod job;
mod run;

pub use job::{Timetable, dispatch};
