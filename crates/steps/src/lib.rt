// What every layer above has in common: a step and its join, the limits of a sheet, the refusals, a ready step as policies
// are told of it, a row of a timetable, and a choice between two.
#![tactic(auto)]

pub mod limits;
pub mod one_of;
pub mod ready;
pub mod refusal;
pub mod row;
pub mod step;
