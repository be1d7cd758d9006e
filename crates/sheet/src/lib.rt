// The sheet: a draft takes steps until it is issued, and an issued sheet is what is read, written and planned.
#![tactic(auto)]

pub mod types;

pub use planning::Plan;
pub use types::{Draft, Issued};
