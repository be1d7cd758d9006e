// A job file: a sheet as bytes. A reader hands out its records, `load` gives the sheet, and `store` writes one.
#![tactic(auto)]

pub mod contents;
pub mod record;
pub mod storing;
