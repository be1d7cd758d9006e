// The paths of a sheet's steps: the tail of each, its minutes and those of all that it leads to, and which steps are led into.
#![tactic(auto)]

ghost use Rattle.std.specs.Prelude.{◌≡◌, length};
ghost use Rattle.steps.specs.Limits.{max_steps};
ghost use Rattle.steps.specs.Sheet.{Sized, Descending, Timed};
ghost use Rattle.paths.specs.Tails.{IsTails};
ghost use Rattle.paths.specs.Feeders.{Marked};

use crate::feeders::fed_steps;
use crate::tails::tails_of;
use steps::limits::MAX_STEPS;
use steps::step::Step;

mod feeders;
mod tails;

pub use tails::{fill_tails, tail};

// The steps of a sheet with the tail of each, and with a mark on each that another leads into. The tables stand beside the steps, by
// number: the steps are the sheet's own, and one table of tails and marks would be indexed as two are.
#[derive(Drop)]
pub struct Paths<'a> {
    pub steps: &'a [Step],
    pub tails: [u32; MAX_STEPS],
    pub fed: [bool; MAX_STEPS],
    ghost size: { Sized max_steps steps.now },
    ghost descending: { Descending steps.now },
    ghost timed: { Timed steps.now },
    ghost tailed: { IsTails steps.now tails },
    ghost marked: { Marked steps.now fed },
}

impl<'a> Paths<'a> {
    pub fn new(steps: &'a [Step]) -> Paths<'a>
        requires size { Sized max_steps steps.now }
        requires descending { Descending steps.now }
        requires timed { Timed steps.now }
        ensures { result.steps.now ≡ steps.now }
    {
        Paths {
            steps,
            tails: tails_of(steps),
            fed: fed_steps(steps),
        }
    }
}
