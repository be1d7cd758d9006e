// The two types of sheet. Their calls stand in the modules below.
ghost use Rattle.steps.specs.Limits.{max_steps};
ghost use Rattle.steps.specs.Sheet.{sheet_of, WellFormed};

use arrayvec::ArrayVec;
use steps::limits::MAX_STEPS;
use steps::step::Step;

mod asking;
mod crew;
mod drafting;
mod files;
mod scheduling;
mod viewing;

// A sheet that still takes steps.
#[derive(Drop)]
pub struct Draft {
    steps: ArrayVec<Step, MAX_STEPS>,
    benches: u8,
    ghost sound: { WellFormed max_steps (sheet_of steps.items benches) },
}

// A sheet that takes no more steps. What a sheet may be asked to do is told by its type, so there are two of the same shape.
#[derive(Drop)]
pub struct Issued {
    steps: ArrayVec<Step, MAX_STEPS>,
    benches: u8,
    ghost sound: { WellFormed max_steps (sheet_of steps.items benches) },
}
