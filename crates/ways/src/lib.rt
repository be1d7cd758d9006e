// The ways of a sheet, measures of them, and their least figures: definitions, and what is proved of them.
#![tactic(auto)]

// What a measure is told of a step.
#[derive(Clone, Copy, PartialEq, Eq, Debug)]
pub struct StepFacts {
    pub number: u16,
    pub minutes: u16,
    pub fee: u32,
}

ghost use Rattle.ways.specs.Least.{LeastNumbers};

// The entry of every step in the table of least figures is the least figure of its open ways.
pub fn least_stands()
    ensures { LeastNumbers }
{}
