// What an issued sheet holds.
ghost use Rattle.std.specs.Prelude.{◌≡◌};
ghost use Rattle.steps.specs.Limits.{max_steps};
ghost use Rattle.steps.specs.Sheet.{WellFormed};
ghost use Rattle.sheet.specs.Model.{issued_sheet};

use super::Issued;
use steps::step::Step;

impl Issued {
    pub fn benches(&self) -> u8
        ensures { result ≡ (issued_sheet self.now).benches }
    {
        self.benches
    }

    // The steps, in the order of their numbers. They keep the properties of a sheet.
    pub fn steps(&self) -> &[Step]
        ensures value { result.now ≡ (issued_sheet self.now).steps }
        ensures sound { WellFormed max_steps (issued_sheet self.now) }
    {
        self.steps.as_slice()
    }
}
