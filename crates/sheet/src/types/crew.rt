// The crew of an issued sheet.
ghost use Rattle.std.specs.Prelude.{◌≡◌};
ghost use Rattle.steps.specs.Numbers.{told};
ghost use Rattle.sheet.specs.Model.{issued_sheet};
ghost use Rattle.sheet.specs.Calls.{crew_answer, crew_after};

use super::Issued;
use steps::limits::MAX_BENCHES;
use steps::refusal::Refusal;

impl Issued {
    // Sets the number of benches.
    pub fn crew(&mut self, benches: u8) -> Result<(), Refusal>
        ensures answer { told result ≡ crew_answer benches }
        ensures after { issued_sheet self.new ≡ crew_after (issued_sheet self.old) benches }
    {
        if benches < 1 || benches > MAX_BENCHES {
            return Err(Refusal::BenchesOutOfRange);
        }
        self.benches = benches;
        Ok(())
    }
}
