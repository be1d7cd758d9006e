// A draft is begun, added to and issued.
ghost use Rattle.std.specs.Prelude.{◌≡◌};
ghost use Rattle.steps.specs.Numbers.{told};
ghost use Rattle.sheet.specs.Model.{draft_sheet, issued_sheet};
ghost use Rattle.sheet.specs.Calls.{new_sheet, add_answer, add_after};

use super::{Draft, Issued};
use arrayvec::ArrayVec;
use steps::limits::{MAX_FEE, MAX_MINUTES, NO_TARGET};
use steps::refusal::Refusal;
use steps::step::{Join, Step};

impl Draft {
    // Step 0 alone, the hand-over, and one bench.
    pub fn new() -> Draft
        ensures { draft_sheet result ≡ new_sheet }
    {
        let mut steps = ArrayVec::new();
        steps.push(Step {
            target: NO_TARGET,
            join: Join::And,
            minutes: 1,
            fee: 0,
            closed: false,
        });
        Draft { steps, benches: 1 }
    }

    // Puts an open step behind the others, and answers its number. The join comes as its number, which may be refused.
    pub fn add(&mut self, target: u16, join: u8, minutes: u16, fee: u32) -> Result<u16, Refusal>
        ensures answer { told result ≡ add_answer (draft_sheet self.old) target join minutes fee }
        ensures after { draft_sheet self.new ≡ add_after (draft_sheet self.old) target join minutes fee }
    {
        let number = self.steps.len();
        if self.steps.is_full() {
            return Err(Refusal::SheetFull);
        }
        if target as usize >= number {
            return Err(Refusal::NoSuchTarget);
        }
        let join = Join::try_from(join)?;
        if minutes < 1 || minutes > MAX_MINUTES {
            return Err(Refusal::MinutesOutOfRange);
        }
        if fee > MAX_FEE {
            return Err(Refusal::FeeTooHigh);
        }
        self.steps.push(Step {
            target,
            join,
            minutes,
            fee,
            closed: false,
        });
        Ok(number as u16)
    }

    // The same sheet, which takes no more steps.
    pub fn issue(self) -> Issued
        ensures { issued_sheet result ≡ draft_sheet self }
    {
        let Draft { steps, benches } = self;
        Issued { steps, benches }
    }
}
