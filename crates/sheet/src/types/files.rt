// An issued sheet is filled from a job file, and written as one.
ghost use Rattle.std.specs.Prelude.{◌≡◌};
ghost use Rattle.steps.specs.Limits.{max_steps};
ghost use Rattle.steps.specs.Numbers.{told};
ghost use Rattle.job_format.specs.Decoding.{decode};
ghost use Rattle.jobfile.specs.Storing.{store_answer, store_after};
ghost use Rattle.sheet.specs.Model.{issued_sheet};
ghost use Rattle.sheet.specs.Calls.{told_read, read_answer, read_after, Faithful, Readable};

use super::Issued;
use jobfile::contents::{Contents, load};
use jobfile::record::Fault;
use jobfile::storing::store;
use steps::refusal::Refusal;

impl Issued {
    // Puts the file's benches and steps in place of all that the sheet held; notes are dropped.
    pub fn read(&mut self, file: &[u8]) -> Result<(), Fault>
        ensures answer { told_read result ≡ read_answer (decode max_steps file.now) }
        ensures after { issued_sheet self.new ≡ read_after (decode max_steps file.now) (issued_sheet self.old) }
        ensures faithful { Faithful result (issued_sheet self.new) file.now }
    {
        let Contents {
            benches,
            count,
            steps,
        } = load(file)?;
        self.steps.clear();
        let _ = self.steps.try_extend_from_slice(&steps[..count]);
        self.benches = benches;
        Ok(())
    }

    // Writes the sheet as a job file to the front of the buffer, and answers how many bytes that is.
    pub fn write(&self, buffer: &mut [u8]) -> Result<usize, Refusal>
        ensures answer { told result ≡ store_answer (issued_sheet self.now) buffer.old }
        ensures after { buffer.new ≡ store_after (issued_sheet self.now) buffer.old }
        ensures readable { Readable result (issued_sheet self.now) buffer.new }
    {
        store(self.steps(), self.benches, buffer)
    }
}
