// A whole file, read record by record.
ghost use Rattle.std.specs.Prelude.{◌≡◌, ◌<◌};
ghost use Rattle.steps.specs.Limits.{max_steps};
ghost use Rattle.job_format.specs.Decoding.{benches_after, step_list_after, decode};
ghost use Rattle.jobfile.specs.Reading.{bytes_of};
ghost use Rattle.jobfile.specs.Loading.{sheet_in, told_load, Passed, empty_sheet};

use super::Contents;
use crate::record::{Fault, Reader, Record, step_in};
use steps::limits::MAX_STEPS;
use steps::step::Step;

impl Contents {
    fn new() -> Contents
        ensures { sheet_in result ≡ empty_sheet }
    {
        Contents {
            benches: 0,
            count: 0,
            steps: [Step::default(); MAX_STEPS],
        }
    }

    // Takes in a record that passed: the benches of a head, one step more, or nothing.
    fn take_in(&mut self, record: Record)
        requires { Passed self.old.count «record» }
        ensures benches { (sheet_in self.new).benches ≡ benches_after (sheet_in self.old).benches (bytes_of «record».entry) }
        ensures steps { (sheet_in self.new).steps ≡ step_list_after (sheet_in self.old).steps (bytes_of «record».entry) }
    {
        match record {
            Record::Head(bytes) => self.benches = bytes[5],
            Record::Step(bytes) => {
                let at = self.count;
                self.steps[at] = step_in(bytes);
                self.count = at + 1;
            }
            Record::Note(_) | Record::End(_) => {}
        }
    }
}

// The sheet of a job file, or where and why it is refused.
pub fn load(file: &[u8]) -> Result<Contents, Fault>
    ensures { told_load result ≡ decode max_steps file.now }
{
    let mut reader = Reader::new(file);
    let mut contents = Contents::new();
    while let Some(placed) = reader.next()? {
        contents.take_in(placed.record);
    }
    Ok(contents)
}
