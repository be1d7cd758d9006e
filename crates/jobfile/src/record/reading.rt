// The reader's calls.
ghost use Rattle.std.specs.Prelude.{◌≡◌, ◌<◌};
ghost use Rattle.steps.specs.Limits.{max_steps};
ghost use Rattle.job_format.specs.Layout.{stage_after, steps_after, step_kind};
ghost use Rattle.jobfile.specs.Kinds.{kind_number};
ghost use Rattle.jobfile.specs.Reading.{bytes_of, kind_of, standing, at_start, told_next, next_answer, FieldsGiven, standing_after};

use super::judging::{first, judge};
use super::{Fault, Kind, MAX_FILE, Placed, Reader, Record};
use job_format::Stage;
use steps::limits::MAX_STEPS;
use steps::refusal::Refusal;

impl<'a> Reader<'a> {
    pub fn new(file: &'a [u8]) -> Reader<'a>
        ensures file { result.file.now ≡ file.now }
        ensures start { standing result ≡ at_start }
    {
        Reader {
            file,
            place: 0,
            stage: Stage::Start,
            steps: 0,
        }
    }

    // The next record, none after the end record, or the fault at which the file stops; asked again, it says the same.
    pub fn next(&mut self) -> Result<Option<Placed<'a>>, Fault>
        ensures file { self.new.file.now ≡ self.old.file.now }
        ensures answer { told_next result ≡ next_answer max_steps self.old.file.now (standing self.old) }
        ensures fields { FieldsGiven result }
        ensures after { standing self.new ≡ standing_after (told_next result) (standing self.old) }
    {
        let file = self.file;
        let place = self.place;
        if file.len() > MAX_FILE {
            return Err(Fault {
                refusal: Refusal::FileTooLong,
                place: 0,
            });
        }
        if place >= file.len() {
            return match self.stage {
                Stage::Finished => Ok(None),
                _ => Err(Fault {
                    refusal: Refusal::NoEndRecord,
                    place,
                }),
            };
        }
        let bytes = first(&file[place..]);
        let kind = match judge(MAX_STEPS, self.stage, self.steps, bytes) {
            Ok(kind) => kind,
            Err(refusal) => return Err(Fault { refusal, place }),
        };
        self.place = place + bytes.len();
        self.stage = stage_after(self.stage, kind);
        self.steps = steps_after(self.steps, kind);
        let record = record_of(kind, bytes);
        Ok(Some(Placed { place, record }))
    }
}

fn stage_after(stage: Stage, kind: Kind) -> Stage
    ensures { result ≡ stage_after stage (kind_number kind) }
{
    match kind {
        Kind::Head => Stage::Body,
        Kind::End => Stage::Finished,
        Kind::Step | Kind::Note => stage,
    }
}

fn steps_after(steps: usize, kind: Kind) -> usize
    requires { kind_number kind ≡ step_kind → steps < max_steps }
    ensures { result ≡ steps_after steps (kind_number kind) }
{
    if kind == Kind::Step { steps + 1 } else { steps }
}

fn record_of<'a>(kind: Kind, bytes: &'a [u8]) -> Record<'a>
    ensures bytes { bytes_of result ≡ bytes.now }
    ensures kind { kind_of result ≡ kind_number kind }
{
    match kind {
        Kind::Head => Record::Head(bytes),
        Kind::Step => Record::Step(bytes),
        Kind::End => Record::End(bytes),
        Kind::Note => Record::Note(bytes),
    }
}
