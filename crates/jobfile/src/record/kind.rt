// The kinds of records.
ghost use Rattle.jobfile.specs.Kinds.{KindDecodes};

use steps::refusal::Refusal;

// Each with the number that stands for it in a record.
#[derive(Clone, Copy, PartialEq, Eq, Debug)]
pub enum Kind {
    Head = 1,
    Step = 2,
    End = 3,
    Note = 4,
}

impl TryFrom<u16> for Kind {
    type Error = Refusal;

    ghost try_from_gives = { KindDecodes };

    fn try_from(number: u16) -> Result<Kind, Refusal> {
        match number {
            1 => Ok(Kind::Head),
            2 => Ok(Kind::Step),
            3 => Ok(Kind::End),
            4 => Ok(Kind::Note),
            _ => Err(Refusal::UnknownKind),
        }
    }
}
