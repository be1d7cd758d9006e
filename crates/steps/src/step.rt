// A step of a sheet.
ghost use Rattle.std.specs.Prelude.{◌≡◌};
ghost use Rattle.steps.specs.Numbers.{join_number, JoinDecodes};

use crate::refusal::Refusal;

// What a step waits for: all of its feeders, or exactly one of them.
#[derive(Clone, Copy, PartialEq, Eq, Debug, Default)]
pub enum Join {
    #[default]
    And,
    Or,
}

// A step leads into the step `target`, or nowhere if it is step 0. `fee` is in cents. The target is a number and no `Option`, as
// in the file: all steps but one have a target, and step 0 has `NO_TARGET`.
#[derive(Clone, Copy, PartialEq, Eq, Debug, Default)]
pub struct Step {
    pub target: u16,
    pub join: Join,
    pub minutes: u16,
    pub fee: u32,
    pub closed: bool,
}

// The number by which files and callers name a join; by `match`, as for refusals.
impl From<Join> for u8 {
    ghost from_gives = { λ join number. number ≡ join_number join };

    fn from(join: Join) -> u8 {
        match join {
            Join::And => 1,
            Join::Or => 2,
        }
    }
}

impl TryFrom<u8> for Join {
    type Error = Refusal;

    ghost try_from_gives = { JoinDecodes };

    fn try_from(number: u8) -> Result<Join, Refusal> {
        match number {
            1 => Ok(Join::And),
            2 => Ok(Join::Or),
            _ => Err(Refusal::UnknownJoin),
        }
    }
}
