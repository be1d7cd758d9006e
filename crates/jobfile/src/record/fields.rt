// The fields of a record.
ghost use Rattle.std.specs.Prelude.{◌≡◌, ◌≤◌, length};
ghost use Rattle.std.specs.Option.{option_map};
ghost use Rattle.job_format.specs.Layout.{step_in};
ghost use Rattle.jobfile.specs.Kinds.{kind_number};
ghost use Rattle.jobfile.specs.Reading.{bytes_of, kind_of, head_of, step_of, note_of};

use super::{HeadFields, Kind, Record};
use byteorder::{ByteOrder, LittleEndian};
use steps::step::{Join, Step};

// The step of a step record's bytes. No `From`: neither type of it is of this crate.
pub(crate) fn step_in(bytes: &[u8]) -> Step
    requires { 14 ≤ length bytes.now }
    ensures { result ≡ step_in bytes.now }
{
    Step {
        target: LittleEndian::read_u16(&bytes[4..]),
        join: Join::try_from(bytes[6]).unwrap_or(Join::And),
        minutes: LittleEndian::read_u16(&bytes[8..]),
        fee: LittleEndian::read_u32(&bytes[10..]),
        closed: bytes[7] == 1,
    }
}

impl<'a> Record<'a> {
    pub fn kind(&self) -> Kind
        ensures { kind_number result ≡ kind_of self.now }
    {
        match self {
            Record::Head(_) => Kind::Head,
            Record::Step(_) => Kind::Step,
            Record::Note(_) => Kind::Note,
            Record::End(_) => Kind::End,
        }
    }

    // Header and body, as they lie in the file.
    pub fn bytes(&self) -> &'a [u8]
        ensures { result.now ≡ bytes_of self.now }
    {
        match *self {
            Record::Head(bytes) => bytes,
            Record::Step(bytes) => bytes,
            Record::Note(bytes) => bytes,
            Record::End(bytes) => bytes,
        }
    }

    // The fields of a head.
    pub fn head(&self) -> Option<HeadFields>
        ensures { result ≡ head_of self.now }
    {
        match *self {
            Record::Head([_, _, _, _, edition, benches, ..]) => Some(HeadFields {
                edition: *edition,
                benches: *benches,
            }),
            _ => None,
        }
    }

    // The step of a step record.
    pub fn step(&self) -> Option<Step>
        ensures { result ≡ step_of self.now }
    {
        match *self {
            Record::Step(bytes) if bytes.len() >= 14 => Some(step_in(bytes)),
            _ => None,
        }
    }

    // The free bytes of a note.
    pub fn note(&self) -> Option<&'a [u8]>
        ensures { option_map (λ x. x.now) result ≡ note_of self.now }
    {
        match *self {
            Record::Note(bytes) => bytes.get(4..),
            _ => None,
        }
    }
}
