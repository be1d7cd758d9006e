// What a record is, and where a reader stands.
ghost use Rattle.std.specs.Prelude.{◌≤◌, length};

use job_format::Stage;
use steps::refusal::Refusal;

mod fields;
mod judging;
mod kind;
mod reading;

pub(crate) use fields::step_in;
pub(crate) use judging::{EDITION, HEAD_BODY, STEP_BODY};
pub use kind::Kind;

// The longest job file, in bytes.
pub const MAX_FILE: usize = 65_536;

// A record of a job file: its bytes, header and body, as they lie in the file. Callers tell the kinds apart by matching, so it is an
// enum and no struct of a kind and bytes.
#[derive(Clone, Copy)]
pub enum Record<'a> {
    Head(&'a [u8]),
    Step(&'a [u8]),
    Note(&'a [u8]),
    End(&'a [u8]),
}

// A record, and the place of its first byte in the file.
#[derive(Clone, Copy)]
pub struct Placed<'a> {
    pub place: usize,
    pub record: Record<'a>,
}

// The fields of a head.
#[derive(Clone, Copy, PartialEq, Eq, Debug)]
pub struct HeadFields {
    pub edition: u8,
    pub benches: u8,
}

// Why a file is refused, and the place of the record that is at fault.
#[derive(Clone, Copy, PartialEq, Eq, Debug)]
pub struct Fault {
    pub refusal: Refusal,
    pub place: usize,
}

// Hands out the records of a file, one by one.
#[derive(Drop)]
pub struct Reader<'a> {
    file: &'a [u8],
    place: usize,
    stage: Stage,
    steps: usize,
    ghost within: { place ≤ length file.now },
}
