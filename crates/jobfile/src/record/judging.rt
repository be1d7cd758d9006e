// Whether a record passes, and the first reason why it does not.
ghost use Rattle.std.specs.Prelude.{◌≡◌, ◌≤◌, length, IfOk};
ghost use Rattle.std.specs.Result.{result_err};
ghost use Rattle.job_format.specs.Layout.{body_length, kind, bad_head, bad_target, bad_join, bad_step, misplaced, wrong_length, fault};
ghost use Rattle.job_format.specs.Decoding.{first};
ghost use Rattle.jobfile.specs.Kinds.{kind_number, KindDecodes};

use super::Kind;
use byteorder::{ByteOrder, LittleEndian};
use job_format::Stage;
use steps::limits::{MAX_BENCHES, MAX_FEE, MAX_MINUTES, NO_TARGET};
use steps::refusal::Refusal;
use steps::step::Join;

// The lengths of bodies; a note's is at least 1, and an end has none.
pub(crate) const HEAD_BODY: u16 = 2;

pub(crate) const STEP_BODY: u16 = 10;

const MAX_NOTE: u16 = 200;

// The one edition of the layout.
pub(crate) const EDITION: u8 = 1;

// The length of the body that a record announces.
fn body_length(bytes: &[u8]) -> u16
    requires { 4 ≤ length bytes.now }
    ensures { result ≡ body_length bytes.now }
{
    LittleEndian::read_u16(bytes)
}

fn kind(bytes: &[u8]) -> Result<Kind, Refusal>
    requires { 4 ≤ length bytes.now }
    ensures { KindDecodes (kind bytes.now) result }
{
    Kind::try_from(LittleEndian::read_u16(&bytes[2..]))
}

// The record at the front of `bytes`: as many as it announces, or all that are left.
pub(super) fn first<'a>(bytes: &'a [u8]) -> &'a [u8]
    ensures { result.now ≡ first bytes.now }
{
    if bytes.len() < 4 {
        return bytes;
    }
    let size = 4 + usize::from(body_length(bytes));
    bytes.get(..size).unwrap_or(bytes)
}

fn is_misplaced(stage: Stage, steps: usize, kind: Kind) -> bool
    ensures { result ≡ misplaced stage steps (kind_number kind) }
{
    match stage {
        Stage::Start => kind != Kind::Head,
        Stage::Body => kind == Kind::Head || kind == Kind::End && steps == 0,
        Stage::Finished => true,
    }
}

fn is_wrong_length(kind: Kind, size: u16) -> bool
    ensures { result ≡ wrong_length (kind_number kind) size }
{
    match kind {
        Kind::Head => size != HEAD_BODY,
        Kind::Step => size != STEP_BODY,
        Kind::End => size != 0,
        Kind::Note => size < 1 || size > MAX_NOTE,
    }
}

fn is_bad_head(bytes: &[u8]) -> bool
    requires { 6 ≤ length bytes.now }
    ensures { result ≡ bad_head bytes.now }
{
    bytes[4] != EDITION || bytes[5] < 1 || bytes[5] > MAX_BENCHES
}

fn is_bad_target(number: usize, target: u16) -> bool
    ensures { result ≡ bad_target number target }
{
    if number == 0 {
        target != NO_TARGET
    } else {
        target as usize >= number
    }
}

// The byte is judged here, so it is no `Join` yet.
fn is_bad_join(number: usize, join: u8) -> bool
    ensures { result ≡ bad_join number join }
{
    match Join::try_from(join) {
        Ok(Join::And) => false,
        Ok(Join::Or) => number == 0,
        Err(_) => true,
    }
}

fn is_bad_step(number: usize, bytes: &[u8]) -> bool
    requires { 14 ≤ length bytes.now }
    ensures { result ≡ bad_step number bytes.now }
{
    let minutes = LittleEndian::read_u16(&bytes[8..]);
    is_bad_target(number, LittleEndian::read_u16(&bytes[4..]))
        || is_bad_join(number, bytes[6])
        || bytes[7] > 1
        || minutes < 1
        || minutes > MAX_MINUTES
        || LittleEndian::read_u32(&bytes[10..]) > MAX_FEE
}

// The kind of a record that passes after `steps` steps of at most `limit`, or the first reason that fits it.
pub(super) fn judge(limit: usize, stage: Stage, steps: usize, bytes: &[u8]) -> Result<Kind, Refusal>
    ensures refused { result_err result ≡ fault limit stage steps bytes.now }
    ensures passed { IfOk result (λ k. kind_number k ≡ kind bytes.now) }
{
    if bytes.len() < 4 {
        return Err(Refusal::RecordCutShort);
    }
    let size = body_length(bytes);
    if bytes.len() < 4 + usize::from(size) {
        return Err(Refusal::RecordCutShort);
    }
    let kind = kind(bytes)?;
    if is_misplaced(stage, steps, kind) {
        return Err(Refusal::RecordOutOfPlace);
    }
    if is_wrong_length(kind, size) {
        return Err(Refusal::WrongBodyLength);
    }
    if kind == Kind::Step && steps >= limit {
        return Err(Refusal::TooManySteps);
    }
    let bad = match kind {
        Kind::Head => is_bad_head(bytes),
        Kind::Step => is_bad_step(steps, bytes),
        Kind::End | Kind::Note => false,
    };
    if bad {
        return Err(Refusal::BadField);
    }
    Ok(kind)
}
