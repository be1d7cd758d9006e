// A sheet, written as a job file.
ghost use Rattle.std.specs.Prelude.{◌≡◌, ◌≤◌, length};
ghost use Rattle.steps.specs.Limits.{max_steps};
ghost use Rattle.steps.specs.Numbers.{told};
ghost use Rattle.job_format.specs.Encoding.{step_bytes};
ghost use Rattle.steps.specs.Sheet.{sheet_of};
ghost use Rattle.jobfile.specs.Storing.{store_answer, store_after};

use crate::record::{EDITION, HEAD_BODY, Kind, STEP_BODY};
use buffer::put_bytes;
use steps::refusal::Refusal;
use steps::step::Step;

// Head, steps and end, and how many bytes they are; the bytes behind them are kept.
pub fn store(steps: &[Step], benches: u8, buffer: &mut [u8]) -> Result<usize, Refusal>
    requires { length steps.now ≤ max_steps }
    ensures answer { told result ≡ store_answer (sheet_of steps.now benches) buffer.old }
    ensures after { buffer.new ≡ store_after (sheet_of steps.now benches) buffer.old }
{
    if buffer.len() < 10 + 14 * steps.len() {
        return Err(Refusal::BufferTooShort);
    }
    let mut at = put_bytes(
        buffer,
        0,
        &[HEAD_BODY as u8, 0, Kind::Head as u8, 0, EDITION, benches],
    );
    for step in steps {
        at = put_bytes(buffer, at, &step_record(step));
    }
    Ok(put_bytes(buffer, at, &[0, 0, Kind::End as u8, 0]))
}

// The record of a step. No `From`: neither type of it is of this crate.
fn step_record(step: &Step) -> [u8; 14]
    ensures { result ≡ step_bytes step.now }
{
    let target = step.target.to_le_bytes();
    let minutes = step.minutes.to_le_bytes();
    let fee = step.fee.to_le_bytes();
    [
        STEP_BODY as u8,
        0,
        Kind::Step as u8,
        0,
        target[0],
        target[1],
        step.join.into(),
        step.closed.into(),
        minutes[0],
        minutes[1],
        fee[0],
        fee[1],
        fee[2],
        fee[3],
    ]
}
