// The listing of a job file: what it holds, as text, or why it is refused.
#![tactic(auto)]

ghost use Rattle.std.specs.Prelude.{◌≡◌, ◌+◌, ◌≤◌, length, Some};
ghost use Rattle.steps.specs.Limits.{max_steps};
ghost use Rattle.steps.specs.Numbers.{number, told};
ghost use Rattle.steps.specs.Sheet.{sheet_of};
ghost use Rattle.std.specs.Option.{option_map};
ghost use Rattle.buffer.specs.Put.{put};
ghost use Rattle.ways.specs.Least.{least_of};
ghost use Rattle.ways.specs.Measures.{numbers};
ghost use Rattle.sheet.specs.Model.{issued_sheet};
ghost use Rattle.listing.specs.Text.{crew_line, target_text, join_text, state_text, step_line, count_line, closed_count, sheet_lines, least_figures, least_text, turned_down, listing_answer, listing_after};

use buffer::{put_bytes, put_field};
use jobfile::record::Fault;
use least::Entry;
use measures::{Chain, Fees, Measure, Minutes};
use sheet::{Draft, Issued};
use steps::limits::{MAX_STEPS, NO_TARGET};
use steps::refusal::Refusal;
use steps::step::{Join, Step};

// The bytes of a buffer that holds the longest listing.
pub const LISTING_BYTES: usize = 20_480;

// Writes the listing of a job file to the front of the buffer, and answers how many bytes it is.
pub fn list_job(file: &[u8], buffer: &mut [u8]) -> Result<usize, Refusal>
    ensures answer { told result ≡ listing_answer file.now buffer.old }
    ensures after { buffer.new ≡ listing_after file.now buffer.old }
{
    if buffer.len() < LISTING_BYTES {
        return Err(Refusal::TableTooShort);
    }
    let mut sheet = Draft::new().issue();
    match sheet.read(file) {
        Ok(()) => {
            let at = put_sheet(buffer, sheet.steps(), sheet.benches());
            Ok(put_least(buffer, at, least_figures(&sheet)))
        }
        Err(Fault { refusal, place }) => Ok(put_turned_down(buffer, refusal, place)),
    }
}

// The line that says why and where a file is refused; none is longer than 40 bytes.
fn put_turned_down(buffer: &mut [u8], refusal: Refusal, place: usize) -> usize
    requires { 40 ≤ length buffer.old }
    ensures text { buffer.new ≡ put buffer.old 0 (turned_down (number refusal, place)) }
    ensures end { result ≡ length (turned_down (number refusal, place)) }
{
    let at = put_field(buffer, 0, b"turned down ", u8::from(refusal) as u64);
    let at = put_field(buffer, at, b" at ", place as u64);
    put_bytes(buffer, at, b"\n")
}

fn put_sheet(buffer: &mut [u8], steps: &[Step], benches: u8) -> usize
    requires { length (sheet_lines (sheet_of steps.now benches)) ≤ length buffer.old }
    ensures text { buffer.new ≡ put buffer.old 0 (sheet_lines (sheet_of steps.now benches)) }
    ensures end { result ≡ length (sheet_lines (sheet_of steps.now benches)) }
{
    let mut at = put_crew(buffer, benches);
    for (i, step) in steps.iter().enumerate() {
        at = put_step(buffer, at, i, step);
    }
    put_counts(buffer, at, steps.len(), closed_count(steps))
}

// The least minutes, chain and fees of the open ways, if there is one.
fn least_figures(sheet: &Issued) -> Option<(u32, u32, u32)>
    ensures { result ≡ least_figures (issued_sheet sheet.now).steps }
{
    let blank = Entry {
        found: false,
        figure: 0,
    };
    let mut table = [blank; MAX_STEPS];
    let minutes = least_figure(sheet, &Minutes, &mut table)?;
    let chain = least_figure(sheet, &Chain, &mut table)?;
    let fees = least_figure(sheet, &Fees, &mut table)?;
    Some((minutes, chain, fees))
}

fn least_figure<M: Measure>(
    sheet: &Issued,
    measure: &M,
    table: &mut [Entry<M::Figure>],
) -> Option<M::Figure>
    requires { max_steps ≤ length table.old }
    ensures { option_map (M.Measure.number measure.now) result ≡ least_of (numbers (M.Measure.meaning measure.now)) (issued_sheet sheet.now).steps 0 }
{
    sheet.least(measure, table).ok()
}

fn put_least(buffer: &mut [u8], at: usize, figures: Option<(u32, u32, u32)>) -> usize
    requires { at + length (least_text figures) ≤ length buffer.old }
    ensures text { buffer.new ≡ put buffer.old at (least_text figures) }
    ensures end { result ≡ at + length (least_text figures) }
{
    match figures {
        Some((minutes, chain, fees)) => put_figures(buffer, at, minutes, chain, fees),
        None => put_bytes(buffer, at, b"no open way\n"),
    }
}

fn put_figures(buffer: &mut [u8], at: usize, minutes: u32, chain: u32, fees: u32) -> usize
    requires { at + length (least_text (Some (minutes, chain, fees))) ≤ length buffer.old }
    ensures text { buffer.new ≡ put buffer.old at (least_text (Some (minutes, chain, fees))) }
    ensures end { result ≡ at + length (least_text (Some (minutes, chain, fees))) }
{
    let at = put_field(buffer, at, b"least minutes ", minutes as u64);
    let at = put_field(buffer, at, b" chain ", chain as u64);
    let at = put_field(buffer, at, b" fees ", fees as u64);
    put_bytes(buffer, at, b"\n")
}

fn closed_count(steps: &[Step]) -> usize
    ensures value { result ≡ closed_count steps.now }
    ensures most { result ≤ length steps.now }
{
    steps.iter().filter(|step| step.closed).count()
}

fn put_crew(buffer: &mut [u8], benches: u8) -> usize
    requires { length (crew_line benches) ≤ length buffer.old }
    ensures text { buffer.new ≡ put buffer.old 0 (crew_line benches) }
    ensures end { result ≡ length (crew_line benches) }
{
    let at = put_field(buffer, 0, b"crew ", benches as u64);
    put_bytes(buffer, at, b"\n")
}

fn put_counts(buffer: &mut [u8], at: usize, all: usize, closed: usize) -> usize
    requires { (at + length (count_line all closed) ≤ length buffer.old) × (closed ≤ all) }
    ensures text { buffer.new ≡ put buffer.old at (count_line all closed) }
    ensures end { result ≡ at + length (count_line all closed) }
{
    let at = put_field(buffer, at, b"steps ", all as u64);
    let at = put_field(buffer, at, b" open ", (all - closed) as u64);
    let at = put_field(buffer, at, b" closed ", closed as u64);
    put_bytes(buffer, at, b"\n")
}

fn put_step(buffer: &mut [u8], at: usize, index: usize, step: &Step) -> usize
    requires { at + length (step_line index step.now) ≤ length buffer.old }
    ensures text { buffer.new ≡ put buffer.old at (step_line index step.now) }
    ensures end { result ≡ at + length (step_line index step.now) }
{
    let at = put_field(buffer, at, b"step ", index as u64);
    let at = put_target(buffer, at, step.target);
    let at = put_bytes(buffer, at, join_text(step.join));
    let at = put_field(buffer, at, b" minutes ", step.minutes as u64);
    let at = put_field(buffer, at, b" fee ", step.fee as u64);
    let at = put_bytes(buffer, at, state_text(step.closed));
    put_bytes(buffer, at, b"\n")
}

fn put_target(buffer: &mut [u8], at: usize, target: u16) -> usize
    requires { at + length (target_text target) ≤ length buffer.old }
    ensures text { buffer.new ≡ put buffer.old at (target_text target) }
    ensures end { result ≡ at + length (target_text target) }
{
    if target == NO_TARGET {
        put_bytes(buffer, at, b" target none")
    } else {
        put_field(buffer, at, b" target ", target as u64)
    }
}

fn join_text(join: Join) -> &'static [u8]
    ensures { result.now ≡ join_text join }
{
    match join {
        Join::And => b" join AND",
        Join::Or => b" join OR",
    }
}

fn state_text(closed: bool) -> &'static [u8]
    ensures { result.now ≡ state_text closed }
{
    if closed {
        b" cents closed"
    } else {
        b" cents open"
    }
}
