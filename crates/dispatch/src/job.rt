// What is to be carried out.
ghost use Rattle.std.specs.Prelude.{◌<◌, ◌≤◌, length};

use paths::Paths;

mod looking;
mod turning;

pub use turning::{Timetable, dispatch};

// The steps of a sheet with their paths, marks of the members of one of its ways, and the benches. That the marks are a way is asked
// by those who need it: such a fact chooses a feeder at each OR step, and no ghost field may hold one that chooses. Marks and ends are
// asked by number, so they lie beside the steps.
#[derive(Drop)]
struct Job<'a> {
    paths: &'a Paths<'a>,
    way: &'a [bool],
    benches: u8,
    ghost marked: { length paths.now.steps.now ≤ length way.now },
    ghost crewed: { 0 < benches },
}
