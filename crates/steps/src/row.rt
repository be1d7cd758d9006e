// A row of a timetable.

// `step` is worked on at `bench` from the minute `start` up to, not including, the minute `end`.
#[derive(Clone, Copy, PartialEq, Eq, Debug)]
pub struct Row {
    pub step: u16,
    pub bench: u8,
    pub start: u32,
    pub end: u32,
}
