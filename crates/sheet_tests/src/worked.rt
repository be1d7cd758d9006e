// The worked sheet as a job file, and files made from it.
use std::alloc::Global;
use std::test::Fail;
use steps::step::{Join, Step};

// Its 108 bytes.
pub const FILE: [u8; 108] =
    *b"\x02\x00\x01\x00\x01\x02\x0a\x00\x02\x00\xff\xff\x01\x00\x02\x00\x00\x00\x00\x00\x0a\x00\x02\x00\x00\x00\x02\x00\x01\x00\x00\x00\x00\x00\x0a\x00\x02\x00\x00\x00\x01\x00\x04\x00\x00\x00\x00\x00\x0a\x00\x02\x00\x01\x00\x01\x00\x06\x00\x00\x00\x00\x00\x0a\x00\x02\x00\x01\x00\x01\x00\x01\x00\x00\x00\x00\x00\x0a\x00\x02\x00\x04\x00\x01\x00\x03\x00\x00\x00\x00\x00\x0a\x00\x02\x00\x04\x00\x01\x00\x03\x00\x00\x00\x00\x00\x00\x00\x03\x00";

// The places of its records: the head, seven steps, the end.
pub const PLACES: [usize; 9] = [0, 6, 20, 34, 48, 62, 76, 90, 104];

// Its steps: target, join, minutes. All are open, and free of charge.
pub const STEPS: [(u16, Join, u16); 7] = [
    (65_535, Join::And, 2),
    (0, Join::Or, 1),
    (0, Join::And, 4),
    (1, Join::And, 6),
    (1, Join::And, 1),
    (4, Join::And, 3),
    (4, Join::And, 3),
];

pub const NOTE: [u8; 6] = [2, 0, 4, 0, 0x68, 0x69];

pub const END: [u8; 4] = [0, 0, 3, 0];

pub fn step(number: usize) -> Option<Step> {
    let (target, join, minutes) = *STEPS.get(number)?;
    Some(Step {
        target,
        join,
        minutes,
        fee: 0,
        closed: false,
    })
}

// The worked file with `new` in place of its bytes from `from` up to `to`.
pub fn replaced(heap: Global, from: usize, to: usize, new: &[u8]) -> Result<Vec<u8>, Fail> {
    let mut file = Vec::new(heap);
    file.extend_from_slice(FILE.get(0..from).ok_or("no such byte")?)?;
    file.extend_from_slice(new)?;
    file.extend_from_slice(FILE.get(to..FILE.len()).ok_or("no such byte")?)?;
    Ok(file)
}

// A note record with a body of `length` bytes.
pub fn note(heap: Global, length: u16) -> Result<Vec<u8>, Fail> {
    let mut record = Vec::new(heap);
    record.extend_from_slice(&length.to_le_bytes())?;
    record.extend_from_slice(&[4, 0])?;
    for _ in 0..length {
        record.push(0xff)?;
    }
    Ok(record)
}

// The worked file with 320 notes of 200 bytes and one of `last` bytes before its end record.
pub fn with_notes(heap: Global, last: u16) -> Result<Vec<u8>, Fail> {
    let mut notes = Vec::new(heap);
    let longest = note(heap, 200)?;
    for _ in 0..320 {
        notes.extend_from_slice(longest.as_slice())?;
    }
    notes.extend_from_slice(note(heap, last)?.as_slice())?;
    replaced(heap, 104, 104, notes.as_slice())
}

// A file of 256 steps, each of which leads into the one before it, and `more` behind the steps.
pub fn with_256_steps(heap: Global, more: &[u8]) -> Result<Vec<u8>, Fail> {
    let mut file = Vec::new(heap);
    file.extend_from_slice(
        b"\x02\x00\x01\x00\x01\x02\x0a\x00\x02\x00\xff\xff\x01\x00\x01\x00\x00\x00\x00\x00",
    )?;
    for target in 0..255u8 {
        file.extend_from_slice(&[10, 0, 2, 0, target, 0, 1, 0, 1, 0, 0, 0, 0, 0])?;
    }
    file.extend_from_slice(more)?;
    file.extend_from_slice(&END)?;
    Ok(file)
}
