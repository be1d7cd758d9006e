// Sheets that are written, and read again.
use crate::worked::{FILE, NOTE, PLACES, replaced, with_256_steps, with_notes};
use sheet::Draft;
use std::process::Abort;
use std::test::Fail;

// A new draft, issued: one bench, step 0 alone.
const NEW: [u8; 24] =
    *b"\x02\x00\x01\x00\x01\x01\x0a\x00\x02\x00\xff\xff\x01\x00\x01\x00\x00\x00\x00\x00\x00\x00\x03\x00";

// Bytes of the worked file that may be others: the place, and what to put there.
const OTHERS: [(usize, &[u8]); 7] = [
    (5, &[16]),
    (12, &[1, 1, 0x0f, 0x27, 0xa0, 0x86, 0x01, 0x00]),
    (24, &[0, 0, 1, 1]),
    (38, &[1, 0, 2, 1, 0x0f, 0x27, 0xa0, 0x86, 0x01, 0x00]),
    (56, &[0, 1, 0, 1, 0, 0]),
    (94, &[5, 0]),
    (97, &[1]),
];

// Reads the file and writes the sheet to the buffer; answers the bytes written, or the refusal's number.
fn rewritten(rt: &impl Abort, file: &[u8], buffer: &mut [u8]) -> Result<usize, u8> {
    let mut sheet = Draft::new().issue();
    assert!(rt; sheet.read(file).is_ok());
    sheet.write(buffer).map_err(u8::from)
}

// Only the front of the buffer is written to, and nothing at all where it is too short.
#[test]
fn buffers(rt: HostRuntime) {
    for length in [0, 1, 107, 108, 109, 120usize] {
        let mut buffer = [0x99u8; 120];
        let answer = rewritten(&rt, &FILE, &mut buffer[0..length]);
        let size = if length < 108 { 0 } else { 108 };
        assert_eq!(rt; answer, if length < 108 { Err(59) } else { Ok(108) });
        for (at, byte) in buffer.iter().enumerate() {
            let expected = if at < size {
                FILE.get(at).copied()
            } else {
                Some(0x99)
            };
            assert_eq!(rt; Some(*byte), expected);
        }
    }
}

// Reads `file` and writes `expected`, which has as many bytes as the buffer.
fn becomes(rt: &impl Abort, file: &[u8], expected: &[u8], buffer: &mut [u8]) {
    assert_eq!(rt; rewritten(rt, file, buffer), Ok(expected.len()));
    assert!(rt; &buffer[0..buffer.len()] == expected, "{file:?}");
}

#[test]
fn round_trips(rt: HostRuntime) -> Result<(), Fail> {
    for (at, new) in OTHERS {
        let file = replaced(rt.alloc(), at, at.saturating_add(new.len()), new)?;
        becomes(&rt, file.as_slice(), file.as_slice(), &mut [0u8; 108]);
    }
    let file = with_256_steps(rt.alloc(), &[])?;
    becomes(&rt, file.as_slice(), file.as_slice(), &mut [0u8; 3594]);
    Ok(())
}

#[test]
fn without_notes(rt: HostRuntime) -> Result<(), Fail> {
    for place in PLACES {
        if place > 0 {
            let file = replaced(rt.alloc(), place, place, &NOTE)?;
            becomes(&rt, file.as_slice(), &FILE, &mut [0u8; 108]);
        }
    }
    let file = with_notes(rt.alloc(), 144)?;
    becomes(&rt, file.as_slice(), &FILE, &mut [0u8; 108]);
    Ok(())
}

#[test]
fn new_draft(rt: HostRuntime) {
    let mut buffer = [0u8; 24];
    let sheet = Draft::new().issue();
    assert_eq!(rt; sheet.write(&mut buffer[0..23]).map_err(u8::from), Err(59));
    assert_eq!(rt; sheet.write(&mut buffer).map_err(u8::from), Ok(24));
    assert!(rt; buffer == NEW);
    let mut other = Draft::new().issue();
    assert!(rt; other.read(&FILE).is_ok() && other.read(&NEW).is_ok());
    assert_eq!(rt; (other.benches(), other.steps().len()), (1, 1));
    let mut again = [0u8; 24];
    assert_eq!(rt; other.write(&mut again).map_err(u8::from), Ok(24));
    assert!(rt; again == NEW);
}
