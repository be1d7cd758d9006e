// Listings of job files.
use crate::worked::{FILE, replaced};
use listing::{LISTING_BYTES, list_job};
use std::process::Abort;
use std::test::Fail;

// Bytes of the worked file that are replaced, as in `reading`, and the listing.
const LISTINGS: [(usize, usize, &[u8], &str); 4] = [
    (0, 108, &[], "turned down 58 at 0\n"),
    (56, 58, &[0, 0], "turned down 57 at 48\n"),
    (
        6,
        104,
        b"\x0a\x00\x02\x00\xff\xff\x01\x01\x0f\x27\xa0\x86\x01\x00",
        CLOSED,
    ),
    (0, 0, &[], WORKED),
];

const CLOSED: &str =
    "crew 2\nstep 0 target none join AND minutes 9999 fee 100000 cents closed\nsteps 1 open 0 closed 1\nno open way\n";

const WORKED: &str =
    "crew 2\nstep 0 target none join AND minutes 2 fee 0 cents open\nstep 1 target 0 join OR minutes 1 fee 0 cents open\nstep 2 target 0 join AND minutes 4 fee 0 cents open\nstep 3 target 1 join AND minutes 6 fee 0 cents open\nstep 4 target 1 join AND minutes 1 fee 0 cents open\nstep 5 target 4 join AND minutes 3 fee 0 cents open\nstep 6 target 4 join AND minutes 3 fee 0 cents open\nsteps 7 open 7 closed 0\nleast minutes 13 chain 7 fees 0\n";

// The text stands at the front of the buffer, and the bytes behind it are kept.
fn stands(rt: &impl Abort, buffer: &[u8], size: usize, text: &[u8]) {
    assert_eq!(rt; buffer.get(0..size), Some(text));
    assert_eq!(rt; buffer.get(size).copied(), Some(0xaa));
}

#[test]
fn texts(rt: HostRuntime) -> Result<(), Fail> {
    for (from, to, new, text) in LISTINGS {
        let file = replaced(rt.alloc(), from, to, new)?;
        let mut buffer = vec![in rt.alloc(); 0xaau8; LISTING_BYTES]?;
        let Ok(size) = list_job(file.as_slice(), &mut buffer) else {
            return Err(Fail::new("the buffer is refused"));
        };
        stands(&rt, buffer.as_slice(), size, text.as_bytes());
    }
    Ok(())
}

#[test]
fn short_buffers(rt: HostRuntime) -> Result<(), Fail> {
    for size in [0, 8_192, LISTING_BYTES - 1] {
        let mut buffer = vec![in rt.alloc(); 0xaau8; size]?;
        assert_eq!(rt; list_job(&FILE, &mut buffer).map_err(u8::from), Err(41));
        for byte in buffer.as_slice() {
            assert_eq!(rt; *byte, 0xaa);
        }
    }
    Ok(())
}
