// Files that are accepted, and files that are refused.
use crate::worked::{END, FILE, NOTE, PLACES, note, replaced, step, with_256_steps, with_notes};
use sheet::Draft;
use std::alloc::Global;
use std::process::Abort;
use std::test::Fail;

// What `read` says of a file: nothing, or the refusal's number and the place.
type Judgment = Result<(), (u8, usize)>;

// What is made of the worked file, and what `read` says of it. The bytes from the first number up to the second are
// replaced by the new ones.
type Damage = (usize, usize, &'static [u8], Judgment);

// Records where they may stand, and where they may not.
const ORDER: [Damage; 28] = [
    (0, 108, &[], Err((58, 0))),
    (0, 108, &[2, 0, 1], Err((52, 0))),
    // before the head
    (0, 0, &NOTE, Err((54, 0))),
    (0, 6, &[], Err((54, 0))),
    (0, 104, &[], Err((54, 0))),
    // a second head
    (6, 6, &[2, 0, 1, 0, 1, 2], Err((54, 6))),
    (104, 104, &[2, 0, 1, 0, 1, 2], Err((54, 104))),
    // notes
    (6, 6, &NOTE, Ok(())),
    (104, 104, &NOTE, Ok(())),
    // an end before any step, and before the last step
    (6, 104, &[], Err((54, 6))),
    (6, 104, &NOTE, Err((54, 12))),
    (20, 20, &END, Err((54, 24))),
    // no end
    (104, 108, &[], Err((58, 104))),
    (104, 108, &NOTE, Err((58, 110))),
    // behind the end
    (108, 108, &[0], Err((52, 108))),
    (108, 108, &[0, 0, 3], Err((52, 108))),
    (108, 108, &[2, 0, 4, 0, 0x68], Err((52, 108))),
    (108, 108, &[0, 0, 0, 0], Err((53, 108))),
    (108, 108, &[0, 0, 5, 0], Err((53, 108))),
    (108, 108, &[0, 0, 1, 0], Err((54, 108))),
    (108, 108, &[0, 0, 2, 0], Err((54, 108))),
    (108, 108, &END, Err((54, 108))),
    (108, 108, &[0, 0, 4, 0], Err((54, 108))),
    (108, 108, &NOTE, Err((54, 108))),
    (108, 108, &[2, 0, 1, 0, 1, 2], Err((54, 108))),
    (
        108,
        108,
        &[10, 0, 2, 0, 0, 0, 1, 0, 1, 0, 0, 0, 0, 0],
        Err((54, 108)),
    ),
    (108, 108, &[2, 0, 4, 0, 0x68, 0x69, 0], Err((54, 108))),
    (108, 108, &[0, 0, 3, 0, 0, 0, 0, 0], Err((54, 108))),
];

// Kinds and lengths, and which test comes first where several fit.
const SHAPES: [Damage; 28] = [
    (2, 4, &[0, 0], Err((53, 0))),
    (8, 10, &[0, 0], Err((53, 6))),
    (8, 10, &[5, 0], Err((53, 6))),
    (8, 10, &[2, 1], Err((53, 6))),
    (8, 10, &[255, 255], Err((53, 6))),
    (106, 108, &[5, 0], Err((53, 104))),
    (0, 6, &[1, 0, 1, 0, 1], Err((55, 0))),
    (0, 6, &[3, 0, 1, 0, 1, 2, 0], Err((55, 0))),
    (20, 22, &[9, 0], Err((55, 20))),
    (20, 22, &[11, 0], Err((55, 20))),
    (104, 108, &[1, 0, 3, 0, 0], Err((55, 104))),
    (6, 6, &[0, 0, 4, 0], Err((55, 6))),
    (6, 6, &[1, 0, 4, 0, 0], Ok(())),
    (20, 22, &[10, 1], Err((52, 20))),
    (90, 92, &[14, 0], Err((55, 90))),
    (90, 92, &[15, 0], Err((52, 90))),
    (104, 106, &[1, 0], Err((52, 104))),
    // 52 before 53, 54, 55 and 57
    (6, 10, &[255, 255, 9, 0], Err((52, 6))),
    (0, 108, &[1, 0, 4, 0], Err((52, 0))),
    (104, 108, &[201, 0, 4, 0], Err((52, 104))),
    (
        104,
        108,
        &[10, 0, 2, 0, 255, 255, 9, 9, 0, 0],
        Err((52, 104)),
    ),
    // 53 before 54
    (0, 0, &[0, 0, 9, 0], Err((53, 0))),
    // 54 before 55 and 57
    (0, 0, &[0, 0, 4, 0], Err((54, 0))),
    (6, 6, &[3, 0, 1, 0, 1, 2, 0], Err((54, 6))),
    (6, 6, &[2, 0, 1, 0, 2, 17], Err((54, 6))),
    // 55 before 57
    (0, 6, &[3, 0, 1, 0, 2, 0, 0], Err((55, 0))),
    (
        20,
        34,
        &[9, 0, 2, 0, 255, 255, 9, 9, 0, 0, 0, 0, 0],
        Err((55, 20)),
    ),
    // the first record at fault
    (12, 24, &[2, 0, 2, 0, 0, 0, 0, 0, 10, 0, 9, 0], Err((57, 6))),
];

// Fields at and behind their limits.
const FIELDS: [Damage; 46] = [
    // edition and benches
    (4, 5, &[0], Err((57, 0))),
    (4, 5, &[2], Err((57, 0))),
    (5, 6, &[0], Err((57, 0))),
    (5, 6, &[1], Ok(())),
    (5, 6, &[16], Ok(())),
    (5, 6, &[17], Err((57, 0))),
    (5, 6, &[255], Err((57, 0))),
    // step 0: target, join, closed mark, minutes, fee
    (10, 12, &[0, 0], Err((57, 6))),
    (10, 12, &[0xfe, 0xff], Err((57, 6))),
    (12, 13, &[0], Err((57, 6))),
    (12, 13, &[2], Err((57, 6))),
    (12, 13, &[3], Err((57, 6))),
    (13, 14, &[1], Ok(())),
    (13, 14, &[2], Err((57, 6))),
    (14, 16, &[0, 0], Err((57, 6))),
    (14, 16, &[1, 0], Ok(())),
    (14, 16, &[0x0f, 0x27], Ok(())),
    (14, 16, &[0x10, 0x27], Err((57, 6))),
    (16, 20, &[0xa0, 0x86, 0x01, 0x00], Ok(())),
    (16, 20, &[0xa1, 0x86, 0x01, 0x00], Err((57, 6))),
    // step 1: target
    (24, 26, &[1, 0], Err((57, 20))),
    (24, 26, &[0xff, 0xff], Err((57, 20))),
    // step 3: target, join, closed mark, minutes, fee
    (52, 54, &[2, 0], Ok(())),
    (52, 54, &[3, 0], Err((57, 48))),
    (52, 54, &[4, 0], Err((57, 48))),
    (52, 54, &[1, 1], Err((57, 48))),
    (52, 54, &[0xff, 0xff], Err((57, 48))),
    (54, 55, &[0], Err((57, 48))),
    (54, 55, &[2], Ok(())),
    (54, 55, &[3], Err((57, 48))),
    (55, 56, &[1], Ok(())),
    (55, 56, &[2], Err((57, 48))),
    (55, 56, &[255], Err((57, 48))),
    (56, 58, &[0, 0], Err((57, 48))),
    (56, 58, &[0, 1], Ok(())),
    (56, 58, &[0x0f, 0x27], Ok(())),
    (56, 58, &[0x10, 0x27], Err((57, 48))),
    (56, 58, &[0xff, 0xff], Err((57, 48))),
    (58, 62, &[0xa0, 0x86, 0x01, 0x00], Ok(())),
    (58, 62, &[0xa1, 0x86, 0x01, 0x00], Err((57, 48))),
    (58, 62, &[0, 0, 2, 0], Err((57, 48))),
    (58, 62, &[0, 0, 0, 1], Err((57, 48))),
    // step 6: target, minutes
    (94, 96, &[5, 0], Ok(())),
    (94, 96, &[6, 0], Err((57, 90))),
    (98, 100, &[0, 0], Err((57, 90))),
    (98, 100, &[0x10, 0x27], Err((57, 90))),
];

// What stands behind 256 steps, and what `read` says of it.
const BEHIND_256: [(&[u8], Judgment); 9] = [
    (&[], Ok(())),
    (&NOTE, Ok(())),
    (
        &[10, 0, 2, 0, 0, 0, 1, 0, 1, 0, 0, 0, 0, 0],
        Err((56, 3590)),
    ),
    // 56 before 57
    (
        &[10, 0, 2, 0, 0, 0, 1, 0, 0, 0, 0, 0, 0, 0],
        Err((56, 3590)),
    ),
    (
        &[10, 0, 2, 0, 255, 255, 9, 9, 255, 255, 255, 255, 255, 255],
        Err((56, 3590)),
    ),
    // 55, 54, 53 and 52 before 56
    (&[200, 0, 2, 0], Err((52, 3590))),
    (&[9, 0, 2, 0, 0, 0, 1, 0, 1, 0, 0, 0, 0], Err((55, 3590))),
    (
        &[0, 0, 3, 0, 10, 0, 2, 0, 0, 0, 1, 0, 1, 0, 0, 0, 0, 0],
        Err((54, 3594)),
    ),
    (
        &[10, 0, 5, 0, 0, 0, 1, 0, 1, 0, 0, 0, 0, 0],
        Err((53, 3590)),
    ),
];

// Where a file is refused, the sheet is as it was.
fn judged(rt: &impl Abort, file: &[u8]) -> Judgment {
    let mut draft = Draft::new();
    assert!(rt; draft.add(0, 2, 5, 7).is_ok());
    let mut sheet = draft.issue();
    assert!(rt; sheet.crew(3).is_ok());
    let mut before = [0u8; 38];
    assert!(rt; sheet.write(&mut before).is_ok());
    sheet.read(file).map_err(|fault| {
        let mut after = [0u8; 38];
        assert!(rt; sheet.write(&mut after).is_ok());
        assert!(rt; after == before, "the sheet has changed");
        (u8::from(fault.refusal), fault.place)
    })
}

fn all_judged(rt: &impl Abort, heap: Global, table: &[Damage]) -> Result<(), Fail> {
    for (from, to, new, expected) in table {
        let file = replaced(heap, *from, *to, new)?;
        assert_eq!(rt;
            judged(rt, file.as_slice()),
            *expected,
            "{new:?} from {from} to {to}"
        );
    }
    Ok(())
}

#[test]
fn worked_file(rt: HostRuntime) -> Result<(), Fail> {
    assert_eq!(rt; judged(&rt, &FILE), Ok(()));
    let mut sheet = Draft::new().issue();
    assert!(rt; sheet.read(&FILE).is_ok());
    assert_eq!(rt; sheet.benches(), 2);
    assert_eq!(rt; sheet.steps().len(), 7);
    for (number, found) in sheet.steps().iter().enumerate() {
        assert_eq!(rt; Some(*found), step(number));
    }
    Ok(())
}

// A file that is cut where a record begins has no end record; any other is cut short in a record. Refusals go by number here, as for
// users.
#[test]
fn cuts(rt: HostRuntime) {
    for length in 0..108usize {
        let start = PLACES
            .into_iter()
            .filter(|&place| place <= length)
            .max()
            .unwrap_or(0);
        let number = if start == length { 58 } else { 52 };
        assert_eq!(rt; judged(&rt, &FILE[0..length]), Err((number, start)));
    }
}

#[test]
fn damages(rt: HostRuntime) -> Result<(), Fail> {
    all_judged(&rt, rt.alloc(), &ORDER)?;
    all_judged(&rt, rt.alloc(), &SHAPES)?;
    all_judged(&rt, rt.alloc(), &FIELDS)
}

#[test]
fn many_steps(rt: HostRuntime) -> Result<(), Fail> {
    for (more, expected) in BEHIND_256 {
        let file = with_256_steps(rt.alloc(), more)?;
        assert_eq!(rt; judged(&rt, file.as_slice()), expected, "{more:?}");
    }
    let mut sheet = Draft::new().issue();
    assert!(rt;
        sheet
            .read(with_256_steps(rt.alloc(), &NOTE)?.as_slice())
            .is_ok()
    );
    assert_eq!(rt; sheet.steps().len(), 256);
    Ok(())
}

#[test]
fn note_lengths(rt: HostRuntime) -> Result<(), Fail> {
    let heap = rt.alloc();
    for (length, expected) in [
        (0, Err((55, 20))),
        (1, Ok(())),
        (199, Ok(())),
        (200, Ok(())),
        (201, Err((55, 20))),
        (256, Err((55, 20))),
        (65_400, Err((55, 20))),
    ] {
        let file = replaced(heap, 20, 20, note(heap, length)?.as_slice())?;
        assert_eq!(rt; judged(&rt, file.as_slice()), expected, "length {length}");
    }
    Ok(())
}

// Of 65,536 bytes and one more: with notes, and zeros alone.
#[test]
fn longest_files(rt: HostRuntime) -> Result<(), Fail> {
    let heap = rt.alloc();
    for (last, size, expected) in [(144, 65_536, Ok(())), (145, 65_537, Err((51, 0)))] {
        let file = with_notes(heap, last)?;
        assert_eq!(rt;
            (file.len(), judged(&rt, file.as_slice())),
            (size, expected)
        );
    }
    for (size, expected) in [(65_536, Err((53, 0))), (65_537, Err((51, 0)))] {
        let zeros = vec![in heap; 0u8; size]?;
        assert_eq!(rt; judged(&rt, zeros.as_slice()), expected);
    }
    Ok(())
}
