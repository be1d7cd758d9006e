// The reader, record by record.
use crate::worked::{FILE, NOTE, STEPS, replaced, step, with_notes};
use jobfile::record::{HeadFields, Kind, Placed, Reader};
use std::process::Abort;
use std::test::Fail;

// The fields of its head.
const HEAD: HeadFields = HeadFields {
    edition: 1,
    benches: 2,
};

// The records of the worked file: place, kind, size.
const RECORDS: [(usize, Kind, usize); 9] = [
    (0, Kind::Head, 6),
    (6, Kind::Step, 14),
    (20, Kind::Step, 14),
    (34, Kind::Step, 14),
    (48, Kind::Step, 14),
    (62, Kind::Step, 14),
    (76, Kind::Step, 14),
    (90, Kind::Step, 14),
    (104, Kind::End, 4),
];

// The same with a note behind step 0.
const NOTED: [(usize, Kind, usize); 10] = [
    (0, Kind::Head, 6),
    (6, Kind::Step, 14),
    (20, Kind::Note, 6),
    (26, Kind::Step, 14),
    (40, Kind::Step, 14),
    (54, Kind::Step, 14),
    (68, Kind::Step, 14),
    (82, Kind::Step, 14),
    (96, Kind::Step, 14),
    (110, Kind::End, 4),
];

// What is said at the end of a file: nothing, or the refusal's number and the place.
type Ending = Result<(), (u8, usize)>;

// What is made of the worked file, as in `reading`; then how many records are handed out, and what is said from then on.
const ANSWERS: [(usize, usize, &[u8], usize, Ending); 9] = [
    (0, 0, &[], 9, Ok(())),
    (0, 108, &[], 0, Err((58, 0))),
    (0, 0, &NOTE, 0, Err((54, 0))),
    (50, 108, &[], 4, Err((52, 48))),
    (62, 108, &[], 5, Err((58, 62))),
    (6, 6, &NOTE, 10, Ok(())),
    (56, 58, &[0, 0], 4, Err((57, 48))),
    (108, 108, &[0], 9, Err((52, 108))),
    (108, 108, &NOTE, 9, Err((54, 108))),
];

// How many records are handed out, and what is said from then on.
fn asked(rt: &impl Abort, file: &[u8]) -> Result<(usize, Ending), Fail> {
    let mut reader = Reader::new(file);
    let mut records = 0usize;
    let mut last = None;
    for _ in 0..20 {
        let said = match reader.next() {
            Ok(Some(_)) => None,
            Ok(None) => Some(Ok(())),
            Err(fault) => Some(Err((u8::from(fault.refusal), fault.place))),
        };
        if last.is_some() {
            assert_eq!(rt; said, last);
        }
        if said.is_none() {
            records = records.saturating_add(1);
        }
        last = said;
    }
    Ok((records, last.ok_or("more than 20 records")?))
}

// The records are parts of the file, and their fields are the worked sheet's.
fn handed_out(rt: &impl Abort, file: &[u8], records: &[(usize, Kind, usize)]) -> Result<(), Fail> {
    let mut reader = Reader::new(file);
    let mut numbers = 0..STEPS.len();
    for (place, expected, size) in records {
        let Placed {
            place: found,
            record,
        } = reader.next()?.ok_or("no record")?;
        assert_eq!(rt; (found, record.kind()), (*place, *expected));
        assert_eq!(rt;
            Some(record.bytes()),
            file.get(*place..place.saturating_add(*size))
        );
        assert_eq!(rt;
            record.head(),
            if *expected == Kind::Head {
                Some(HEAD)
            } else {
                None
            }
        );
        assert_eq!(rt;
            record.note(),
            if *expected == Kind::Note {
                file.get(place.saturating_add(4)..place.saturating_add(*size))
            } else {
                None
            }
        );
        assert_eq!(rt;
            record.step(),
            if *expected == Kind::Step {
                numbers.next().and_then(step)
            } else {
                None
            }
        );
    }
    assert!(rt; reader.next()?.is_none());
    assert!(rt; reader.next()?.is_none());
    Ok(())
}

#[test]
fn records(rt: HostRuntime) -> Result<(), Fail> {
    handed_out(&rt, &FILE, &RECORDS)?;
    let noted = replaced(rt.alloc(), 20, 20, &NOTE)?;
    handed_out(&rt, noted.as_slice(), &NOTED)
}

#[test]
fn said_again(rt: HostRuntime) -> Result<(), Fail> {
    for (from, to, new, records, ending) in ANSWERS {
        let file = replaced(rt.alloc(), from, to, new)?;
        assert_eq!(rt;
            asked(&rt, file.as_slice())?,
            (records, ending),
            "{new:?} from {from} to {to}"
        );
    }
    let longer = with_notes(rt.alloc(), 145)?;
    assert_eq!(rt; asked(&rt, longer.as_slice())?, (0, Err((51, 0))));
    Ok(())
}
