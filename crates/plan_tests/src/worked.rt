// The worked sheet, with steps closed and retimed, and small drafts.
use policies::{LongestTail, SheetOrder};
use sheet::{Draft, Issued};
use steps::row::Row;

// The score of a sheet, and its finish by longest tail and by sheet order; or the number of the refusal.
type Told = Result<(u32, u32, u32), u8>;

// The minutes of step 2, and whether steps 3 and 5 are closed; the crew; then what is told.
const CASES: [(u16, bool, bool, u8, Told); 8] = [
    (4, false, false, 1, Ok((13, 13, 13))),
    (4, false, false, 2, Ok((21, 9, 10))),
    (4, false, false, 3, Ok((28, 7, 7))),
    (4, true, false, 1, Ok((14, 14, 14))),
    (4, true, true, 1, Err(31)),
    (4, true, true, 16, Err(31)),
    (20, false, false, 2, Ok((51, 22, 22))),
    (20, true, false, 2, Ok((52, 22, 22))),
];

const NO_ROW: Row = Row {
    step: 9,
    bench: 9,
    start: 9,
    end: 9,
};

// The worked sheet's file, with the minutes of step 2 and the closed marks of steps 3 and 5.
fn file(minutes: u16, third: bool, fifth: bool) -> [u8; 108] {
    let mut file =
        *b"\x02\x00\x01\x00\x01\x02\x0a\x00\x02\x00\xff\xff\x01\x00\x02\x00\x00\x00\x00\x00\x0a\x00\x02\x00\x00\x00\x02\x00\x01\x00\x00\x00\x00\x00\x0a\x00\x02\x00\x00\x00\x01\x00\x04\x00\x00\x00\x00\x00\x0a\x00\x02\x00\x01\x00\x01\x00\x06\x00\x00\x00\x00\x00\x0a\x00\x02\x00\x01\x00\x01\x00\x01\x00\x00\x00\x00\x00\x0a\x00\x02\x00\x04\x00\x01\x00\x03\x00\x00\x00\x00\x00\x0a\x00\x02\x00\x04\x00\x01\x00\x03\x00\x00\x00\x00\x00\x00\x00\x03\x00";
    file[42] = (minutes % 256) as u8;
    file[55] = third.into();
    file[83] = fifth.into();
    file
}

fn told(sheet: &Issued) -> Told {
    let mut rows = [NO_ROW; 7];
    let longest = sheet.plan(&LongestTail, &mut rows).map_err(u8::from)?;
    let in_order = sheet.plan(&SheetOrder, &mut rows).map_err(u8::from)?;
    Ok((longest.score, longest.finish, in_order.finish))
}

#[test]
fn worked_plans(rt: HostRuntime) {
    for (minutes, third, fifth, crew, expected) in CASES {
        let mut sheet = Draft::new().issue();
        assert!(rt; sheet.read(&file(minutes, third, fifth)).is_ok());
        assert!(rt; sheet.crew(crew).is_ok());
        assert_eq!(rt; told(&sheet), expected);
    }
}

// Six rows are too few for seven steps, and are kept.
#[test]
fn too_few_rows(rt: HostRuntime) {
    let mut sheet = Draft::new().issue();
    assert!(rt; sheet.read(&file(4, false, false)).is_ok());
    let mut rows = [NO_ROW; 6];
    let plan = sheet.plan(&LongestTail, &mut rows).map_err(u8::from);
    assert_eq!(rt; plan.map(|plan| plan.score), Err(41));
    for row in rows {
        assert!(rt; row == NO_ROW);
    }
}

#[test]
fn small_drafts(rt: HostRuntime) {
    let mut alone = Draft::new().issue();
    assert!(rt; alone.crew(16).is_ok());
    assert_eq!(rt; told(&alone), Ok((16, 1, 1)));
    let mut draft = Draft::new();
    assert!(rt; draft.add(0, 2, 5, 0).is_ok());
    assert_eq!(rt; told(&draft.issue()), Err(31));
}
