// Plans of sheets whose ways are enumerated, and timetables of ways that are simulated.
use crate::enumerated::PLANS;
use crate::timetables::TIMETABLES;
use policies::{LongestTail, Policy, SheetOrder};
use sheet::{Draft, Issued};
use std::process::Abort;
use std::test::Fail;
use steps::row::Row;

const BLANK: Row = Row {
    step: 77,
    bench: 77,
    start: 77,
    end: 77,
};

fn sheet_of(rt: &impl Abort, file: &[u8]) -> Issued {
    let mut sheet = Draft::new().issue();
    assert!(rt; sheet.read(file).is_ok());
    sheet
}

// The plan has these rows, in this order, and the rows behind them are kept.
fn check_rows<P: Policy>(
    rt: &impl Abort,
    sheet: &Issued,
    policy: &P,
    expected: &[(u16, u8, u32, u32)],
) -> Result<(), Fail> {
    let mut rows = [BLANK; 13];
    let plan = sheet.plan(policy, &mut rows).ok().ok_or("no plan")?;
    assert_eq!(rt; plan.rows, expected.len());
    for (i, row) in rows.iter().enumerate() {
        match expected.get(i) {
            Some((step, bench, start, end)) => {
                assert_eq!(rt;
                    (row.step, row.bench, row.start, row.end),
                    (*step, *bench, *start, *end)
                );
                if *step == 0 {
                    assert_eq!(rt; plan.finish, *end);
                }
            }
            None => assert!(rt; *row == BLANK),
        }
    }
    Ok(())
}

#[test]
fn simulated(rt: HostRuntime) -> Result<(), Fail> {
    for (file, in_order, longest) in TIMETABLES {
        let sheet = sheet_of(&rt, file);
        check_rows(&rt, &sheet, &SheetOrder, in_order)?;
        check_rows(&rt, &sheet, &LongestTail, longest)?;
    }
    Ok(())
}

// The rows are those of the steps whose bit is 1, one for each.
fn check_members(rt: &impl Abort, rows: &[Row], way: u32) {
    let mut found = 0u32;
    for row in rows {
        assert!(rt; row.step < 32);
        let bit = 1u32 << u32::from(row.step % 32);
        assert_eq!(rt; found & bit, 0);
        found |= bit;
    }
    assert_eq!(rt; found, way);
}

// The plan for a crew has this way and score, or there is none.
fn check_plan(rt: &impl Abort, sheet: &mut Issued, crew: u8, expected: Option<(u32, u32)>) {
    assert!(rt; sheet.crew(crew).is_ok());
    let mut rows = [BLANK; 16];
    let plan = sheet.plan(&LongestTail, &mut rows).map_err(u8::from);
    assert_eq!(rt;
        plan.map(|plan| plan.score),
        expected.map(|(_, score)| score).ok_or(31)
    );
    if let (Ok(plan), Some((way, _))) = (plan, expected) {
        assert!(rt; plan.rows <= 16);
        check_members(rt, &rows[..plan.rows], way);
    }
}

#[test]
fn enumerated(rt: HostRuntime) {
    for (file, plans) in PLANS {
        let mut sheet = sheet_of(&rt, file);
        for (crew, expected) in [1, 2, 3, 16].into_iter().zip(plans) {
            check_plan(&rt, &mut sheet, crew, expected);
        }
    }
}
