// Drafts that are added to, and crews.
use sheet::Draft;
use std::test::Fail;

// Calls of `add` on a draft of steps 0 and 1: target, join, minutes, fee; then the step's number, or the
// refusal's.
const ADDITIONS: [(u16, u8, u16, u32, Result<u16, u8>); 17] = [
    (0, 1, 1, 0, Ok(2)),
    (1, 2, 9_999, 100_000, Ok(2)),
    (2, 1, 1, 0, Err(11)),
    (255, 1, 1, 0, Err(11)),
    (65_535, 1, 1, 0, Err(11)),
    (0, 0, 1, 0, Err(12)),
    (0, 3, 1, 0, Err(12)),
    (0, 255, 1, 0, Err(12)),
    (0, 1, 0, 0, Err(13)),
    (0, 1, 10_000, 0, Err(13)),
    (0, 1, 65_535, 0, Err(13)),
    (0, 1, 1, 100_001, Err(14)),
    (0, 1, 1, 4_294_967_295, Err(14)),
    // several fit
    (2, 0, 0, 100_001, Err(11)),
    (1, 0, 0, 100_001, Err(12)),
    (1, 2, 0, 100_001, Err(13)),
    (1, 2, 9_999, 100_001, Err(14)),
];

// The same on a full draft, where all are refused.
const FULL: [(u16, u8, u16, u32); 6] = [
    (0, 1, 1, 0),
    (256, 1, 1, 0),
    (0, 3, 1, 0),
    (0, 1, 10_000, 0),
    (0, 1, 1, 100_001),
    (256, 0, 0, 100_001),
];

// The benches asked for, the refusal's number if they are refused, and the benches after that.
const CREWS: [(u8, Result<(), u8>, u8); 6] = [
    (16, Ok(()), 16),
    (0, Err(22), 16),
    (17, Err(22), 16),
    (1, Ok(()), 1),
    (17, Err(22), 1),
    (255, Err(22), 1),
];

#[test]
fn additions(rt: HostRuntime) -> Result<(), Fail> {
    for (target, join, minutes, fee, expected) in ADDITIONS {
        let mut draft = Draft::new();
        assert_eq!(rt; draft.add(0, 2, 5, 7).map_err(u8::from), Ok(1));
        let answer = draft.add(target, join, minutes, fee).map_err(u8::from);
        assert_eq!(rt;
            answer,
            expected,
            "target {target} join {join} minutes {minutes} fee {fee}"
        );
        let sheet = draft.issue();
        let steps = sheet.steps();
        let first = steps.get(1).ok_or("no step 1")?;
        assert_eq!(rt; (first.target, first.minutes, first.fee), (0, 5, 7));
        if answer.is_err() {
            assert_eq!(rt; steps.len(), 2);
        } else {
            assert_eq!(rt; steps.len(), 3);
            let step = steps.get(2).ok_or("no step 2")?;
            assert!(rt;
                step.target == target && u8::from(step.join) == join && step.minutes == minutes
            );
            assert!(rt; step.fee == fee && !step.closed);
        }
    }
    Ok(())
}

#[test]
fn full_draft(rt: HostRuntime) {
    let mut draft = Draft::new();
    for number in 1..256u16 {
        assert_eq!(rt;
            draft.add(number - 1, 1, 1, 0).map_err(u8::from),
            Ok(number)
        );
    }
    for (target, join, minutes, fee) in FULL {
        assert_eq!(rt;
            draft.add(target, join, minutes, fee).map_err(u8::from),
            Err(15)
        );
    }
    assert_eq!(rt; draft.issue().steps().len(), 256);
}

#[test]
fn crews(rt: HostRuntime) {
    let mut sheet = Draft::new().issue();
    for (benches, expected, after) in CREWS {
        let answer = sheet.crew(benches).map_err(u8::from);
        assert_eq!(rt;
            (answer, sheet.benches(), sheet.steps().len()),
            (expected, after, 1)
        );
    }
}
