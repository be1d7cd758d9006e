// The largest sheets: 256 steps of 9,999 minutes, in a star, in a chain and in a comb, with 16 benches.
use policies::LongestTail;
use sheet::Draft;
use std::test::Fail;
use steps::row::Row;

const NO_ROW: Row = Row {
    step: 0,
    bench: 0,
    start: 0,
    end: 0,
};

#[derive(Clone, Copy)]
enum Shape {
    Star,
    Chain,
    Comb,
}

impl Shape {
    // The target of step i: 0 in the star, the step before it in the chain, and in the comb every other step hangs on the spine.
    fn target(self, i: u16) -> u16 {
        match self {
            Shape::Star => 0,
            Shape::Chain => i.saturating_sub(1),
            Shape::Comb => i.saturating_sub(2 - i % 2),
        }
    }
}

// Score and finish of each shape; step 0 has 1 minute.
#[test]
fn largest(rt: HostRuntime) -> Result<(), Fail> {
    // the star: 16 rounds of 16 steps, one short, and step 0; the chain: one after the other; the comb: its spine is 128 steps
    // long, and a tooth hangs on each
    for (shape, score, finish) in [
        (Shape::Star, 255 * 9_999 + 1 + 15 * 10_000, 16 * 9_999 + 1),
        (Shape::Chain, 16 * (255 * 9_999 + 1), 255 * 9_999 + 1),
        (
            Shape::Comb,
            255 * 9_999 + 1 + 15 * (128 * 9_999 + 1),
            128 * 9_999 + 1,
        ),
    ] {
        let mut draft = Draft::new();
        for i in 1..256u16 {
            assert!(rt; draft.add(shape.target(i), 1, 9_999, 0).is_ok());
        }
        let mut sheet = draft.issue();
        assert!(rt; sheet.crew(16).is_ok());
        let mut rows = [NO_ROW; 256];
        let plan = sheet.plan(&LongestTail, &mut rows).ok().ok_or("no plan")?;
        assert_eq!(rt; plan.rows, 256);
        assert_eq!(rt; plan.score, score);
        assert_eq!(rt; plan.finish, finish);
    }
    Ok(())
}
