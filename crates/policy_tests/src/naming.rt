// Places in lists of ready steps, for policies of every kind.
use policies::{Changeable, CounterList, LongestTail, OneOf, Policy, RushLayer, SheetOrder};
use std::alloc::Global;
use std::process::Abort;
use std::test::Fail;
use steps::ready::Ready;

// Steps and tails of a list; then the places by sheet order, by longest tail, by the counter list below, by a rush layer over
// it, and by a second rush layer over that one.
const LISTS: [(&[(u16, u32)], usize, usize, usize, usize, usize); 12] = [
    // empty
    (&[], 0, 0, 0, 0, 0),
    (&[(7, 0)], 0, 0, 0, 0, 0),
    (&[(65_535, 9)], 0, 0, 0, 0, 0),
    // step numbers that do not rise
    (&[(3, 1), (3, 9), (4, 9)], 0, 0, 0, 0, 0),
    (&[(3, 1), (5, 9), (4, 9)], 0, 0, 0, 0, 0),
    (&[(9, 1), (0, 2)], 0, 0, 0, 0, 0),
    // equal tails, equal ranks, no step marked
    (&[(1, 5), (2, 5), (3, 5)], 0, 0, 1, 1, 1),
    (&[(2, 1), (3, 8), (4, 8), (6, 2)], 0, 1, 2, 2, 2),
    // one step marked, and two
    (&[(1, 4), (5, 3), (7, 9)], 0, 2, 2, 1, 1),
    (&[(2, 4), (5, 3), (8, 1)], 0, 0, 2, 1, 2),
    // all marked
    (&[(5, 1), (8, 2)], 0, 1, 1, 0, 1),
    // step numbers above those for which values are kept
    (
        &[(1, 0), (255, 0), (256, 4_294_967_295), (300, 7)],
        0,
        2,
        0,
        1,
        1,
    ),
];

fn list(heap: Global, entries: &[(u16, u32)]) -> Result<Vec<Ready>, Fail> {
    let mut ready = Vec::new(heap);
    for (step, tail) in entries {
        ready.push(Ready {
            step: *step,
            minutes: 1,
            tail: *tail,
        })?;
    }
    Ok(ready)
}

// Ranks: step 1 has 65,534, steps 2 and 3 have 4, step 5 has 9, step 255 has 65,535, all others 0.
fn ranked(rt: &impl Abort) -> CounterList {
    let mut list = CounterList::new();
    for (step, rank) in [(1, 65_534), (2, 4), (3, 4), (5, 9), (255, 65_535)] {
        assert!(rt; list.set(step, rank).is_ok());
    }
    list
}

#[test]
fn places(rt: HostRuntime) -> Result<(), Fail> {
    let counter = ranked(&rt);
    let mut rush = RushLayer::new(counter);
    for (step, mark) in [(5, 1), (8, 65_535), (255, 2)] {
        assert!(rt; rush.set(step, mark).is_ok());
    }
    let mut rush_again = RushLayer::new(rush);
    assert!(rt; rush_again.set(8, 300).is_ok());
    for (entries, in_order, longest, lowest, rushed, rushed_again) in LISTS {
        let ready = list(rt.alloc(), entries)?;
        assert_eq!(rt; SheetOrder.pick(ready.as_slice()), in_order);
        assert_eq!(rt; LongestTail.pick(ready.as_slice()), longest);
        assert_eq!(rt; counter.pick(ready.as_slice()), lowest);
        assert_eq!(rt; rush.pick(ready.as_slice()), rushed);
        assert_eq!(rt; rush_again.pick(ready.as_slice()), rushed_again);
    }
    Ok(())
}

#[test]
fn choices(rt: HostRuntime) -> Result<(), Fail> {
    let ready = list(rt.alloc(), &[(1, 5), (2, 6), (3, 4)])?;
    for (first, place) in [(true, 1), (false, 0)] {
        let policy = OneOf {
            first,
            a: LongestTail,
            b: SheetOrder,
        };
        assert_eq!(rt; policy.pick(ready.as_slice()), place);
        assert_eq!(rt; RushLayer::new(policy).pick(ready.as_slice()), place);
    }
    Ok(())
}
