// Values of changeable policies: which steps have one, and what clearing leaves.
use policies::{Changeable, CounterList, Policy, RushLayer, clear};
use steps::ready::Ready;

// Steps 3, 255 and 256.
fn ready() -> [Ready; 3] {
    let entry = Ready {
        step: 3,
        minutes: 1,
        tail: 1,
    };
    [
        entry,
        Ready { step: 255, ..entry },
        Ready { step: 256, ..entry },
    ]
}

// The steps for which a value may be set, and the number by which others are refused.
#[test]
fn refused(rt: HostRuntime) {
    let mut list = CounterList::new();
    let mut layer = RushLayer::new(list);
    for (step, expected) in [
        (0, Ok(())),
        (255, Ok(())),
        (256, Err(23)),
        (65_535, Err(23)),
    ] {
        assert_eq!(rt; list.set(step, 1).map_err(u8::from), expected);
        assert_eq!(rt; layer.set(step, 1).map_err(u8::from), expected);
    }
}

#[test]
fn cleared(rt: HostRuntime) {
    let ready = ready();
    let mut list = CounterList::new();
    assert!(rt; list.set(3, 2).is_ok());
    assert_eq!(rt; list.pick(&ready), 1);
    let mut layer = RushLayer::new(list);
    assert!(rt; layer.set(3, 1).is_ok());
    assert_eq!(rt; layer.pick(&ready), 0);
    // the marks go, the ranks below them stay
    clear(&mut layer);
    assert_eq!(rt; layer.pick(&ready), 1);
    clear(&mut list);
    assert_eq!(rt; list.pick(&ready), 0);
    assert!(rt; list.set(255, 1).is_ok());
    assert_eq!(rt; list.pick(&ready), 0);
}
