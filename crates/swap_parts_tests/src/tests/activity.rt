//! Rows by hand.

use swap_activity::{ONE, Rate, average};

/// A new rate after some periods with so many hits each.
fn after(hits: u32, periods: u32) -> Rate {
    let mut rate = Rate::new();
    for _ in 0..periods {
        for _ in 0..hits {
            rate.hit();
        }
        rate.period();
    }
    rate
}

#[test]
fn a_rate_is_hot_from_its_threshold_on(rt: HostRuntime) {
    for (hits, periods, value, hot, ceiling) in [
        (0, 3, 0, false, 0),
        (1, 1, 13_107, false, 1),
        (99, 1, 1_297_612, false, 20),
        (100, 1, 1_310_720, true, 20),
        (20, 200, 1_310_716, false, 20),
        (20, 400, 1_310_716, false, 20),
        (21, 200, 1_376_252, true, 21),
    ] {
        let rate = after(hits, periods);
        assert_eq!(rt; rate.value(), value, "{periods} periods with {hits} hits");
        assert_eq!(rt; rate.is_hot(20), hot, "{periods} periods with {hits} hits");
        assert_eq!(rt;
            rate.ceiling(),
            ceiling,
            "{periods} periods with {hits} hits"
        );
    }
}

#[test]
fn twenty_hits_in_each_period_are_never_hot(rt: HostRuntime) {
    let mut before = 0;
    for periods in 0..100 {
        let rate = after(20, periods);
        assert!(rt;
            !rate.is_hot(20) && before <= rate.value(),
            "after {periods} periods"
        );
        before = rate.value();
    }
}

#[test]
fn an_average_is_rounded_down(rt: HostRuntime) {
    let greatest = ONE * u64::from(u32::MAX);
    assert_eq!(rt; average(0, 1), 13_107);
    assert_eq!(rt; average(4, 0), 3);
    assert_eq!(rt; average(greatest, u32::MAX), greatest);
}
