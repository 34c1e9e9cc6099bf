//! Rows by hand.

use swap_evict::EvictRound;

/// What a round of the slots 0, 1 and 2 evicts, two at most, where these answer or leave.
fn evicted(values: [Option<u64>; 3]) -> Option<u64> {
    let mut round = EvictRound::make(7, 2);
    for (slot, value) in [(0, values[0]), (1, values[1]), (2, values[2])] {
        if let Some(value) = value {
            if round.waits_for(slot) {
                round.rate_came(slot, value);
            }
        }
    }
    round.ready()
}

#[test]
fn the_least_active_are_evicted_once_all_answered(rt: HostRuntime) {
    for (values, want) in [
        ([None, None, None], None),
        ([Some(5), Some(1), None], None),
        ([None, Some(1), Some(3)], None),
        ([Some(5), Some(1), Some(3)], Some(0b110)),
        ([Some(1), Some(1), Some(1)], Some(0b011)),
        ([Some(2), Some(1), Some(1)], Some(0b110)),
    ] {
        assert_eq!(rt; evicted(values), want, "at {values:?}");
    }
}

#[test]
fn a_slot_that_is_gone_is_not_waited_for(rt: HostRuntime) {
    let mut round = EvictRound::make(0b1011, 2);
    assert!(rt; round.waits_for(3) && !round.waits_for(2) && !round.waits_for(64));
    round.slot_gone(3);
    assert!(rt; !round.waits_for(3));
    for slot in 0..2 {
        assert!(rt; round.waits_for(slot));
        round.rate_came(slot, 9);
    }
    assert_eq!(rt; round.ready(), Some(0b11));
    round.slot_gone(0);
    assert_eq!(rt; round.ready(), Some(0b10));
    round.slot_gone(1);
    assert_eq!(rt; round.ready(), Some(0));
    assert_eq!(rt; EvictRound::make(0, 4).ready(), Some(0));
}
