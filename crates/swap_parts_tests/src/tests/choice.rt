//! Rows by hand.

use swap_choice::{
    Asked, Side, better, first_pick, has_slot, least, picked, slot_at, slot_count, two_lenders,
};

#[test]
fn two_lenders_are_asked_and_the_emptier_one_is_taken(rt: HostRuntime) {
    assert_eq!(rt; better(3, 5), Side::Second);
    assert_eq!(rt; better(4, 4), Side::First);
    assert_eq!(rt; better(5, 3), Side::First);
    assert_eq!(rt; two_lenders(5, &[], &[]), Asked::Nobody);
    assert_eq!(rt; two_lenders(5, &[], &[2]), Asked::One(2));
    assert_eq!(rt; two_lenders(5, &[0], &[1, 2]), Asked::Two(0, 2));
    assert_eq!(rt; two_lenders(7, &[0, 1, 2], &[]), Asked::Two(1, 0));
    assert_eq!(rt; two_lenders(4, &[], &[3, 5, 7]), Asked::Two(5, 7));
    assert_eq!(rt; first_pick(17, 5), (2, 3));
}

/// The picked slots, where there are enough.
fn try_picked(word: u64, held: u64, count: u32) -> Option<u64> {
    if count > slot_count(held) {
        return None;
    }
    Some(picked(word, held, count))
}

#[test]
fn slots_are_picked_by_the_word(rt: HostRuntime) {
    for (word, held, count, want) in [
        (7, 0b111, 0, Some(0)),
        (7, 0b111, 1, Some(0b010)),
        (7, 0b111, 2, Some(0b011)),
        (7, 0b111, 3, Some(0b111)),
        (7, 0b111, 4, None),
        (0, 0b1010_1000, 2, Some(0b0010_1000)),
        (2, u64::MAX, 1, Some(0b100)),
        (63, u64::MAX, 1, Some(1 << 63)),
    ] {
        assert_eq!(rt;
            try_picked(word, held, count),
            want,
            "{count} of {held:b} by {word}"
        );
    }
    assert_eq!(rt; slot_at(0b1010_1000, 1), Some(5));
    assert_eq!(rt; slot_at(0b1010_1000, 3), None);
    assert!(rt; has_slot(1 << 63, 63) && !has_slot(u64::MAX, 64));
}

/// The least slots, where there are enough.
fn try_least(rates: &[u64; 64], among: u64, count: u32) -> Option<u64> {
    if count > slot_count(among) {
        return None;
    }
    Some(least(rates, among, count))
}

#[test]
fn the_least_are_the_lower_slots_on_a_tie(rt: HostRuntime) {
    let mut rates = [9; 64];
    rates[0] = 5;
    rates[1] = 1;
    rates[2] = 3;
    for (among, count, want) in [
        (0b111, 0, Some(0)),
        (0b111, 1, Some(0b010)),
        (0b111, 2, Some(0b110)),
        (0b101, 1, Some(0b100)),
        (0b111_1000, 2, Some(0b001_1000)),
        (u64::MAX, 4, Some(0b1111)),
        (0b111, 4, None),
    ] {
        assert_eq!(rt;
            try_least(&rates, among, count),
            want,
            "{count} of {among:b}"
        );
    }
}
