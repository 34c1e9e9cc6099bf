//! Frames with every length word from 0 to one over the largest, for each kind.

use std::alloc::Global;
use std::process::Abort;
use std::test::Fail;
use swap_wire::{Decoder, Next, Side};

/// The number of each kind, who sends it, and the length that its frame counts, with pages of 8
/// bytes.
const KINDS: [(u8, Side, u8); 14] = [
    (1, Side::Device, 13),
    (2, Side::Device, 5),
    (3, Side::Device, 5),
    (4, Side::Device, 17),
    (5, Side::Device, 9),
    (6, Side::Device, 13),
    (7, Side::Device, 5),
    (8, Side::Lender, 9),
    (9, Side::Lender, 9),
    (10, Side::Lender, 5),
    (11, Side::Lender, 9),
    (12, Side::Lender, 17),
    (13, Side::Lender, 5),
    (14, Side::Lender, 5),
];

/// One over the largest length.
const OVER: u8 = 18;

/// What a decoder answers to a length word, a kind and zeros up to the longest frame.
fn answer(rt: &impl Abort, alloc: Global, side: Side, kind: u8, length: u8) -> Result<Next, Fail> {
    let mut decoder = Decoder::make(alloc, side, 8).map_err(|_| "memory")?;
    let mut bytes = [0; 21];
    bytes[3] = length;
    bytes[4] = kind;
    assert_eq!(rt; decoder.feed(&bytes), bytes.len());
    let mut page = [0; 8];
    Ok(decoder.next(&mut page))
}

#[test]
fn a_frame_has_the_one_length_of_its_kind(rt: HostRuntime) -> Result<(), Fail> {
    for (kind, side, counted) in KINDS {
        for length in 0..=OVER {
            let next = answer(&rt, rt.alloc(), side, kind, length)?;
            if length == counted {
                assert!(rt; matches!(next, Next::Got(_)), "kind {kind}");
            } else {
                assert_eq!(rt; next, Next::Bad { at: 0 }, "kind {kind} of length {length}");
            }
        }
    }
    Ok(())
}

#[test]
fn a_frame_of_the_other_side_is_bad(rt: HostRuntime) -> Result<(), Fail> {
    for (kind, side, _) in KINDS {
        let other = match side {
            Side::Device => Side::Lender,
            Side::Lender => Side::Device,
        };
        for length in 0..=OVER {
            let next = answer(&rt, rt.alloc(), other, kind, length)?;
            assert_eq!(rt; next, Next::Bad { at: 0 }, "kind {kind} of length {length}");
        }
    }
    Ok(())
}

#[test]
fn a_frame_of_no_kind_is_bad(rt: HostRuntime) -> Result<(), Fail> {
    for kind in [0, 15, 255] {
        for length in 0..=OVER {
            let next = answer(&rt, rt.alloc(), Side::Device, kind, length)?;
            assert_eq!(rt; next, Next::Bad { at: 0 }, "kind {kind} of length {length}");
            let next = answer(&rt, rt.alloc(), Side::Lender, kind, length)?;
            assert_eq!(rt; next, Next::Bad { at: 0 }, "kind {kind} of length {length}");
        }
    }
    Ok(())
}
