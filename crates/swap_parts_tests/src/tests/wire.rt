ghost use Rattle.std.specs.Prelude.{◌≡◌, ◌≤◌, length};

use std::process::Abort;
use std::test::Fail;
use swap_base::Lease;
use swap_wire::{Decoder, FrameBuf, Msg, Next, NoPlace, Side, encode};

const AA: [u8; 8] = [0xaa; 8];

/// Messages with the side that sends them and their frames, with pages of 8 bytes of aa.
const FRAMES: [(Side, Msg, &[u8]); 6] = [
    (
        Side::Device,
        Msg::Hello {
            version: 1,
            page_bytes: 8,
            pages_per_slab: 4,
        },
        &[0, 0, 0, 13, 1, 0, 0, 0, 1, 0, 0, 0, 8, 0, 0, 0, 4],
    ),
    (
        Side::Device,
        Msg::Write {
            lease: Lease(1),
            place: 2,
        },
        &[
            0, 0, 0, 17, 4, 0, 0, 0, 1, 0, 0, 0, 2, 0xaa, 0xaa, 0xaa, 0xaa, 0xaa, 0xaa, 0xaa, 0xaa,
        ],
    ),
    (
        Side::Device,
        Msg::Read {
            lease: Lease(0),
            place: 3,
        },
        &[0, 0, 0, 9, 5, 0, 0, 0, 0, 0, 0, 0, 3],
    ),
    (
        Side::Device,
        Msg::Rates {
            lease: Lease(0),
            value: 65_536,
        },
        &[0, 0, 0, 13, 6, 0, 0, 0, 0, 0, 0, 0, 0, 0, 1, 0, 0],
    ),
    (
        Side::Lender,
        Msg::Evict { lease: Lease(0) },
        &[0, 0, 0, 5, 14, 0, 0, 0, 0],
    ),
    (
        Side::Lender,
        Msg::PageIs {
            lease: Lease(0),
            place: 2,
        },
        &[
            0, 0, 0, 17, 12, 0, 0, 0, 0, 0, 0, 0, 2, 0xaa, 0xaa, 0xaa, 0xaa, 0xaa, 0xaa, 0xaa, 0xaa,
        ],
    ),
];

/// Feeds all of the bytes and asks for a message.
fn read(rt: &impl Abort, decoder: &mut Decoder, bytes: &[u8], page: &mut [u8; 8]) -> Next
    requires { decoder.old.page_bytes ≡ 8 }
    ensures { decoder.new.page_bytes ≡ 8 }
{
    assert_eq!(rt; decoder.feed(bytes), bytes.len());
    decoder.next(page)
}

#[test]
fn a_message_is_appended_whole_or_not_at_all(rt: HostRuntime) -> Result<(), Fail> {
    for (_, msg, bytes) in FRAMES {
        let mut out = FrameBuf::make(rt.alloc(), 2 * bytes.len() - 1).map_err(|_| "memory")?;
        assert_eq!(rt; encode(&msg, &AA, &mut out), Ok(()));
        assert_eq!(rt; encode(&msg, &AA, &mut out), Err(NoPlace));
        assert_eq!(rt; out.bytes(), bytes);
        assert!(rt; 0 < out.bytes().len());
        out.drop_front(1);
        assert_eq!(rt; encode(&msg, &AA, &mut out), Ok(()));
        assert_eq!(rt; out.bytes().len(), 2 * bytes.len() - 1);
        assert_eq!(rt; &out.bytes()[bytes.len() - 1..], bytes);
    }
    Ok(())
}

#[test]
fn a_frame_is_read_however_it_is_cut(rt: HostRuntime) -> Result<(), Fail> {
    for (side, msg, bytes) in FRAMES {
        for cut in 0..bytes.len() {
            let mut decoder = Decoder::make(rt.alloc(), side, 8).map_err(|_| "memory")?;
            let mut page = AA;
            assert_eq!(rt;
                read(&rt, &mut decoder, &bytes[..cut], &mut page),
                Next::More
            );
            assert_eq!(rt;
                read(&rt, &mut decoder, &bytes[cut..], &mut page),
                Next::Got(msg)
            );
            assert_eq!(rt; decoder.next(&mut page), Next::More);
        }
    }
    Ok(())
}

/// Feeds the frame of a message byte by byte.
fn read_bytes(rt: &impl Abort, decoder: &mut Decoder, msg: Msg, bytes: &[u8], page: &mut [u8; 8])
    requires { decoder.old.page_bytes ≡ 8 }
    ensures { decoder.new.page_bytes ≡ 8 }
{
    for i in 0..bytes.len() {
        let want = if i + 1 < bytes.len() {
            Next::More
        } else {
            Next::Got(msg)
        };
        assert_eq!(rt; read(rt, decoder, &bytes[i..i + 1], page), want);
    }
}

#[test]
fn frames_are_read_byte_by_byte(rt: HostRuntime) -> Result<(), Fail> {
    let mut device = Decoder::make(rt.alloc(), Side::Device, 8).map_err(|_| "memory")?;
    let mut lender = Decoder::make(rt.alloc(), Side::Lender, 8).map_err(|_| "memory")?;
    let mut page = [0; 8];
    for (_, msg, bytes) in &FRAMES[..4] {
        read_bytes(&rt, &mut device, *msg, bytes, &mut page);
    }
    assert_eq!(rt; page, AA);
    page = [0; 8];
    for (_, msg, bytes) in &FRAMES[4..] {
        read_bytes(&rt, &mut lender, *msg, bytes, &mut page);
    }
    assert_eq!(rt; page, AA);
    Ok(())
}

#[test]
fn what_no_frame_begins_with_is_bad(rt: HostRuntime) -> Result<(), Fail> {
    let rows: [&[u8]; 8] = [
        &[1],
        &[0, 0, 0, 0],
        &[0, 0, 0, 9, 15],
        &[0, 0, 0, 16],
        &[0, 0, 0, 18],
        &[0, 0, 0, 9, 8],
        &[0, 0, 0, 13, 5],
        &[0, 0, 0, 10, 5, 0, 0, 0, 0, 0, 0, 0, 3, 0],
    ];
    for bytes in rows {
        let mut decoder = Decoder::make(rt.alloc(), Side::Device, 8).map_err(|_| "memory")?;
        let mut page = AA;
        assert_eq!(rt;
            read(&rt, &mut decoder, bytes, &mut page),
            Next::Bad { at: 0 }
        );
    }
    Ok(())
}

#[test]
fn after_bad_all_is_taken_and_nothing_read(rt: HostRuntime) -> Result<(), Fail> {
    let mut decoder = Decoder::make(rt.alloc(), Side::Device, 8).map_err(|_| "memory")?;
    let mut page = AA;
    let (_, msg, bytes) = FRAMES[2];
    assert_eq!(rt; read(&rt, &mut decoder, bytes, &mut page), Next::Got(msg));
    assert_eq!(rt;
        read(&rt, &mut decoder, &[1], &mut page),
        Next::Bad { at: 13 }
    );
    assert_eq!(rt;
        read(&rt, &mut decoder, &[0; 64], &mut page),
        Next::Bad { at: 13 }
    );
    assert_eq!(rt;
        read(&rt, &mut decoder, bytes, &mut page),
        Next::Bad { at: 13 }
    );
    Ok(())
}

#[test]
fn a_decoder_takes_no_more_than_one_frame(rt: HostRuntime) -> Result<(), Fail> {
    let mut decoder = Decoder::make(rt.alloc(), Side::Lender, 8).map_err(|_| "memory")?;
    let mut page = [0; 8];
    let (_, msg, bytes) = FRAMES[5];
    assert_eq!(rt; decoder.feed(bytes), 21);
    assert_eq!(rt; decoder.feed(&[0, 0]), 0);
    assert_eq!(rt; decoder.next(&mut page), Next::Got(msg));
    assert_eq!(rt; page, AA);
    assert_eq!(rt; decoder.feed(&[0, 0]), 2);
    Ok(())
}
