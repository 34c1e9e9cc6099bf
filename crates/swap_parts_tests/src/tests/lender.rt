//! The lender's part of worked runs, call by call.

ghost use Rattle.std.specs.Prelude.{◌≡◌, IfSome};

use std::alloc::Global;
use std::process::Abort;
use swap_base::{Lease, LenderSpec, Link, Slab};
use swap_lender::Notice::{AskRates, Evict};
use swap_lender::{LenderCore, Notice, Outbox, Served, SlotState};
use swap_wire::Msg;

/// What is called of a lender, with the numbers of links and the byte that fills a page.
#[derive(Clone, Copy, Debug)]
enum Call {
    Arrive(u32),
    Say(u32, Msg, u8),
    Host(u32, u64),
    Gone(u32),
    Restart,
}

/// What a call makes: how it was taken, the first messages with their links, the byte that fills
/// the page given, and the slots told to go.
#[derive(Clone, Copy, Debug, PartialEq, Eq)]
struct Made {
    fine: bool,
    sent: [Option<(u32, Msg)>; 4],
    page: u8,
    evicted: u64,
}

/// A call that leaves nothing to be sent.
const QUIET: Made = Made {
    fine: true,
    sent: [None, None, None, None],
    page: 0,
    evicted: 0,
};

/// A message that the link may not send.
const ENDED: Made = Made {
    fine: false,
    ..QUIET
};

fn reply(link: u32, msg: Msg) -> Made {
    Made {
        sent: [Some((link, msg)), None, None, None],
        ..QUIET
    }
}

/// A lender with pages of 8 bytes.
fn lender(
    alloc: Global,
    slots: u32,
    headroom: u32,
    extra: u32,
    pages_per_slab: u32,
    links: u32,
) -> Option<LenderCore>
    ensures { IfSome result (λ l. (l.lending.page_bytes ≡ 8) × (l.lending.spec.slots ≡ slots)) }
{
    let Ok(spec) = LenderSpec::checked(slots, headroom, extra) else {
        return None;
    };
    if !(1 <= slots && slots <= 64 && headroom <= 64 && extra <= 64 && pages_per_slab <= 65_536) {
        return None;
    }
    LenderCore::make(alloc, spec, 8, pages_per_slab, links).ok()
}

/// The next message in an outbox.
fn next(out: &mut Outbox, page: &mut [u8; 8]) -> Option<(u32, Msg)>
    requires { out.old.page_bytes ≡ 8 }
    ensures { out.new.page_bytes ≡ 8 }
{
    let (link, msg) = out.pop(page)?;
    Some((link.0, msg))
}

/// Makes a call, with an outbox of its own.
fn make(alloc: Global, core: &mut LenderCore, call: Call) -> Option<Made>
    requires { core.old.lending.page_bytes ≡ 8 }
    ensures { core.new.lending ≡ core.old.lending }
{
    core.keeps();
    let mut out = Outbox::make(alloc, 64, 8).ok()?;
    let fine = match call {
        Call::Arrive(link) => !core.stands(Link(link)) && core.arrive(Link(link)),
        Call::Say(link, msg, byte) => {
            core.stands(Link(link))
                && core.took(Link(link), &msg, &[byte; 8], &mut out) == Served::Fine
        }
        Call::Host(used, word) => {
            let hosted = core.host(used, word, &mut out);
            hosted.asked != 0
        }
        Call::Gone(link) => {
            core.gone(Link(link), &mut out);
            true
        }
        Call::Restart => {
            core.restart();
            true
        }
    };
    let mut page = [0; 8];
    let evicted = out.evicted();
    let sent = [
        next(&mut out, &mut page),
        next(&mut out, &mut page),
        next(&mut out, &mut page),
        next(&mut out, &mut page),
    ];
    Some(Made {
        fine,
        sent,
        page: page[7],
        evicted,
    })
}

/// Makes calls in order, and compares what each makes.
fn run<R: Abort>(rt: &R, alloc: Global, core: &mut LenderCore, calls: &[(Call, Made)])
    requires { core.old.lending.page_bytes ≡ 8 }
    ensures { core.new.lending ≡ core.old.lending }
{
    for (call, want) in calls {
        assert_eq!(rt; make(alloc, core, *call), Some(*want), "at {call:?}");
    }
}

fn hello(link: u32) -> Call {
    Call::Say(
        link,
        Msg::Hello {
            version: 1,
            page_bytes: 8,
            pages_per_slab: 4,
        },
        0,
    )
}

fn borrow(link: u32, slab: u32) -> Call {
    Call::Say(link, Msg::Borrow { slab: Slab(slab) }, 0)
}

fn lent(link: u32, slab: u32, lease: u32) -> Made {
    reply(
        link,
        Msg::Lent {
            slab: Slab(slab),
            lease: Lease(lease),
        },
    )
}

fn read(link: u32, lease: u32, place: u32) -> Call {
    Call::Say(
        link,
        Msg::Read {
            lease: Lease(lease),
            place,
        },
        0,
    )
}

fn page(link: u32, lease: u32, place: u32, byte: u8) -> Made {
    Made {
        page: byte,
        ..reply(
            link,
            Msg::PageIs {
                lease: Lease(lease),
                place,
            },
        )
    }
}

fn query(link: u32, slab: u32) -> Call {
    Call::Say(link, Msg::Query { slab: Slab(slab) }, 0)
}

fn room(link: u32, slab: u32, free: u32) -> Made {
    reply(
        link,
        Msg::Room {
            slab: Slab(slab),
            free,
        },
    )
}

/// A message that only a lender sends.
fn room_call(link: u32) -> Call {
    Call::Say(
        link,
        Msg::Room {
            slab: Slab(0),
            free: 1,
        },
        0,
    )
}

fn refused(link: u32, slab: u32) -> Made {
    reply(link, Msg::Refused { slab: Slab(slab) })
}

fn write(link: u32, lease: u32, place: u32, byte: u8) -> Call {
    Call::Say(
        link,
        Msg::Write {
            lease: Lease(lease),
            place,
        },
        byte,
    )
}

fn wrote(link: u32, lease: u32, place: u32) -> Made {
    reply(
        link,
        Msg::Wrote {
            lease: Lease(lease),
            place,
        },
    )
}

fn rates(link: u32, lease: u32, value: u64) -> Call {
    Call::Say(
        link,
        Msg::Rates {
            lease: Lease(lease),
            value,
        },
        0,
    )
}

fn done(link: u32, lease: u32) -> Call {
    Call::Say(
        link,
        Msg::Done {
            lease: Lease(lease),
        },
        0,
    )
}

fn notice(told: &[(u32, Notice, u32)], i: usize) -> Option<(u32, Msg)> {
    let (link, notice, lease) = *told.get(i)?;
    let lease = Lease(lease);
    let msg = match notice {
        Notice::AskRates => Msg::AskRates { lease },
        Notice::Evict => Msg::Evict { lease },
    };
    Some((link, msg))
}

/// The first messages to the links of some slots, and the slots told to go.
fn tell(told: &[(u32, Notice, u32)], evicted: u64) -> Made {
    Made {
        sent: [
            notice(told, 0),
            notice(told, 1),
            notice(told, 2),
            notice(told, 3),
        ],
        evicted,
        ..QUIET
    }
}

#[test]
fn page_in_from_a_lender(rt: HostRuntime) {
    let mut core = lender(rt.alloc(), 4, 1, 1, 4, 1).expect(&rt, "memory");
    run(
        &rt,
        rt.alloc(),
        &mut core,
        &[
            (Call::Arrive(0), QUIET),
            (hello(0), QUIET),
            (borrow(0, 0), lent(0, 0, 0)),
            (read(0, 0, 3), page(0, 0, 3, 0)),
            (write(0, 0, 3, 0xaa), wrote(0, 0, 3)),
            (read(0, 0, 3), page(0, 0, 3, 0xaa)),
            (read(0, 0, 2), page(0, 0, 2, 0)),
        ],
    );
}

#[test]
fn lender_lends_while_it_has_room(rt: HostRuntime) {
    let mut core = lender(rt.alloc(), 4, 1, 0, 4, 1).expect(&rt, "memory");
    let quiet_host = Made {
        fine: false,
        ..QUIET
    };
    run(
        &rt,
        rt.alloc(),
        &mut core,
        &[
            (Call::Arrive(0), QUIET),
            (Call::Host(1, 0), quiet_host),
            (hello(0), QUIET),
            (query(0, 7), room(0, 7, 2)),
            (borrow(0, 0), lent(0, 0, 0)),
            (borrow(0, 1), lent(0, 1, 1)),
            (query(0, 7), room(0, 7, 0)),
            (borrow(0, 2), refused(0, 2)),
        ],
    );
    assert_eq!(rt; core.free(), 0);
}

/// Nothing of this is of use before a link has greeted, and a link greets once.
#[test]
fn a_link_greets_before_it_is_served(rt: HostRuntime) {
    let mut core = lender(rt.alloc(), 4, 0, 0, 4, 2).expect(&rt, "memory");
    let other = |version, page_bytes, pages_per_slab| {
        Call::Say(
            0,
            Msg::Hello {
                version,
                page_bytes,
                pages_per_slab,
            },
            0,
        )
    };
    run(
        &rt,
        rt.alloc(),
        &mut core,
        &[
            (hello(0), ENDED),
            (Call::Arrive(0), QUIET),
            (Call::Arrive(1), QUIET),
            (query(0, 0), ENDED),
            (borrow(0, 0), ENDED),
            (write(0, 0, 0, 1), ENDED),
            (read(0, 0, 0), ENDED),
            (rates(0, 0, 1), ENDED),
            (done(0, 0), ENDED),
            (other(2, 8, 4), ENDED),
            (other(1, 16, 4), ENDED),
            (other(1, 8, 5), ENDED),
            (hello(0), QUIET),
            (hello(0), ENDED),
            (query(0, 0), room(0, 0, 4)),
            (borrow(0, 0), lent(0, 0, 0)),
            (borrow(0, 0), ENDED),
            (write(0, 0, 4, 1), ENDED),
            (read(0, 0, 4), ENDED),
            (read(0, 1, 0), ENDED),
            (rates(0, 0, 1), ENDED),
            (done(0, 0), ENDED),
            (hello(1), QUIET),
            (read(1, 0, 0), ENDED),
            (write(1, 0, 0, 1), ENDED),
            (borrow(1, 0), lent(1, 0, 1)),
            (room_call(0), ENDED),
        ],
    );
}

#[test]
fn revocation_with_read_and_write_in_flight(rt: HostRuntime) {
    let mut core = lender(rt.alloc(), 3, 1, 0, 4, 1).expect(&rt, "memory");
    let still = Made {
        fine: false,
        ..QUIET
    };
    run(
        &rt,
        rt.alloc(),
        &mut core,
        &[
            (Call::Arrive(0), QUIET),
            (hello(0), QUIET),
            (borrow(0, 0), lent(0, 0, 0)),
            (write(0, 0, 3, 0xaa), wrote(0, 0, 3)),
            (Call::Host(10, 0), tell(&[(0, AskRates, 0)], 0)),
            (rates(0, 0, 0), tell(&[(0, Evict, 0)], 1)),
            (rates(0, 0, 0), ENDED),
            (read(0, 0, 3), page(0, 0, 3, 0xaa)),
            (write(0, 0, 2, 0xbb), wrote(0, 0, 2)),
            (done(0, 0), QUIET),
            (read(0, 0, 3), ENDED),
            (Call::Host(0, 0), still),
            (Call::Host(0, 0), still),
            (Call::Host(0, 0), still),
            (Call::Host(0, 0), still),
            (borrow(0, 0), lent(0, 0, 1)),
            (read(0, 1, 3), page(0, 1, 3, 0)),
            (Call::Restart, QUIET),
            (hello(0), ENDED),
            (Call::Arrive(0), QUIET),
            (hello(0), QUIET),
            (borrow(0, 0), lent(0, 0, 0)),
        ],
    );
}

/// Of five held slots two have to go and four are asked; the one of a link that is gone isn't
/// waited for.
#[test]
fn a_slot_goes_while_a_round_is_open(rt: HostRuntime) {
    let mut core = lender(rt.alloc(), 6, 0, 2, 4, 2).expect(&rt, "memory");
    let asked = [
        (0, AskRates, 0),
        (0, AskRates, 1),
        (1, AskRates, 2),
        (0, AskRates, 3),
    ];
    run(
        &rt,
        rt.alloc(),
        &mut core,
        &[
            (Call::Arrive(0), QUIET),
            (Call::Arrive(1), QUIET),
            (hello(0), QUIET),
            (hello(1), QUIET),
            (borrow(0, 0), lent(0, 0, 0)),
            (borrow(0, 1), lent(0, 1, 1)),
            (borrow(1, 0), lent(1, 0, 2)),
            (borrow(0, 2), lent(0, 2, 3)),
            (borrow(0, 3), lent(0, 3, 4)),
            (Call::Host(15, 0), tell(&asked, 0)),
            (rates(0, 4, 1), ENDED),
            (Call::Host(15, 0), ENDED),
            (rates(0, 0, 9), QUIET),
            (rates(0, 1, 5), QUIET),
            (rates(0, 3, 7), QUIET),
            (Call::Gone(1), tell(&[(0, Evict, 1), (0, Evict, 3)], 0b1010)),
            (done(0, 0), ENDED),
            (done(0, 1), QUIET),
        ],
    );
}

#[test]
fn sixty_four_slots_and_links(rt: HostRuntime) {
    let mut core = lender(rt.alloc(), 64, 0, 64, 4, 64).expect(&rt, "memory");
    for link in 0..64 {
        let calls = [
            (Call::Arrive(link), QUIET),
            (hello(link), QUIET),
            (borrow(link, 5), lent(link, 5, link)),
        ];
        run(&rt, rt.alloc(), &mut core, &calls);
    }
    let still = Made {
        fine: false,
        ..QUIET
    };
    run(
        &rt,
        rt.alloc(),
        &mut core,
        &[
            (Call::Arrive(64), still),
            (borrow(0, 6), refused(0, 6)),
            (Call::Gone(7), QUIET),
            (Call::Arrive(64), QUIET),
            (hello(64), QUIET),
            (borrow(64, 5), lent(64, 5, 64)),
            (
                Call::Host(10, 0),
                tell(
                    &[
                        (0, AskRates, 0),
                        (1, AskRates, 1),
                        (2, AskRates, 2),
                        (3, AskRates, 3),
                    ],
                    0,
                ),
            ),
        ],
    );
    assert_eq!(rt;
        core.slot(7),
        SlotState::Held {
            link: Link(64),
            slab: Slab(5),
            lease: Lease(64),
            evicting: false,
        }
    );
}
