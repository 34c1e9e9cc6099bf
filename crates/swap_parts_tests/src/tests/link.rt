ghost use Rattle.std.specs.Prelude.{◌≡◌, length};
ghost use Rattle.swap_link.specs.Harbor.{Harbor as Lenders};

use std::alloc::Global;
use std::process::Abort;
use std::test::Fail;
use swap_base::{Geometry, Lease, Lender, LenderSpec, Link, Slab};
use swap_link::Harbor;
use swap_wire::{Fabric, Gave, Hosted, Msg, Sent, Took};

// A call of the only lender's link; a message's page has one byte throughout.
#[derive(Clone, Copy)]
enum Act {
    Connect(u32),
    Send(Msg, u8),
    Take,
    End,
    Give,
    Cut(u32, u32),
    Crash,
    Host(u32, u64),
}

#[derive(Clone, Copy, Debug, PartialEq, Eq)]
enum Reply {
    Done,
    Sent(Sent),
    Took(Took, u8),
    Gave(Gave),
    Is(bool),
    Hosted(Option<Hosted>),
}

fn call(harbor: &mut Harbor, act: Act) -> Reply
    requires bytes { harbor.old.sizes.page_bytes ≡ 8 }
    requires one { length harbor.old.channels ≡ 1 }
    ensures sizes { harbor.new.sizes ≡ harbor.old.sizes }
    ensures one { length harbor.new.channels ≡ 1 }
{
    let lender = Lender(0);
    match act {
        Act::Connect(number) => {
            harbor.connect(lender, Link(number));
            Reply::Done
        }
        Act::Send(msg, byte) => Reply::Sent(harbor.send(lender, &msg, &[byte; 8])),
        Act::Take => {
            let mut page = [7; 8];
            let took = harbor.take(lender, &mut page);
            Reply::Took(took, page[7])
        }
        Act::End => {
            harbor.end(lender);
            Reply::Done
        }
        Act::Give => Reply::Gave(harbor.give(lender)),
        Act::Cut(to_lender, to_device) => Reply::Is(harbor.cut(lender, to_lender, to_device)),
        Act::Crash => Reply::Is(harbor.crash(lender)),
        Act::Host(used, word) => Reply::Hosted(harbor.host(lender, used, word)),
    }
}

// Makes the calls in order, and compares what they answer.
fn check(rt: &impl Abort, harbor: &mut Harbor, rows: &[(Act, Reply)])
    requires bytes { harbor.old.sizes.page_bytes ≡ 8 }
    requires one { length harbor.old.channels ≡ 1 }
    ensures sizes { harbor.new.sizes ≡ harbor.old.sizes }
    ensures one { length harbor.new.channels ≡ 1 }
{
    for (act, wanted) in rows {
        let reply = call(harbor, *act);
        assert_eq!(rt; reply, *wanted);
    }
}

const HELLO: Msg = Msg::Hello {
    version: 1,
    page_bytes: 8,
    pages_per_slab: 4,
};

const QUERY: Msg = Msg::Query { slab: Slab(0) };

const BORROW: Msg = Msg::Borrow { slab: Slab(0) };

const WRITE: Msg = Msg::Write {
    lease: Lease(0),
    place: 3,
};

const READ: Msg = Msg::Read {
    lease: Lease(0),
    place: 3,
};

const fn sent(msg: Msg) -> (Act, Reply) {
    (Act::Send(msg, 0xaa), Reply::Sent(Sent::Sent))
}

const fn gave(msg: Msg, reply: Option<Msg>) -> (Act, Reply) {
    let gave = Gave::Got {
        msg,
        reply,
        evicted: 0,
    };
    (Act::Give, Reply::Gave(gave))
}

const fn took(msg: Msg, byte: u8) -> (Act, Reply) {
    (Act::Take, Reply::Took(Took::Got(msg), byte))
}

const fn lent(lease: u32) -> Msg {
    Msg::Lent {
        slab: Slab(0),
        lease: Lease(lease),
    }
}

const fn room(free: u32) -> Msg {
    Msg::Room {
        slab: Slab(0),
        free,
    }
}

fn harbor(rt: &impl Abort, alloc: Global, window: u32, slots: u32) -> Harbor
    ensures bytes { result.sizes.page_bytes ≡ 8 }
    ensures one { length result.channels ≡ 1 }
{
    let geometry = Geometry::checked(8, 4, 2, 2, 2, window, 20).expect(rt, "sizes");
    let spec = LenderSpec::checked(slots, 0, 0).expect(rt, "spec");
    assert!(rt; geometry.page_bytes() == 8);
    Harbor::make(alloc, &geometry, &[spec]).expect(rt, "memory")
}

#[test]
fn a_page_goes_out_and_comes_back(rt: HostRuntime) -> Result<(), Fail> {
    let mut harbor = harbor(&rt, rt.alloc(), 4, 4);
    let wrote = Msg::Wrote {
        lease: Lease(0),
        place: 3,
    };
    let page = Msg::PageIs {
        lease: Lease(0),
        place: 3,
    };
    check(
        &rt,
        &mut harbor,
        &[
            (Act::Connect(0), Reply::Done),
            sent(HELLO),
            sent(BORROW),
            gave(HELLO, None),
            gave(BORROW, Some(lent(0))),
            took(lent(0), 7),
            sent(WRITE),
            gave(WRITE, Some(wrote)),
            took(wrote, 7),
            sent(READ),
            gave(READ, Some(page)),
            took(page, 0xaa),
            (Act::Take, Reply::Took(Took::Nothing, 7)),
            (Act::Give, Reply::Gave(Gave::Nothing)),
        ],
    );
    assert_eq!(rt; harbor.lender(Lender(0)).free(), 3);
    Ok(())
}

#[test]
fn a_full_lane_ends(rt: HostRuntime) -> Result<(), Fail> {
    // room for 2 requests, one slot and one more
    let mut harbor = harbor(&rt, rt.alloc(), 2, 1);
    check(
        &rt,
        &mut harbor,
        &[
            (Act::Connect(0), Reply::Done),
            sent(HELLO),
            sent(QUERY),
            sent(QUERY),
            sent(BORROW),
            sent(QUERY),
            gave(HELLO, None),
            gave(QUERY, Some(room(1))),
            sent(QUERY),
            gave(QUERY, Some(room(1))),
            gave(BORROW, Some(lent(0))),
            (Act::Give, Reply::Gave(Gave::End)),
            (Act::Give, Reply::Gave(Gave::Nothing)),
            took(room(1), 7),
            took(room(1), 7),
            took(lent(0), 7),
            (Act::Take, Reply::Took(Took::Lost, 7)),
            (Act::Take, Reply::Took(Took::Nothing, 7)),
            (Act::Send(QUERY, 0), Reply::Sent(Sent::Down)),
        ],
    );
    Ok(())
}

#[test]
fn a_lender_that_crashed_has_nothing(rt: HostRuntime) -> Result<(), Fail> {
    let mut harbor = harbor(&rt, rt.alloc(), 1, 1);
    check(
        &rt,
        &mut harbor,
        &[
            (Act::Connect(0), Reply::Done),
            sent(HELLO),
            sent(BORROW),
            sent(QUERY),
            gave(HELLO, None),
            gave(BORROW, Some(lent(0))),
            gave(QUERY, Some(room(0))),
            sent(QUERY),
            gave(QUERY, Some(room(0))),
            sent(QUERY),
            sent(QUERY),
            sent(QUERY),
            (Act::Crash, Reply::Is(true)),
            (Act::Give, Reply::Gave(Gave::Nothing)),
            sent(QUERY),
            took(lent(0), 7),
            took(room(0), 7),
            took(room(0), 7),
            (Act::Take, Reply::Took(Took::Lost, 7)),
            (Act::Connect(1), Reply::Done),
            sent(HELLO),
            sent(BORROW),
            gave(HELLO, None),
            gave(BORROW, Some(lent(0))),
            took(lent(0), 7),
            (Act::Take, Reply::Took(Took::Nothing, 7)),
        ],
    );
    Ok(())
}

#[test]
fn a_new_link_frees_what_the_older_one_held(rt: HostRuntime) -> Result<(), Fail> {
    let mut harbor = harbor(&rt, rt.alloc(), 4, 1);
    let refused = Msg::Refused { slab: Slab(1) };
    let other = Msg::Borrow { slab: Slab(1) };
    check(
        &rt,
        &mut harbor,
        &[
            (Act::Connect(0), Reply::Done),
            sent(HELLO),
            sent(BORROW),
            sent(other),
            sent(QUERY),
            gave(HELLO, None),
            gave(BORROW, Some(lent(0))),
            gave(other, Some(refused)),
            // over a standing link
            (Act::Connect(1), Reply::Done),
            (Act::Give, Reply::Gave(Gave::Nothing)),
            (Act::Take, Reply::Took(Took::Nothing, 7)),
            sent(HELLO),
            sent(BORROW),
            gave(HELLO, None),
            gave(BORROW, Some(lent(1))),
            // over a broken one
            (Act::End, Reply::Done),
            (Act::Take, Reply::Took(Took::Nothing, 7)),
            (Act::Give, Reply::Gave(Gave::End)),
            (Act::Connect(2), Reply::Done),
            sent(HELLO),
            sent(BORROW),
            gave(HELLO, None),
            gave(BORROW, Some(lent(2))),
            took(lent(2), 7),
        ],
    );
    Ok(())
}

#[test]
fn an_end_is_told_once(rt: HostRuntime) -> Result<(), Fail> {
    let mut harbor = harbor(&rt, rt.alloc(), 4, 1);
    let hosted = Hosted { mean: 1, asked: 0 };
    check(
        &rt,
        &mut harbor,
        &[
            // before the first link
            (Act::Send(QUERY, 0), Reply::Sent(Sent::Down)),
            (Act::Take, Reply::Took(Took::Nothing, 7)),
            (Act::Give, Reply::Gave(Gave::Nothing)),
            (Act::Cut(0, 0), Reply::Is(false)),
            (Act::Crash, Reply::Is(true)),
            (Act::Host(1, 0), Reply::Hosted(Some(hosted))),
            // a message that the link may not send
            (Act::Connect(0), Reply::Done),
            sent(WRITE),
            sent(READ),
            (Act::Give, Reply::Gave(Gave::Ended { msg: WRITE })),
            (Act::Give, Reply::Gave(Gave::Nothing)),
            (Act::Take, Reply::Took(Took::Lost, 7)),
            (Act::Send(QUERY, 0), Reply::Sent(Sent::Down)),
            (Act::Cut(0, 0), Reply::Is(false)),
            // a device that leaves, with a message under way each way
            (Act::Connect(1), Reply::Done),
            sent(HELLO),
            sent(QUERY),
            gave(HELLO, None),
            gave(QUERY, Some(room(0))),
            sent(QUERY),
            (Act::End, Reply::Done),
            (Act::Take, Reply::Took(Took::Nothing, 7)),
            (Act::Send(QUERY, 0), Reply::Sent(Sent::Down)),
            gave(QUERY, Some(room(0))),
            (Act::Give, Reply::Gave(Gave::End)),
            (Act::Give, Reply::Gave(Gave::Nothing)),
        ],
    );
    Ok(())
}

// Two messages under way each way, cut to so many; then each end takes what is left and sees the
// end.
fn cut(rt: &impl Abort, harbor: &mut Harbor, to_lender: u32, to_device: u32) -> (u32, u32)
    requires bytes { harbor.old.sizes.page_bytes ≡ 8 }
    requires one { length harbor.old.channels ≡ 1 }
    ensures sizes { harbor.new.sizes ≡ harbor.old.sizes }
    ensures one { length harbor.new.channels ≡ 1 }
{
    check(
        rt,
        harbor,
        &[
            (Act::Connect(0), Reply::Done),
            sent(HELLO),
            sent(QUERY),
            sent(QUERY),
            gave(HELLO, None),
            gave(QUERY, Some(room(1))),
            gave(QUERY, Some(room(1))),
            sent(QUERY),
            sent(QUERY),
            (Act::Cut(to_lender, to_device), Reply::Is(true)),
            (Act::Cut(to_lender, to_device), Reply::Is(false)),
            sent(QUERY),
        ],
    );
    let mut given = 0;
    let mut taken = 0;
    for _ in 0..4u32 {
        if call(harbor, Act::Give) == gave(QUERY, Some(room(1))).1 {
            given += 1;
        }
    }
    for _ in 0..4u32 {
        if call(harbor, Act::Take) == took(room(1), 7).1 {
            taken += 1;
        }
    }
    check(
        rt,
        harbor,
        &[(Act::Send(QUERY, 0), Reply::Sent(Sent::Down))],
    );
    (given, taken)
}

#[test]
fn a_cut_hands_on_a_prefix(rt: HostRuntime) -> Result<(), Fail> {
    let mut harbor = harbor(&rt, rt.alloc(), 4, 1);
    for to_lender in 0..3 {
        for to_device in 0..3 {
            let left = cut(&rt, &mut harbor, to_lender, to_device);
            assert_eq!(rt; left, (to_lender, to_device));
        }
    }
    Ok(())
}

#[test]
fn a_host_that_wants_its_memory_gets_a_slot(rt: HostRuntime) -> Result<(), Fail> {
    let mut harbor = harbor(&rt, rt.alloc(), 4, 1);
    let lease = Lease(0);
    let hosted = Hosted { mean: 2, asked: 1 };
    let rates = Msg::Rates { lease, value: 0 };
    let told = Gave::Got {
        msg: rates,
        reply: None,
        evicted: 1,
    };
    check(
        &rt,
        &mut harbor,
        &[
            (Act::Connect(0), Reply::Done),
            sent(HELLO),
            sent(BORROW),
            gave(HELLO, None),
            gave(BORROW, Some(lent(0))),
            took(lent(0), 7),
            (Act::Host(10, 0), Reply::Hosted(Some(hosted))),
            took(Msg::AskRates { lease }, 7),
            sent(rates),
            (Act::Give, Reply::Gave(told)),
            took(Msg::Evict { lease }, 7),
            sent(Msg::Done { lease }),
            gave(Msg::Done { lease }, None),
            (Act::Take, Reply::Took(Took::Nothing, 7)),
        ],
    );
    Ok(())
}
