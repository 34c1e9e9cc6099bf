use std::alloc::Global;
use std::test::Fail;
use swap_base::{Lease, LenderSpec, Link, Slab};
use swap_io::MemSink;
use swap_node::{Delivered, Node, Replies};
use swap_wire::Msg;

const LINK: Link = Link(0);

fn node(alloc: Global) -> Result<Node<MemSink>, Fail> {
    let spec = LenderSpec {
        slots: 8,
        headroom: 2,
        extra: 2,
    };
    Node::make(alloc, spec, 8, 4, 2, 0).map_err(|_| "memory".into())
}

fn replies(alloc: Global, failing: u32) -> Result<Replies<MemSink>, Fail> {
    let sink = MemSink::make(alloc, 1_000, vec![in alloc; failing]?).map_err(|_| "memory")?;
    Replies::make(alloc, sink, 8).map_err(|_| "memory".into())
}

const HELLO: Msg = Msg::Hello {
    version: 1,
    page_bytes: 8,
    pages_per_slab: 4,
};

const WRITE: Msg = Msg::Write {
    lease: Lease(0),
    place: 2,
};

const READ: Msg = Msg::Read {
    lease: Lease(0),
    place: 2,
};

#[test]
fn the_replies_are_the_frames(rt: HostRuntime) -> Result<(), Fail> {
    let mut node = node(rt.alloc())?;
    let mut ear = node.arrive(LINK, replies(rt.alloc(), 3)?);
    let page = [0xaa; 8];
    for msg in [HELLO, Msg::Borrow { slab: Slab(0) }, WRITE, READ, READ] {
        assert!(rt; matches!(node.deliver(&mut ear, &msg, &page), Delivered::Fine));
    }
    let Delivered::Down(replies) = node.deliver(&mut ear, &READ, &page) else {
        return Err("the link isn't down".into());
    };
    let expected: [u8; 47] = [
        0, 0, 0, 9, 9, 0, 0, 0, 0, 0, 0, 0, 0, 0, 0, 0, 9, 11, 0, 0, 0, 0, 0, 0, 0, 2, 0, 0, 0, 17,
        12, 0, 0, 0, 0, 0, 0, 0, 2, 0xaa, 0xaa, 0xaa, 0xaa, 0xaa, 0xaa, 0xaa, 0xaa,
    ];
    assert!(rt; replies.sink().bytes() == expected.as_slice());
    assert!(rt; ear.count() == 6 && !ear.ended());
    assert!(rt; matches!(node.deliver(&mut ear, &READ, &page), Delivered::End));
    Ok(())
}

#[test]
fn a_message_that_may_not_be_sent_ends_its_link_alone(rt: HostRuntime) -> Result<(), Fail> {
    let mut node = node(rt.alloc())?;
    let mut ear = node.arrive(LINK, replies(rt.alloc(), 9)?);
    let mut other = node.arrive(Link(1), replies(rt.alloc(), 9)?);
    for msg in [HELLO, Msg::Borrow { slab: Slab(0) }, WRITE, READ] {
        assert!(rt; matches!(node.deliver(&mut ear, &msg, &[1; 8]), Delivered::Fine));
    }
    let done = Msg::Done { lease: Lease(0) };
    assert!(rt; matches!(node.deliver(&mut ear, &done, &[0; 8]), Delivered::End));
    assert!(rt; ear.count() == 5 && ear.ended() && ear.link() == LINK);
    assert!(rt; matches!(node.deliver(&mut other, &HELLO, &[0; 8]), Delivered::Fine));
    node.gone(Link(1));
    assert!(rt; matches!(node.deliver(&mut other, &HELLO, &[0; 8]), Delivered::End));
    Ok(())
}
