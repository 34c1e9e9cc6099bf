ghost use Rattle.std.specs.Prelude.{◌≡◌};

use std::io::{Read, Write};
use std::net::{Shutdown, TcpListener, TcpStream};
use std::process::Abort;
use std::sync::Wait;
use std::test::Fail;
use std::thread;
use swap_base::{Geometry, Lender, Link, Slab};
use swap_net::SocketFabric;
use swap_wire::{Fabric, Msg, Sent, Took};

/// The one lender.
const LENDER: Lender = Lender(0);

/// A new link to the lender.
fn connect<R: Wait + Copy>(fabric: &mut SocketFabric<R>, sizes: &Geometry, link: Link)
    requires of { fabric.old.is_of ≡ record { sizes = sizes.now; lenders = 1 } }
    ensures of { fabric.new.is_of ≡ record { sizes = sizes.now; lenders = 1 } }
{
    fabric.connect(LENDER, link);
}

/// Asks the lender how many slots it has free.
fn query<R: Wait + Abort + Copy>(rt: &R, fabric: &mut SocketFabric<R>, sizes: &Geometry, slab: Slab)
    requires of { fabric.old.is_of ≡ record { sizes = sizes.now; lenders = 1 } }
    ensures of { fabric.new.is_of ≡ record { sizes = sizes.now; lenders = 1 } }
{
    let sent = fabric.send(LENDER, &Msg::Query { slab }, &[]);
    assert!(rt; sent == Sent::Sent);
}

/// Waits until something comes from the lender, and gives it.
fn arrived<R: Wait + Abort + Copy>(rt: &R, fabric: &mut SocketFabric<R>, sizes: &Geometry) -> Took
    requires of { fabric.old.is_of ≡ record { sizes = sizes.now; lenders = 1 } }
    ensures of { fabric.new.is_of ≡ record { sizes = sizes.now; lenders = 1 } }
{
    assert!(rt; sizes.page_bytes() == 8);
    let mut page = [0; 8];
    for _ in rt.forever() {
        match fabric.take(LENDER, &mut page) {
            Took::Nothing => thread::yield_now(),
            took => return took,
        }
    }
    unreachable!()
}

/// The frame of Query of slab 5, and of Room of slab 5 with 3 slots free.
const QUERY: [u8; 9] = [0, 0, 0, 5, 2, 0, 0, 0, 5];

const ROOM: [u8; 13] = [0, 0, 0, 9, 8, 0, 0, 0, 5, 0, 0, 0, 3];

/// The next link, over which the lender is asked, and answers.
fn answer(listener: &TcpListener) -> Result<TcpStream, Fail> {
    let (mut stream, _) = listener.accept()?;
    let mut bytes = [0; 9];
    stream.read_exact(&mut bytes)?;
    if bytes != QUERY {
        return Err("frame".into());
    }
    stream.write_all(&ROOM)?;
    Ok(stream)
}

#[test]
fn a_link_brings_its_own_answers_and_its_end(rt: HostRuntime) -> Result<(), Fail> {
    let sizes = Geometry::checked(8, 4, 8, 2, 2, 4, 20).map_err(|_| "sizes")?;
    let listener = TcpListener::bind(&rt, "127.0.0.1:0")?;
    let address = listener.local_addr()?;
    let mut fabric = SocketFabric::open(rt, rt.alloc(), &[address], &sizes).map_err(|_| "open")?;
    let room = Took::Got(Msg::Room {
        slab: Slab(5),
        free: 3,
    });
    connect(&mut fabric, &sizes, Link(0));
    query(&rt, &mut fabric, &sizes, Slab(5));
    let first = answer(&listener)?;
    assert_eq!(rt; arrived(&rt, &mut fabric, &sizes), room);
    connect(&mut fabric, &sizes, Link(1));
    query(&rt, &mut fabric, &sizes, Slab(5));
    let second = answer(&listener)?;
    assert_eq!(rt;
        arrived(&rt, &mut fabric, &sizes),
        room,
        "the end of the first is dropped"
    );
    second.shutdown(Shutdown::Both)?;
    assert_eq!(rt; arrived(&rt, &mut fabric, &sizes), Took::Lost);
    drop(first);
    Ok(())
}
