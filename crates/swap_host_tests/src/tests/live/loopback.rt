ghost use Rattle.std.specs.Prelude.{◌≡◌};

use super::OFFER;
use std::alloc::Global;
use std::fs::{File, Files};
use std::net::{Net, TcpListener, TcpStream};
use std::sync::Wait;
use std::test::Fail;
use std::thread::Threads;
use std::{process, thread};
use swap_base::{Geometry, Lease, Lender, Link, Slab};
use swap_door::socket_address;
use swap_host::RealHost;
use swap_io::MemSink;
use swap_live::{LendEnd, lend};
use swap_net::SocketFabric;
use swap_sock::Address;
use swap_wire::{Fabric, Msg, Sent, Took};

/// The one lender.
const LENDER: Lender = Lender(0);

/// How often a link is looked at before the lender counts as silent.
const LOOKS: u32 = 10_000_000;

/// How many links are tried before the lender counts as absent.
const TRIES: u32 = 100_000;

/// The page that is written.
const PAGE: [u8; 8] = [0xaa; 8];

/// An address on loopback that no other process has: the process's number stands in it. The ports
/// that are given are none that the system picks by itself.
pub(super) fn own_address(process: u32, port: u16) -> Address {
    let [_, b, c, d] = process.to_be_bytes();
    Address {
        a: 127,
        b,
        c,
        d,
        port,
    }
}

/// A device's side: a fabric of one lender, whose pages have 8 bytes.
#[derive(Drop)]
struct Device<R: Wait + Copy> {
    fabric: SocketFabric<R>,
    sizes: Geometry,
    ghost of: { fabric.is_of ≡ record { sizes = sizes; lenders = 1 } },
    ghost bytes: { sizes.page_bytes ≡ 8 },
}

impl<R> Device<R>
where
    R: Wait + Threads + Net<Stream = TcpStream, Listener = TcpListener> + Copy + Send + 'static,
{
    fn open(rt: R, alloc: Global, address: &Address) -> Result<Device<R>, Fail> {
        let sizes = Geometry::checked(8, 4, 8, 2, 2, 4, 20).map_err(|_| "sizes")?;
        let address = socket_address(address);
        let fabric = SocketFabric::open(rt, alloc, &[address], &sizes).map_err(|_| "fabric")?;
        if sizes.page_bytes() == 8 {
            Ok(Device::over(fabric, sizes))
        } else {
            Err("page".into())
        }
    }
}

impl<R: Wait + Copy> Device<R> {
    fn over(fabric: SocketFabric<R>, sizes: Geometry) -> Device<R>
        requires of { fabric.is_of ≡ record { sizes = sizes; lenders = 1 } }
        requires bytes { sizes.page_bytes ≡ 8 }
    {
        Device { fabric, sizes }
    }

    fn connect(&mut self, link: Link) {
        self.fabric.connect(LENDER, link);
    }

    /// Sends a message, with the page where it carries one.
    fn send(&mut self, msg: Msg) -> Sent {
        self.fabric.send(LENDER, &msg, &PAGE)
    }

    /// What came, with what that left in a page of zeros.
    fn take(&mut self) -> (Took, [u8; 8]) {
        let mut page = [0; 8];
        let took = self.fabric.take(LENDER, &mut page);
        (took, page)
    }

    /// Waits until something comes, and gives it; nothing, where that takes too long.
    fn arrived(&mut self) -> (Took, [u8; 8]) {
        for _ in 0..LOOKS {
            let (took, page) = self.take();
            if took != Took::Nothing {
                return (took, page);
            }
            thread::yield_now();
        }
        (Took::Nothing, [0; 8])
    }

    /// Greets the lender and asks for a slab, over a link of this number, and gives what comes.
    fn ask_over(&mut self, link: Link, slab: Slab) -> Took {
        self.connect(link);
        let hello = Msg::Hello {
            version: 1,
            page_bytes: 8,
            pages_per_slab: 4,
        };
        if self.send(hello) == Sent::Down || self.send(Msg::Borrow { slab }) == Sent::Down {
            return Took::Lost;
        }
        let (took, _) = self.arrived();
        took
    }

    /// Asks for a slab over one link after another, as the lender may not listen yet, and gives
    /// what comes.
    fn ask(&mut self, slab: Slab) -> Took {
        for number in 0..TRIES {
            let took = self.ask_over(Link(number), slab);
            if took != Took::Lost {
                return took;
            }
            thread::yield_now();
        }
        Took::Lost
    }
}

/// Lends at an address of this machine's host: how that ended, and the sink; none where there is no
/// memory.
fn lend_at<R>(rt: R, alloc: Global, address: Address) -> Option<(LendEnd, MemSink)>
where
    R: Wait
        + Threads
        + Files<File = File>
        + Net<Stream = TcpStream, Listener = TcpListener>
        + Copy
        + Send
        + 'static,
{
    let mut host = RealHost::make(rt, alloc);
    let mut out = MemSink::make(alloc, 64, Vec::new(alloc)).ok()?;
    let end = lend(rt, alloc, &mut host, &address, &OFFER, &mut out);
    Some((end, out))
}

#[test]
fn a_device_writes_and_reads_a_page_that_is_lent_over_loopback(
    rt: HostRuntime,
) -> Result<(), Fail> {
    let alloc = rt.alloc();
    let address = own_address(process::id(rt.process()), 7407);
    let mut device = Device::open(rt, alloc, &address)?;
    let Ok(lender) = thread::spawn(&rt, move || lend_at(rt, alloc, address)) else {
        return Err("thread".into());
    };
    let (slab, lease, place) = (Slab(0), Lease(0), 2);
    assert_eq!(rt; device.ask(slab), Took::Got(Msg::Lent { slab, lease }));
    assert_eq!(rt; device.send(Msg::Write { lease, place }), Sent::Sent);
    assert_eq!(rt; device.send(Msg::Read { lease, place }), Sent::Sent);
    let (took, _) = device.arrived();
    assert_eq!(rt; took, Took::Got(Msg::Wrote { lease, place }));
    let (took, page) = device.arrived();
    assert_eq!(rt; took, Took::Got(Msg::PageIs { lease, place }));
    assert_eq!(rt; page, PAGE);
    assert_eq!(rt; device.send(Msg::Done { lease }), Sent::Sent);
    let (took, _) = device.arrived();
    assert_eq!(rt; took, Took::Lost, "the lender ends the link");
    drop(device);
    let (end, out) = lender.join(&rt).ok_or("memory")?;
    assert_eq!(rt; end, LendEnd::Served);
    assert_eq!(rt; out.bytes(), b"served 1 links\n".as_slice());
    Ok(())
}
