ghost use Rattle.std.specs.Prelude.{◌≡◌, ◌≤◌, IfOk, Err};
ghost use Rattle.swap_io.specs.Causes.{Rose};
ghost use Rattle.swap_door.specs.SocketAddresses.{IsAddressOf};
ghost use Rattle.swap_sock.specs.declared.host.HostFault.TheVariants as fault;

use crate::streams::make_ends;
use crate::{TcpSink, TcpSource};
use std::alloc::Global;
use std::io;
use std::io::ErrorKind;
use std::net::{Ipv4Addr, Net, SocketAddr, SocketAddrV4, TcpListener, TcpStream};
use std::sync::Wait;
use std::time::Duration;
use swap_sock::{Address, Door, HostFault, LinkEnd};

/// How many seconds a write waits for a peer that doesn't read.
const WRITE_SECONDS: u64 = 10;

/// The same address for the system.
pub fn socket_address(address: &Address) -> SocketAddr
    ensures { IsAddressOf address.now result }
{
    let Address { a, b, c, d, port } = *address;
    SocketAddr::V4(SocketAddrV4::new(Ipv4Addr::new(a, b, c, d), port))
}

/// A door where links come in over TCP. It tells no more than their number.
#[derive(Drop)]
pub struct TcpDoor<R: Wait + Copy> {
    rt: R,
    alloc: Global,
    listener: TcpListener,
    asked: u64,
    gave: u64,
    back: u64,
    faults: u64,
}

impl<R: Wait + Copy> TcpDoor<R> {
    /// Listens at an address. `Failed` where the system refuses that.
    pub fn open(rt: R, alloc: Global, address: &Address) -> Result<TcpDoor<R>, HostFault>
    where
        R: Net<Stream = TcpStream, Listener = TcpListener>,
        ensures { IfOk result (λ d. d.faults ≡ 0) }
    {
        let Ok(listener) = TcpListener::bind(&rt, socket_address(address)) else {
            return Err(HostFault::Failed);
        };
        Ok(TcpDoor {
            rt,
            alloc,
            listener,
            asked: 0,
            gave: 0,
            back: 0,
            faults: 0,
        })
    }

    /// How many faults there were.
    pub fn faults(&self) -> u64
        ensures { result ≡ self.now.faults }
    {
        self.faults
    }

    /// Where the door listens: the port is the system's choice where 0 was asked for.
    pub fn listens_at(&self) -> io::Result<SocketAddr> {
        self.listener.local_addr()
    }
}

/// The next stream that comes. One that ended before it was taken is passed over.
fn accept(listener: &TcpListener) -> io::Result<TcpStream> {
    for _ in 0..u64::MAX {
        match listener.accept() {
            Ok((stream, _)) => return Ok(stream),
            Err(error) => match error.kind() {
                ErrorKind::ConnectionAborted | ErrorKind::Interrupted => {}
                _ => return Err(error),
            },
        }
    }
    Err(io::Error::from(ErrorKind::Other))
}

/// The next stream that comes, twice: to read and to write.
fn both_ways(listener: &TcpListener) -> io::Result<(TcpStream, TcpStream)> {
    let reader = accept(listener)?;
    reader.set_nodelay(true)?;
    reader.set_write_timeout(Some(Duration::from_secs(WRITE_SECONDS)))?;
    let writer = reader.try_clone()?;
    Ok((reader, writer))
}

impl<R: Wait + Copy + Send + 'static> Door for TcpDoor<R> {
    ghost use Rattle.swap_sock.specs.Dealings.{left_by, got_back};
    ghost use Rattle.swap_door.specs.TcpLinks.{tcp_links};

    type Reader = TcpSource<R>;

    type Writer = TcpSink<R>;

    ghost faults = { λ d. d.faults };

    ghost links = { λ d. tcp_links d.asked d.gave d.back };

    fn next(&mut self) -> Result<(TcpSource<R>, TcpSink<R>), HostFault> {
        self.asked = self.asked.saturating_add(1);
        let Ok((reader, writer)) = both_ways(&self.listener) else {
            self.faults = self.faults.saturating_add(1);
            return Err(HostFault::Failed);
        };
        let Ok(ends) = make_ends(self.rt, self.alloc, reader, writer) else {
            return Err(HostFault::NoMemory);
        };
        self.gave = self.gave.saturating_add(1);
        Ok(ends)
    }

    fn back(&mut self, reader: TcpSource<R>, end: LinkEnd<TcpSink<R>>)
        ensures later { self.old.faults ≤ self.new.faults }
        ensures links { tcp_links self.new.asked self.new.gave self.new.back
            ≡ got_back (left_by reader end)
            (tcp_links self.old.asked self.old.gave self.old.back) }
    {
        drop(reader);
        drop(end);
        self.back = self.back.saturating_add(1);
    }
}
