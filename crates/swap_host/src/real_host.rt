ghost use Rattle.std.specs.Prelude.{◌≡◌, ◌≤◌, [], length, IfOk};
ghost use Rattle.swap_io.specs.Causes.{Rose};
ghost use Rattle.swap_file.specs.Files.{file_port};
ghost use Rattle.swap_sock.specs.declared.host.HostFault.TheVariants as fault;

use crate::opener::{Asked, Opened, Opener};
use std::alloc::Global;
use std::fs::{File, Files};
use std::net::{Net, SocketAddr, TcpListener, TcpStream};
use std::sync::Wait;
use std::thread::Threads;
use swap_base::Geometry;
use swap_door::{TcpDoor, socket_address};
use swap_file::{FileDisk, make_file};
use swap_net::SocketFabric;
use swap_sock::{Address, Counts, Host, HostFault};

/// The host of this machine: a disk is a file, and links and doors go over TCP. It tells no more
/// than the numbers of what it was asked for, gave and got back. What the system refuses is a
/// fault, as is each disk and fabric where the thread that opens them couldn't be started.
#[derive(Drop)]
pub struct RealHost<R: Wait + Copy> {
    rt: R,
    alloc: Global,
    opener: Option<Opener<R>>,
    disks: Counts,
    nets: Counts,
    doors: Counts,
    faults: u64,
}

impl<R> RealHost<R>
where
    R: Wait + Threads + Net<Stream = TcpStream, Listener = TcpListener> + Copy + Send + 'static,
{
    /// A host that was asked for nothing, with a thread to open disks and fabrics.
    pub fn make(rt: R, alloc: Global) -> RealHost<R>
        ensures faults { result.faults ≡ 0 }
        ensures disks { result.disks ≡ record { asked = 0; gave = 0; back = 0 } }
        ensures nets { result.nets ≡ record { asked = 0; gave = 0; back = 0 } }
        ensures doors { result.doors ≡ record { asked = 0; gave = 0; back = 0 } }
    {
        RealHost {
            rt,
            alloc,
            opener: Opener::start(rt, alloc),
            disks: Counts::none(),
            nets: Counts::none(),
            doors: Counts::none(),
            faults: 0,
        }
    }
}

/// One fault more, where it is one.
fn counted(faults: u64, why: HostFault) -> u64
    ensures later { faults ≤ result }
    ensures cause { why ≡ fault.Failed → Rose faults result }
{
    match why {
        HostFault::Failed => faults.saturating_add(1),
        HostFault::NoMemory => faults,
    }
}

/// A disk at a path, made anew.
fn open_disk<R: Wait + Files<File = File> + Copy>(
    rt: &R,
    opener: &mut Option<Opener<R>>,
    path: &str,
    geometry: &Geometry,
) -> Result<FileDisk<R>, HostFault>
    ensures { IfOk result (λ d. d ≡ file_port geometry.now [] 0 []) }
{
    let Some(opener) = opener else {
        return Err(HostFault::Failed);
    };
    let Ok(file) = make_file(rt, path, geometry) else {
        return Err(HostFault::Failed);
    };
    match opener.open(Asked::Disk(file, *geometry)) {
        Opened::Disk(disk) => disk.of(geometry),
        Opened::Net(_) => Err(HostFault::Failed),
        Opened::Refused(fault) => Err(fault),
    }
}

/// The addresses for the system.
fn socket_addresses(alloc: Global, addresses: &[Address]) -> Result<Vec<SocketAddr>, HostFault> {
    let Ok(mut sockets) = Vec::with_capacity(alloc, addresses.len()) else {
        return Err(HostFault::NoMemory);
    };
    for address in addresses {
        if sockets.push(socket_address(address)).is_err() {
            return Err(HostFault::NoMemory);
        }
    }
    Ok(sockets)
}

/// A fabric with a lender at each address.
fn open_net<R: Wait + Copy>(
    opener: &mut Option<Opener<R>>,
    alloc: Global,
    addresses: &[Address],
    geometry: &Geometry,
) -> Result<SocketFabric<R>, HostFault>
    ensures { IfOk result
        (λ n. n.is_of ≡ record { sizes = geometry.now; lenders = length addresses.now }) }
{
    let Some(opener) = opener else {
        return Err(HostFault::Failed);
    };
    let sockets = socket_addresses(alloc, addresses)?;
    match opener.open(Asked::Net(sockets, *geometry)) {
        Opened::Net(net) => net.of(geometry, addresses.len()),
        Opened::Disk(_) => Err(HostFault::Failed),
        Opened::Refused(fault) => Err(fault),
    }
}

impl<R> Host for RealHost<R>
where
    R: Wait
        + Files<File = File>
        + Net<Stream = TcpStream, Listener = TcpListener>
        + Copy
        + Send
        + 'static,
{
    ghost use Rattle.swap_sock.specs.Dealings.{untold};

    type Disk = FileDisk<R>;

    type Net = SocketFabric<R>;

    type Entrance = TcpDoor<R>;

    ghost faults = { λ h. h.faults };

    ghost disks = { λ h. untold h.disks.asked h.disks.gave h.disks.back };

    ghost nets = { λ h. untold h.nets.asked h.nets.gave h.nets.back };

    ghost doors = { λ h. untold h.doors.asked h.doors.gave h.doors.back };

    fn disk(&mut self, path: &str, geometry: &Geometry) -> Result<FileDisk<R>, HostFault> {
        self.disks.ask();
        match open_disk(&self.rt, &mut self.opener, path, geometry) {
            Ok(disk) => {
                self.disks.give();
                Ok(disk)
            }
            Err(fault) => {
                self.faults = counted(self.faults, fault);
                Err(fault)
            }
        }
    }

    fn fabric(
        &mut self,
        addresses: &[Address],
        geometry: &Geometry,
    ) -> Result<SocketFabric<R>, HostFault> {
        self.nets.ask();
        match open_net(&mut self.opener, self.alloc, addresses, geometry) {
            Ok(net) => {
                self.nets.give();
                Ok(net)
            }
            Err(fault) => {
                self.faults = counted(self.faults, fault);
                Err(fault)
            }
        }
    }

    fn door(&mut self, address: &Address) -> Result<TcpDoor<R>, HostFault> {
        self.doors.ask();
        match TcpDoor::open(self.rt, self.alloc, address) {
            Ok(door) => {
                self.doors.give();
                Ok(door)
            }
            Err(fault) => {
                self.faults = counted(self.faults, fault);
                Err(fault)
            }
        }
    }

    fn disk_back(&mut self, _disk: FileDisk<R>) {
        self.disks.take_back();
    }

    fn net_back(&mut self, _net: SocketFabric<R>) {
        self.nets.take_back();
    }

    fn door_back(&mut self, door: TcpDoor<R>) {
        if 0 < door.faults() {
            self.faults = self.faults.saturating_add(1);
        }
        self.doors.take_back();
    }
}
