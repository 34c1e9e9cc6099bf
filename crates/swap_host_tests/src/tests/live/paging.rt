//! Both commands over loopback: one call lends, the other pages over it.
ghost use Rattle.std.specs.Prelude.{◌≡◌};

use super::loopback::own_address;
use super::words::{LENT_TRACE, NONE, run, verdict};
use std::alloc::Global;
use std::fs::{File, Files};
use std::net::{Net, TcpListener, TcpStream};
use std::sync::{Arc, Mutex, Wait};
use std::test::Fail;
use std::thread::Threads;
use std::{process, thread};
use swap_base::Geometry;
use swap_host::RealHost;
use swap_sock::{Address, Host, HostFault};

/// How often the door is looked at before it counts as shut.
const LOOKS: u32 = 100_000_000;

/// A host that tells when its door is open.
#[derive(Drop)]
struct Opening<R: Wait + Copy + Drop, H: Host + Drop> {
    rt: R,
    host: H,
    open: Arc<Mutex<bool>, Global>,
}

impl<R: Wait + Copy + Drop, H: Host + Drop> Host for Opening<R, H> {
    type Disk = H::Disk;

    type Net = H::Net;

    type Entrance = H::Entrance;

    ghost faults = { λ h. H.faults h.host };

    ghost disks = { λ h. H.disks h.host };

    ghost nets = { λ h. H.nets h.host };

    ghost doors = { λ h. H.doors h.host };

    fn disk(&mut self, path: &str, geometry: &Geometry) -> Result<H::Disk, HostFault> {
        self.host.disk(path, geometry)
    }

    fn fabric(&mut self, addresses: &[Address], geometry: &Geometry) -> Result<H::Net, HostFault> {
        self.host.fabric(addresses, geometry)
    }

    fn door(&mut self, address: &Address) -> Result<H::Entrance, HostFault> {
        let door = self.host.door(address);
        if door.is_ok() {
            *self.open.lock(&self.rt) = true;
        }
        door
    }

    fn disk_back(&mut self, disk: H::Disk) {
        self.host.disk_back(disk);
    }

    fn net_back(&mut self, net: H::Net) {
        self.host.net_back(net);
    }

    fn door_back(&mut self, door: H::Entrance) {
        self.host.door_back(door);
    }
}

/// Waits until the door is open; whether it is.
fn waits_for<R: Wait + Copy>(rt: R, open: &Mutex<bool>) -> bool {
    for _ in 0..LOOKS {
        if *open.lock(&rt) {
            return true;
        }
        thread::yield_now();
    }
    false
}

/// Lends by words at an address of this machine's host: the status, and what was written; none
/// where there is no memory.
fn lend_by_words<R>(
    rt: R,
    alloc: Global,
    address: &str,
    open: Arc<Mutex<bool>, Global>,
) -> Option<(u8, Vec<u8>)>
where
    R: Wait
        + Threads
        + Files<File = File>
        + Net<Stream = TcpStream, Listener = TcpListener>
        + Copy
        + Send
        + Sync
        + 'static,
{
    let words = [
        "lend",
        "--listen",
        address,
        "--page-bytes",
        "8",
        "--pages-per-slab",
        "4",
    ];
    let mut host = Opening {
        rt,
        host: RealHost::make(rt, alloc),
        open,
    };
    let ran = run(rt, alloc, &words, "", &mut host, NONE)?;
    let written = ran.out.bytes().to_vec(alloc).ok()?;
    Some((ran.status, written))
}

#[test]
fn a_trace_is_played_over_a_lender_by_tcp(rt: HostRuntime) -> Result<(), Fail> {
    let alloc = rt.alloc();
    let address = own_address(process::id(rt.process()), 7408);
    let Address { a, b, c, d, port } = address;
    let address = format!(in alloc; "{a}.{b}.{c}.{d}:{port}")?;
    let open = Arc::new(alloc, Mutex::new(false))?;
    let (at, opens) = (address.clone()?, Arc::try_clone(&open)?);
    let Ok(lender) = thread::spawn(&rt, move || lend_by_words(rt, alloc, &at, opens)) else {
        return Err("thread".into());
    };
    assert!(rt; waits_for(rt, &open), "the door");
    let words = ["play", "--tcp", address.as_str()];
    let mut host = RealHost::make(rt, alloc);
    let ran = run(rt, alloc, &words, LENT_TRACE, &mut host, NONE).ok_or("memory")?;
    assert_eq!(rt; ran.status, 0);
    let said = verdict(alloc, ran.out.bytes())?;
    assert_eq!(rt; said.as_slice(), b"legal 2 entries\n".as_slice());
    let (status, written) = lender.join(&rt).ok_or("memory")?;
    assert_eq!(rt; status, 0);
    assert_eq!(rt; written.as_slice(), b"served 1 links\n".as_slice());
    Ok(())
}
