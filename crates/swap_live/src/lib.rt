//! The commands that may wait. Lending over a host: a door is opened, so many links are served, and
//! the door goes back.
#![tactic(auto)]

ghost use Rattle.std.specs.Prelude.{◌≡◌, ◌<◌, ◌≤◌, ◌*◌, ◌^◌, ◌++◌, length, decimal};
ghost use Rattle.swap_lender.specs.Core.{IsLending};
ghost use Rattle.swap_show.specs.Clause.{written_to};
ghost use Rattle.swap_live.specs.Lending.{hosting, served_line, LendEnds};

use std::alloc::Global;
use std::sync::Wait;
use std::thread::Threads;
use swap_base::LenderSpec;
use swap_io::{LineBuf, Sink, write_line};
use swap_serve::{NodeFault, serve};
use swap_sock::{Address, Host, HostFault};

mod live;

pub use live::{LiveCommand, live_completes, run_live};

/// How lending ended: the links were served and that was written, it couldn't be written, the host
/// or its door failed, or memory was wanted.
#[derive(Clone, Copy, Debug, PartialEq, Eq)]
pub enum LendEnd {
    Served,
    WriteFailed,
    HostFailed,
    NoMemory,
}

/// What a lender lends: its slots, how many bytes a page and how many pages a slab has, how many
/// links it serves, and how many slots its host uses itself.
#[derive(Clone, Copy, Debug, PartialEq, Eq)]
pub struct Offer {
    pub spec: LenderSpec,
    pub page_bytes: u32,
    pub pages_per_slab: u32,
    pub links: u32,
    pub used: u32,
}

/// Writes the line of so many links into a new buffer's place.
fn put_line(number: usize, line: &mut LineBuf)
    ensures { line.new ≡ served_line number }
{
    line.clear();
    line.text(b"served ");
    line.decimal(number as u64);
    line.text(b" links\n");
}

/// Lends at an address of the host: its door's links are served, the door goes back, and `served N
/// links` is written.
///
/// `HostFailed` comes only where the host's count of faults rose in this call, which it does where
/// its door's did, and `WriteFailed` only where that of `out` did. Before either, and for want of
/// memory, nothing is written. Nothing else is asked of the host, and a door that it gave goes back
/// to it however lending ends.
pub fn lend<R, H, K>(
    rt: R,
    alloc: Global,
    host: &mut H,
    address: &Address,
    offer: &Offer,
    out: &mut K,
) -> LendEnd
where
    R: Threads + Wait + Copy + Send + 'static,
    H: Host,
    K: Sink,
    requires least { 8 ≤ offer.now.page_bytes }
    requires most { offer.now.page_bytes ≤ 4096 }
    requires limits { IsLending
        (record {
          spec = offer.now.spec;
          page_bytes = offer.now.page_bytes;
          pages_per_slab = offer.now.pages_per_slab;
          links = offer.now.links;
        }) }
    requires bytes { offer.now.spec.slots * (offer.now.pages_per_slab * offer.now.page_bytes)
        < 2 ^ 64 }
    ensures ends { LendEnds H.Entrance.links H.Entrance.Reader.left H.Entrance.Reader.faults
        H.Entrance.Writer.faults address.now offer.now.page_bytes offer.now.links
        (hosting H.Host host.old host.new) (written_to K.Sink out.old out.new) result }
    ensures disks { H.disks host.new ≡ H.disks host.old }
    ensures nets { H.nets host.new ≡ H.nets host.old }
    ensures later { H.faults host.old ≤ H.faults host.new }
{
    let Ok(mut line) = LineBuf::make(alloc) else {
        return LendEnd::NoMemory;
    };
    let mut door = match host.door(address) {
        Ok(door) => door,
        Err(HostFault::Failed) => return LendEnd::HostFailed,
        Err(HostFault::NoMemory) => return LendEnd::NoMemory,
    };
    let Offer {
        spec,
        page_bytes,
        pages_per_slab,
        links,
        used,
    } = *offer;
    let served = serve(
        rt,
        alloc,
        &mut door,
        spec,
        page_bytes,
        pages_per_slab,
        links,
        used,
    );
    host.door_back(door);
    match served {
        Ok(ears) => {
            put_line(ears.len(), &mut line);
            match write_line(out, line.bytes()) {
                Ok(()) => LendEnd::Served,
                Err(_) => LendEnd::WriteFailed,
            }
        }
        Err(NodeFault::HostFailed) => LendEnd::HostFailed,
        Err(NodeFault::NoMemory) => LendEnd::NoMemory,
    }
}
