ghost use Rattle.std.specs.Prelude.{◌≡◌, ◌≤◌, true, IfOk, if◌then◌else◌};
ghost use Rattle.swap_io.specs.Causes.{Rose};
ghost use Rattle.swap_io.specs.Memory.{raise, is_listed};
ghost use Rattle.swap_link.specs.Harbor.{IsFresh};

use crate::{Address, Door, Host, HostFault, LinkEnd};
use std::alloc::Global;
use swap_base::{Geometry, LenderSpec, NoMemory};
use swap_disk::MemDisk;
use swap_io::{MemSink, MemSource};
use swap_link::Harbor;

/// How many of one kind were asked for, given and got back. Each count stops at 2^64 - 1.
#[derive(Clone, Copy, Debug, PartialEq, Eq)]
pub struct Counts {
    pub asked: u64,
    pub gave: u64,
    pub back: u64,
}

impl Counts {
    /// None of either.
    pub fn none() -> Counts
        ensures { result ≡ record { asked = 0; gave = 0; back = 0 } }
    {
        Counts {
            asked: 0,
            gave: 0,
            back: 0,
        }
    }

    /// One more was asked for.
    pub fn ask(&mut self)
        ensures { self.new ≡ record self.old { asked = raise self.old.asked } }
    {
        self.asked = self.asked.saturating_add(1);
    }

    /// One more was given.
    pub fn give(&mut self)
        ensures { self.new ≡ record self.old { gave = raise self.old.gave } }
    {
        self.gave = self.gave.saturating_add(1);
    }

    /// One more came back.
    pub fn take_back(&mut self)
        ensures { self.new ≡ record self.old { back = raise self.old.back } }
    {
        self.back = self.back.saturating_add(1);
    }
}

/// A door in memory: links without bytes come in by it, as many as it is asked for. It tells no
/// more than their number.
#[derive(Debug, Drop)]
pub struct MemDoor {
    alloc: Global,
    links: Counts,
}

impl Door for MemDoor {
    ghost use Rattle.swap_sock.specs.Dealings.{left_by, got_back};
    ghost use Rattle.swap_sock.specs.MemLinks.{mem_links};

    type Reader = MemSource;

    type Writer = MemSink;

    ghost faults = { λ d. 0 };

    ghost links = { λ d. mem_links d.links.asked d.links.gave d.links.back };

    fn next(&mut self) -> Result<(MemSource, MemSink), HostFault> {
        self.links.ask();
        let Ok(sink) = MemSink::make(self.alloc, 0, Vec::new(self.alloc)) else {
            return Err(HostFault::NoMemory);
        };
        self.links.give();
        Ok((
            MemSource::make(Vec::new(self.alloc), Vec::new(self.alloc)),
            sink,
        ))
    }

    fn back(&mut self, reader: MemSource, end: LinkEnd<MemSink>)
        ensures later { 0 ≤ 0 }
        ensures links { mem_links self.new.links.asked self.new.links.gave self.new.links.back
            ≡ got_back (left_by reader end)
            (mem_links self.old.links.asked self.old.links.gave self.old.links.back) }
    {
        drop(reader);
        drop(end);
        self.links.take_back();
    }
}

/// A host in memory, which fails at the calls that are listed by their numbers from 0, those that
/// give something back not counted. It gives disks and lenders in memory, each with 8 slots, 2 of
/// headroom and 2 extra, and doors whose links have no bytes. It tells no more than their numbers.
#[derive(Drop)]
pub struct MemHost {
    alloc: Global,
    failing: Vec<u32>,
    calls: u64,
    faults: u64,
    disks: Counts,
    nets: Counts,
    doors: Counts,
}

impl MemHost {
    pub fn make(alloc: Global, failing: Vec<u32>) -> MemHost
        ensures failing { result.failing ≡ failing }
        ensures calls { result.calls ≡ 0 }
        ensures faults { result.faults ≡ 0 }
        ensures disks { result.disks ≡ record { asked = 0; gave = 0; back = 0 } }
        ensures nets { result.nets ≡ record { asked = 0; gave = 0; back = 0 } }
        ensures doors { result.doors ≡ record { asked = 0; gave = 0; back = 0 } }
    {
        MemHost {
            alloc,
            failing,
            calls: 0,
            faults: 0,
            disks: Counts::none(),
            nets: Counts::none(),
            doors: Counts::none(),
        }
    }

    /// Whether the next call fails; it counts as made.
    fn fails(&mut self) -> bool
        ensures fails { result ≡ is_listed self.old.failing.items self.old.calls }
        ensures faults { self.new.faults
            ≡ (if result then raise self.old.faults else self.old.faults) }
        ensures later { self.old.faults ≤ self.new.faults }
        ensures rose { result ≡ true → Rose self.old.faults self.new.faults }
        ensures calls { self.new.calls ≡ raise self.old.calls }
        ensures failing { self.new.failing ≡ self.old.failing }
        ensures disks { self.new.disks ≡ self.old.disks }
        ensures nets { self.new.nets ≡ self.old.nets }
        ensures doors { self.new.doors ≡ self.old.doors }
    {
        let call = self.calls;
        self.calls = call.saturating_add(1);
        let fails = self.failing.iter().any(|n| u64::from(*n) == call);
        if fails {
            self.faults = self.faults.saturating_add(1);
        }
        fails
    }
}

/// What each lender of the host lends.
const SPEC: LenderSpec = LenderSpec {
    slots: 8,
    headroom: 2,
    extra: 2,
};

/// So many lenders in memory.
fn harbor(alloc: Global, geometry: &Geometry, lenders: usize) -> Result<Harbor, NoMemory>
    ensures { IfOk result (λ h. IsFresh h (record { sizes = geometry.now; lenders = lenders })) }
{
    let Ok(specs) = vec![in alloc; SPEC; lenders] else {
        return Err(NoMemory);
    };
    Harbor::make(alloc, geometry, &specs)
}

impl Host for MemHost {
    ghost use Rattle.swap_sock.specs.Dealings.{untold};

    type Disk = MemDisk;

    type Net = Harbor;

    type Entrance = MemDoor;

    ghost faults = { λ h. h.faults };

    ghost disks = { λ h. untold h.disks.asked h.disks.gave h.disks.back };

    ghost nets = { λ h. untold h.nets.asked h.nets.gave h.nets.back };

    ghost doors = { λ h. untold h.doors.asked h.doors.gave h.doors.back };

    fn disk(&mut self, _path: &str, geometry: &Geometry) -> Result<MemDisk, HostFault> {
        self.disks.ask();
        if self.fails() {
            return Err(HostFault::Failed);
        }
        let Ok(disk) = MemDisk::make(self.alloc, geometry) else {
            return Err(HostFault::NoMemory);
        };
        self.disks.give();
        Ok(disk)
    }

    fn fabric(&mut self, addresses: &[Address], geometry: &Geometry) -> Result<Harbor, HostFault> {
        self.nets.ask();
        if self.fails() {
            return Err(HostFault::Failed);
        }
        let Ok(harbor) = harbor(self.alloc, geometry, addresses.len()) else {
            return Err(HostFault::NoMemory);
        };
        self.nets.give();
        Ok(harbor)
    }

    fn door(&mut self, _address: &Address) -> Result<MemDoor, HostFault> {
        self.doors.ask();
        if self.fails() {
            return Err(HostFault::Failed);
        }
        self.doors.give();
        Ok(MemDoor {
            alloc: self.alloc,
            links: Counts::none(),
        })
    }

    fn disk_back(&mut self, _disk: MemDisk) {
        self.disks.take_back();
    }

    fn net_back(&mut self, _net: Harbor) {
        self.nets.take_back();
    }

    fn door_back(&mut self, _door: MemDoor) {
        self.doors.take_back();
    }
}
