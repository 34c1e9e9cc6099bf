ghost use Rattle.std.specs.Prelude.{◌≡◌, ℕ, ◌<◌, length, find, IsSome, IfOk, if◌then◌else◌};
ghost use Rattle.swap_base.specs.Sizes.{pages_of};
ghost use Rattle.swap_disk.specs.Disk.{is_flight_of, one_more};
ghost use Rattle.swap_disk.specs.Flights.{settled_by, buffer_after};
ghost use Rattle.swap_disk.specs.MemDiskView.{new_drive};
ghost use Rattle.swap_disk.specs.Port.{writes_in, oldest_write_in};

use crate::flight::Flights;
use crate::{DiskDone, DiskPort};
use std::alloc::Global;
use std::marker::Model;
use swap_base::{Caller, DiskWhich, Geometry, NoMemory, Page};
use swap_store::Blocks;

/// The operation that has finished, and how.
#[derive(Clone, Copy)]
pub(crate) struct Ended {
    pub(crate) which: DiskWhich,
    pub(crate) ok: bool,
}

/// A disk in memory: its operations finish when they are told to. All memory is taken at `make`.
#[derive(Drop)]
pub struct MemDisk {
    blocks: Blocks,
    flights: Flights,
    ended: Option<Ended>,
    faults: u64,
}

impl Model for MemDisk {
    ghost use Rattle.swap_disk.specs.MemDiskView.{MemDiskView};
    ghost use Rattle.swap_disk.specs.Flights.{drive_in, Holds};

    ghost Value = { MemDiskView };

    ghost view = { λ m. drive_in m.blocks m.flights m.ended m.faults };

    ghost invariant = { λ m. Holds m.blocks m.flights m.ended m.faults };
}

/// What a write or a read that finishes makes of the blocks.
fn settle(blocks: &mut Blocks, flights: &Flights, which: DiskWhich, ok: bool)
    requires page_bytes { blocks.old.page_bytes ≡ flights.now.sizes.page_bytes }
    requires pages { length blocks.old.blocks ≡ pages_of flights.now.sizes }
    requires in_flight { IsSome (find (is_flight_of which) flights.now.flights) }
    ensures { blocks.new
        ≡ record blocks.old {
          blocks =
              settled_by blocks.old.blocks (find (is_flight_of which) flights.now.flights) ok;
        } }
{
    if let DiskWhich::Write(page) = which {
        let bytes = flights.bytes(page);
        if ok {
            blocks.write(page.0 as usize, bytes);
        } else {
            blocks.fill(page.0 as usize, 255);
        }
    }
}

/// A read that is ok gives its block.
fn hand_over(blocks: &Blocks, ended: Ended, page: Page, buf: &mut [u8])
    requires page { page.0 < length blocks.now.blocks }
    requires buf { length buf.old ≡ blocks.now.page_bytes }
    ensures { buf.new ≡ buffer_after blocks.now ended.which page ended.ok buf.old }
{
    if let DiskWhich::Read(_) = ended.which {
        if ended.ok {
            blocks.read(page.0 as usize, buf);
        }
    }
}

/// One fault more where an operation failed; the count stops at its end.
fn counted(faults: u64, ok: bool) -> u64
    ensures { result ≡ (if ok then faults else one_more faults) }
{
    if ok { faults } else { faults.saturating_add(1) }
}

impl MemDisk {
    /// A disk of zeros, with no faults and nothing in flight.
    pub fn make(alloc: Global, geometry: &Geometry) -> Result<MemDisk, NoMemory>
        ensures { IfOk result (λ d. d ≡ new_drive geometry.now) }
    {
        let Ok(blocks) = Blocks::make(
            alloc,
            geometry.pages() as usize,
            geometry.page_bytes() as usize,
        ) else {
            return Err(NoMemory);
        };
        Ok(MemDisk {
            blocks,
            flights: Flights::make(alloc, geometry)?,
            ended: None,
            faults: 0,
        })
    }

    /// The page of the write in flight that was started first.
    pub fn oldest_write(&self) -> Option<Page>
        ensures { result ≡ oldest_write_in self.now.disk.flights }
    {
        self.flights.oldest_write()
    }

    /// How many writes are in flight.
    pub fn writes_in_flight(&self) -> u32
        ensures { result ≡ writes_in self.now.disk.flights }
    {
        self.flights.count_writes()
    }
}

impl DiskPort for MemDisk {
    ghost use Rattle.swap_disk.specs.MemDiskView.{port_of, Moves};
    ghost use Rattle.swap_disk.specs.lemmas.Follows.{follows as drive_follows};

    ghost means = { port_of };

    ghost moves = { Moves };

    fn start_write(&mut self, page: Page, bytes: &[u8]) {
        self.flights.start_write(page, bytes);
    }

    fn start_read(&mut self, caller: Caller, page: Page) {
        self.flights.start_read(caller, page);
    }

    fn take(&mut self, buf: &mut [u8]) -> Option<DiskDone> {
        let ended = self.ended?;
        let page = self.flights.page(ended.which);
        hand_over(&self.blocks, ended, page, buf);
        self.flights.land(ended.which);
        self.faults = counted(self.faults, ended.ok);
        self.ended = None;
        Some(DiskDone {
            which: ended.which,
            page,
            ok: ended.ok,
        })
    }

    fn finish(&mut self, which: DiskWhich, ok: bool) -> bool {
        if self.ended.is_some() || !self.flights.has(which) {
            return false;
        }
        settle(&mut self.blocks, &self.flights, which, ok);
        self.ended = Some(Ended { which, ok });
        true
    }

    fn oldest(&self) -> Option<DiskWhich> {
        self.flights.oldest()
    }

    ghost follows = { drive_follows };
}
