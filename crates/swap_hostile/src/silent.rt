ghost use Rattle.std.specs.Prelude.{◌≡◌, IfOk};
ghost use Rattle.swap_io.specs.Memory.{is_listed};
ghost use Rattle.swap_hostile.specs.Silent.{new_silent};

use std::alloc::Global;
use std::marker::Model;
use swap_base::{Caller, DiskWhich, Geometry, NoMemory, Page};
use swap_disk::{DiskDone, DiskPort, MemDisk};

/// A disk in memory that tells nothing of its blocks. Nobody lets its operations finish: each
/// `take` ends the oldest, and those fail whose numbers from 0, in the order of their ends, are
/// listed.
#[derive(Drop)]
pub struct SilentDisk {
    disk: MemDisk,
    failing: Vec<u32>,
    ended: u64,
}

impl Model for SilentDisk {
    ghost use Rattle.swap_disk.specs.MemDiskView.{IsDrive};
    ghost use Rattle.swap_hostile.specs.Silent.{Silent};

    ghost Value = { Silent };

    ghost view = { λ s. record { drive = s.disk; failing = s.failing.items; ended = s.ended } };

    ghost invariant = { λ s. IsDrive s.disk };
}

fn is_listed(failing: &[u32], number: u64) -> bool
    ensures { result ≡ is_listed failing.now number }
{
    failing.iter().any(|n| u64::from(*n) == number)
}

impl SilentDisk {
    /// A disk of zeros, with no faults and nothing in flight.
    pub fn make(
        alloc: Global,
        geometry: &Geometry,
        failing: Vec<u32>,
    ) -> Result<SilentDisk, NoMemory>
        ensures { IfOk result (λ d. d ≡ new_silent geometry.now failing.items) }
    {
        Ok(SilentDisk {
            disk: MemDisk::make(alloc, geometry)?,
            failing,
            ended: 0,
        })
    }
}

impl DiskPort for SilentDisk {
    ghost use Rattle.swap_hostile.specs.Silent.{port_of, Moves};
    ghost use Rattle.swap_hostile.specs.lemmas.SilentLaws.{follows as silent_follows};

    ghost means = { port_of };

    ghost moves = { Moves };

    fn start_write(&mut self, page: Page, bytes: &[u8]) {
        self.disk.start_write(page, bytes);
    }

    fn start_read(&mut self, caller: Caller, page: Page) {
        self.disk.start_read(caller, page);
    }

    fn take(&mut self, buf: &mut [u8]) -> Option<DiskDone> {
        let which = self.disk.oldest()?;
        let ok = !is_listed(&self.failing, self.ended);
        self.ended = self.ended.saturating_add(1);
        self.disk.finish(which, ok);
        self.disk.take(buf)
    }

    fn finish(&mut self, _which: DiskWhich, _ok: bool) -> bool {
        let _ended = self.ended;
        false
    }

    fn oldest(&self) -> Option<DiskWhich> {
        None
    }

    ghost follows = { silent_follows };
}
