ghost use Rattle.std.specs.Prelude.{◌≡◌, IfOk, [], map};
ghost use Rattle.swap_hostile.specs.Silent.{new_silent};
ghost use Rattle.swap_hostile.specs.Swapping.{turn_byte};

use crate::SilentDisk;
use std::alloc::Global;
use std::marker::Model;
use swap_base::{Caller, DiskWhich, Geometry, NoMemory, Page};
use swap_disk::{DiskDone, DiskPort};

/// A disk in memory that gives another page than was stored: each byte of a read is turned over. It
/// tells nothing of its blocks, and no operation fails.
#[derive(Drop)]
pub struct SwappingDisk {
    disk: SilentDisk,
}

impl Model for SwappingDisk {
    ghost use Rattle.swap_hostile.specs.Silent.{Silent};

    ghost Value = { Silent };

    ghost view = { λ s. s.disk };
}

// Turns each byte over.
fn turn_over(bytes: &mut [u8])
    ensures { bytes.new ≡ map turn_byte bytes.old }
{
    for i in 0..bytes.len() {
        bytes[i] = 255 - bytes[i];
    }
}

impl SwappingDisk {
    /// A disk of zeros with nothing in flight, which gives ones.
    pub fn make(alloc: Global, geometry: &Geometry) -> Result<SwappingDisk, NoMemory>
        ensures { IfOk result (λ d. d ≡ new_silent geometry.now []) }
    {
        let disk = SilentDisk::make(alloc, geometry, Vec::new(alloc))?;
        Ok(SwappingDisk { disk })
    }
}

impl DiskPort for SwappingDisk {
    ghost use Rattle.swap_hostile.specs.Silent.{port_of};
    ghost use Rattle.swap_hostile.specs.Swapping.{Moves};
    ghost use Rattle.swap_hostile.specs.lemmas.SwappingLaws.{follows as swapping_follows};

    ghost means = { port_of };

    ghost moves = { Moves };

    fn start_write(&mut self, page: Page, bytes: &[u8]) {
        self.disk.start_write(page, bytes);
    }

    fn start_read(&mut self, caller: Caller, page: Page) {
        self.disk.start_read(caller, page);
    }

    fn take(&mut self, buf: &mut [u8]) -> Option<DiskDone> {
        let done = self.disk.take(buf)?;
        turn_over(buf);
        Some(done)
    }

    fn finish(&mut self, which: DiskWhich, ok: bool) -> bool {
        self.disk.finish(which, ok)
    }

    fn oldest(&self) -> Option<DiskWhich> {
        self.disk.oldest()
    }

    ghost follows = { swapping_follows };
}
