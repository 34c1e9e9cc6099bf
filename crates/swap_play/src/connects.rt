// The links that are made before the callers begin.
ghost use Rattle.std.specs.Prelude.{◌≡◌, ◌<◌, OnOk, length};
ghost use Rattle.swap_play.specs.Connects.{Connects, ConnectsOne};

use swap_base::{Lender, NoMemory};
use swap_disk::DiskPort;
use swap_wire::{Event, Fabric, Seen};
use swap_world::World;

// Connects a lender. One that can't be, which no code leads to, counts as want of memory.
fn connect<D: DiskPort, F: Fabric>(
    world: &mut World<D, F>,
    page: &mut [u8],
    lender: Lender,
) -> Result<(), NoMemory>
    requires lender { lender.0 < world.old.core.device.lenders }
    requires page { length page.old ≡ world.old.core.device.sizes.page_bytes }
    ensures { OnOk result (ConnectsOne D.moves F.moves lender.0 world.old world.new) }
{
    if world.reserve(0, 1).is_err() {
        return Err(NoMemory);
    }
    match world.step(&Event::Connect { lender }, page) {
        Seen::Linked { .. } => Ok(()),
        _ => Err(NoMemory),
    }
}

/// Connects each lender, ascending.
pub(crate) fn connect_all<D: DiskPort, F: Fabric>(
    world: &mut World<D, F>,
    page: &mut [u8],
) -> Result<(), NoMemory>
    requires page { length page.old ≡ world.old.core.device.sizes.page_bytes }
    ensures { OnOk result
        (Connects D.moves F.moves world.old.core.device.lenders world.old world.new) }
{
    let lenders = world.lenders();
    'links: for lender in 0..lenders {
        connect(world, page, Lender(lender))?;
    }
    Ok(())
}
