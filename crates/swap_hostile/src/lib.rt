//! Ports that say little or lie, for tests: each reads as any other implementation of its trait.
//! And what holds of a device over them, whatever happens to it.
#![tactic(auto)]

ghost use Rattle.swap_hostile.specs.Silent as silent;
ghost use Rattle.swap_hostile.specs.Swapping as swapping;
ghost use Rattle.swap_hostile.specs.Lying as lying;
ghost use Rattle.swap_hostile.specs.Laws.{HoldsOver, AnyPage};
ghost use Rattle.swap_hostile.specs.Rows.{OldestEndsFirst, ListedFails, NobodyLetsEnd, AnotherPageIsGiven, LiesOnce};

mod lying;
mod silent;
mod swapping;

pub use lying::LyingFabric;
pub use silent::SilentDisk;
use swap_disk::DiskPort;
use swap_wire::Fabric;
use swap_world::over_any_ports;
pub use swapping::SwappingDisk;

/// Over a disk that is silent and any fabric, after every list of events: the history is ordered,
/// each page-in from zeros or the queue is faithful, each from a lender as far as the fabric's
/// answers tell, each caller's calls were answered once, in its order, and the history holds
/// exactly the entries that were seen, each failure with its cause.
pub fn stands_over_a_silent_disk<F: Fabric>()
    ensures { HoldsOver silent.port_of silent.Moves F.of F.moves F.answers }
{
    over_any_ports::<SilentDisk, F>();
}

/// So they do over a disk that gives other pages than were stored.
pub fn stands_over_a_swapping_disk<F: Fabric>()
    ensures { HoldsOver silent.port_of swapping.Moves F.of F.moves F.answers }
{
    over_any_ports::<SwappingDisk, F>();
}

/// And over any disk and a fabric that lies, but that it promises nothing of the pages of lenders;
/// those of a disk that tells its blocks are faithful.
pub fn stands_over_a_lying_fabric<D: DiskPort>()
    ensures { HoldsOver D.means D.moves lying.of_lying lying.Moves AnyPage }
{
    over_any_ports::<D, LyingFabric>();
}

/// Calls of these ports by hand: the oldest operation ends first, the listed one fails, nobody lets
/// one end; another page is given than was stored; and one message is a lie.
pub fn rows()
    ensures oldest { OldestEndsFirst }
    ensures listed { ListedFails }
    ensures nobody { NobodyLetsEnd }
    ensures another { AnotherPageIsGiven }
    ensures lies { LiesOnce }
{}
