//! A trace played over a disk and links of any kind, and shown as a transcript.
#![tactic(auto)]

ghost use Rattle.swap_over.specs.Over.{PlaysAreRuns};

mod over;

pub use over::play_over;
use swap_disk::DiskPort;
use swap_play::acts_are_runs;
use swap_wire::Fabric;
use swap_world::over_any_ports;

/// Over any disk that was blank and any links: what a trace's threads made is a run of the machine
/// from the ports as they were given to the ports as they are, and what holds after every run holds
/// of its history.
pub fn plays_are_runs<D: DiskPort, F: Fabric>()
    ensures { PlaysAreRuns D.DiskPort F.Fabric }
{
    acts_are_runs::<D, F>();
    over_any_ports::<D, F>();
}
