//! A trace played over one world: each caller in a thread of its own, with pumps and an operator
//! beside them.
#![tactic(auto)]

ghost use Rattle.swap_play.specs.Running.{ActsAreRuns};

mod callers;
mod connects;
mod playing;
mod settles;

pub use playing::{PlayFault, play};
use swap_disk::DiskPort;
use swap_table::ports_promise;
use swap_wire::Fabric;

/// What is made behind a run is a run: so each law of runs over any ports holds of the acts by
/// which a trace is played.
pub fn acts_are_runs<D: DiskPort, F: Fabric>()
    ensures { ActsAreRuns D.DiskPort F.Fabric }
{
    ports_promise::<D, F>();
}
