//! A trace played over what a host gives: a disk in a file, lenders over TCP, or either in memory.
#![tactic(auto)]

ghost use Rattle.swap_hosted.specs.Hosted.{HostedCompletes};

mod hosted;
mod links;
mod ports;

pub use hosted::play_hosted;
use swap_disk::DiskPort;
use swap_wire::Fabric;

/// A trace that is told and within the limit, for as many lenders as addresses are given, of which
/// neither the source, the output nor the host fails, is played and its transcript written, or
/// memory is wanted.
pub fn hosted_completes<D: DiskPort, F: Fabric>()
    ensures { HostedCompletes D.DiskPort F.Fabric }
{}
