// A trace over a disk, and lenders in memory or at addresses of a host.
ghost use Rattle.std.specs.Prelude.{◌≡◌, ◌≤◌, length};
ghost use Rattle.swap_table.specs.Fits.{IsBlank};
ghost use Rattle.swap_play.specs.Playing.{IsTrace};
ghost use Rattle.swap_show.specs.Clause.{written_to};
ghost use Rattle.swap_hosted.specs.Hosted.{HostRose, OverHarbor, OverNet, first_of_pair, nets_of};

use std::alloc::Global;
use std::sync::Wait;
use std::thread::Threads;
use swap_disk::DiskPort;
use swap_io::Sink;
use swap_link::Harbor;
use swap_over::play_over;
use swap_player::Gate;
use swap_run::{Ending, lenders_of};
use swap_sock::{Address, Host, HostFault};
use swap_trace::Trace;

// The first of two that come back.
fn first_of<D: Drop, F: Drop>(back: Option<(D, F)>) -> Option<D>
    ensures { result ≡ first_of_pair back }
{
    match back {
        Some((first, _)) => Some(first),
        None => None,
    }
}

// Plays over a disk, and lenders in memory; the disk comes back.
pub(crate) fn over_harbor<D, K, G, R>(
    rt: &R,
    alloc: Global,
    trace: &Trace<'_>,
    number: u64,
    disk: D,
    out: &mut K,
    gate: &G,
) -> (Ending, Option<D>)
where
    D: DiskPort + Drop + Send,
    K: Sink,
    G: Gate,
    R: Threads + Wait + Sync,
    requires trace { IsTrace trace.now }
    requires disk { IsBlank trace.now.sizes (D.means disk) }
    ensures ends { OverHarbor D.DiskPort trace.now number disk
        (written_to K.Sink out.old out.new) result.0 result.1 }
    ensures later { K.faults out.old ≤ K.faults out.new }
{
    let script = trace.script();
    let Ok(lenders) = lenders_of(alloc, script) else {
        return (Ending::NoMemory, Some(disk));
    };
    let Ok(harbor) = Harbor::make(alloc, &script.geometry(), &lenders) else {
        return (Ending::NoMemory, Some(disk));
    };
    let (ending, back) = play_over(rt, alloc, trace, number, disk, harbor, out, gate);
    (ending, first_of(back))
}

// Plays over a disk, and lenders at addresses that the host reaches; the disk comes back, and the
// links go back to the host.
// That a trace has as many lenders as there are addresses is known of its text; where it isn't so,
// which no code leads to, that counts as want of memory.
pub(crate) fn over_net<D, K, H, G, R>(
    rt: &R,
    alloc: Global,
    trace: &Trace<'_>,
    number: u64,
    disk: D,
    addresses: &[Address],
    out: &mut K,
    host: &mut H,
    gate: &G,
) -> (Ending, Option<D>)
where
    D: DiskPort + Drop + Send,
    K: Sink,
    H: Host,
    H::Net: Send,
    G: Gate,
    R: Threads + Wait + Sync,
    requires trace { IsTrace trace.now }
    requires disk { IsBlank trace.now.sizes (D.means disk) }
    ensures ends { OverNet D.DiskPort H.Net.Fabric trace.now number disk
        (written_to K.Sink out.old out.new) addresses.now (nets_of H.Host host.old host.new)
        (HostRose H.Host host.old host.new) result.0 result.1 }
    ensures later { K.faults out.old ≤ K.faults out.new }
    ensures host { H.faults host.old ≤ H.faults host.new }
    ensures disks { H.disks host.new ≡ H.disks host.old }
    ensures doors { H.doors host.new ≡ H.doors host.old }
{
    let script = trace.script();
    if script.lenders() as usize != addresses.len() {
        return (Ending::NoMemory, Some(disk));
    }
    let links = match host.fabric(addresses, &script.geometry()) {
        Ok(links) => links,
        Err(HostFault::Failed) => return (Ending::HostFailed, Some(disk)),
        Err(HostFault::NoMemory) => return (Ending::NoMemory, Some(disk)),
    };
    let (ending, back) = play_over(rt, alloc, trace, number, disk, links, out, gate);
    match back {
        Some((disk, links)) => {
            host.net_back(links);
            (ending, Some(disk))
        }
        None => (ending, None),
    }
}
