// A trace by its options: a disk in a file of a host or in memory, lenders at addresses or in
// memory.
ghost use Rattle.std.specs.Prelude.{◌≡◌, ◌≤◌};
ghost use Rattle.std.specs.Option.{option_map};
ghost use Rattle.swap_table.specs.Fits.{IsBlank};
ghost use Rattle.swap_play.specs.Playing.{IsTrace};
ghost use Rattle.swap_show.specs.Clause.{written_to};
ghost use Rattle.swap_hosted.specs.Hosted.{HostRose, LinksEnd, OverFile, OverMemory, disks_of, nets_of};

use crate::links::{over_harbor, over_net};
use std::alloc::Global;
use std::sync::Wait;
use std::thread::Threads;
use swap_disk::{DiskPort, MemDisk};
use swap_io::Sink;
use swap_player::Gate;
use swap_run::Ending;
use swap_sock::{Address, Host, HostFault};
use swap_trace::Trace;

// Plays over a disk, and lenders in memory where no addresses are given.
fn over_links<D, K, H, G, R>(
    rt: &R,
    alloc: Global,
    trace: &Trace<'_>,
    number: u64,
    disk: D,
    tcp: Option<&[Address]>,
    out: &mut K,
    host: &mut H,
    gate: &G,
) -> (Ending, Option<D>)
where
    D: DiskPort + Drop + Send,
    K: Sink,
    H: Host,
    H::Net: Send,
    G: Gate,
    R: Threads + Wait + Sync,
    requires trace { IsTrace trace.now }
    requires disk { IsBlank trace.now.sizes (D.means disk) }
    ensures ends { LinksEnd H.Net.Fabric trace.now number (written_to K.Sink out.old out.new)
        (nets_of H.Host host.old host.new) (HostRose H.Host host.old host.new) D.DiskPort disk
        (option_map (λ list. list.now) tcp.entry) result.0 result.1 }
    ensures later { K.faults out.old ≤ K.faults out.new }
    ensures host { H.faults host.old ≤ H.faults host.new }
    ensures disks { H.disks host.new ≡ H.disks host.old }
    ensures doors { H.doors host.new ≡ H.doors host.old }
{
    match tcp {
        None => over_harbor(rt, alloc, trace, number, disk, out, gate),
        Some(addresses) => over_net(rt, alloc, trace, number, disk, addresses, out, host, gate),
    }
}

/// Plays over a disk in memory.
pub(crate) fn over_memory<K, H, G, R>(
    rt: &R,
    alloc: Global,
    trace: &Trace<'_>,
    number: u64,
    tcp: Option<&[Address]>,
    out: &mut K,
    host: &mut H,
    gate: &G,
) -> Ending
where
    K: Sink,
    H: Host,
    H::Net: Send,
    G: Gate,
    R: Threads + Wait + Sync,
    requires trace { IsTrace trace.now }
    ensures ends { OverMemory H.Net.Fabric trace.now number (written_to K.Sink out.old out.new)
        (option_map (λ list. list.now) tcp.entry) (nets_of H.Host host.old host.new)
        (HostRose H.Host host.old host.new) result }
    ensures later { K.faults out.old ≤ K.faults out.new }
    ensures host { H.faults host.old ≤ H.faults host.new }
    ensures disks { H.disks host.new ≡ H.disks host.old }
    ensures doors { H.doors host.new ≡ H.doors host.old }
{
    let Ok(disk) = MemDisk::make(alloc, &trace.script().geometry()) else {
        return Ending::NoMemory;
    };
    let (ending, _) = over_links(rt, alloc, trace, number, disk, tcp, out, host, gate);
    ending
}

/// Plays over a disk at a path of the host, which gets it back.
pub(crate) fn over_file<K, H, G, R>(
    rt: &R,
    alloc: Global,
    trace: &Trace<'_>,
    number: u64,
    path: &str,
    tcp: Option<&[Address]>,
    out: &mut K,
    host: &mut H,
    gate: &G,
) -> Ending
where
    K: Sink,
    H: Host,
    H::Disk: Send,
    H::Net: Send,
    G: Gate,
    R: Threads + Wait + Sync,
    requires trace { IsTrace trace.now }
    ensures ends { OverFile H.Disk.DiskPort H.Net.Fabric trace.now number
        (written_to K.Sink out.old out.new)
        (option_map (λ list. list.now) tcp.entry) (disks_of H.Host host.old host.new)
        (nets_of H.Host host.old host.new) (HostRose H.Host host.old host.new) path.now result }
    ensures later { K.faults out.old ≤ K.faults out.new }
    ensures host { H.faults host.old ≤ H.faults host.new }
    ensures doors { H.doors host.new ≡ H.doors host.old }
{
    let disk = match host.disk(path, &trace.script().geometry()) {
        Ok(disk) => disk,
        Err(HostFault::Failed) => return Ending::HostFailed,
        Err(HostFault::NoMemory) => return Ending::NoMemory,
    };
    let (ending, back) = over_links(rt, alloc, trace, number, disk, tcp, out, host, gate);
    if let Some(disk) = back {
        host.disk_back(disk);
    }
    ending
}
