// A trace from a source, played by its options over what a host gives.
ghost use Rattle.std.specs.Prelude.{◌≡◌, ◌≤◌, IfSome, length};
ghost use Rattle.std.specs.Option.{option_map};
ghost use Rattle.swap_trace.specs.Traces.{trace as trace_of};
ghost use Rattle.swap_options.specs.Play.{play_asked};
ghost use Rattle.swap_play.specs.Playing.{IsTrace};
ghost use Rattle.swap_show.specs.Clause.{read_of, written_to};
ghost use Rattle.swap_hosted.specs.Hosted.{DiskEnds, HostRose, HostedEnds, TextEnds, disks_of, nets_of, address_count};
ghost use Rattle.swap_base.specs.declared.TheConstants.{MOST_LENDERS};

use crate::ports::{over_file, over_memory};
use std::alloc::Global;
use std::sync::Wait;
use std::thread::Threads;
use swap_io::{Sink, Source, WholeRefused, read_whole};
use swap_options::PlayOptions;
use swap_player::Gate;
use swap_run::Ending;
use swap_script::TEXT_LIMIT;
use swap_sock::{Address, Host};
use swap_trace::{Trace, read_trace};

// The addresses that options give.
fn addresses_of<'o>(options: &'o PlayOptions<'_>) -> Option<&'o [Address]>
    ensures { option_map (λ list. list.now) result ≡ (play_asked options.now).tcp }
{
    match &options.tcp {
        Some(list) => Some(list.as_slice()),
        None => None,
    }
}

// Plays a trace by its options.
fn play_trace<K, H, G, R>(
    rt: &R,
    alloc: Global,
    trace: &Trace<'_>,
    options: &PlayOptions<'_>,
    out: &mut K,
    host: &mut H,
    gate: &G,
) -> Ending
where
    K: Sink,
    H: Host,
    H::Disk: Send,
    H::Net: Send,
    G: Gate,
    R: Threads + Wait + Sync,
    requires trace { IsTrace trace.now }
    ensures ends { DiskEnds H.Disk.DiskPort H.Net.Fabric (play_asked options.now)
        (written_to K.Sink out.old out.new) (disks_of H.Host host.old host.new)
        (nets_of H.Host host.old host.new) (HostRose H.Host host.old host.new) trace.now
        (play_asked options.now).disk result }
    ensures later { K.faults out.old ≤ K.faults out.new }
    ensures host { H.faults host.old ≤ H.faults host.new }
    ensures doors { H.doors host.new ≡ H.doors host.old }
{
    let tcp = addresses_of(options);
    match options.disk {
        None => over_memory(rt, alloc, trace, options.number, tcp, out, host, gate),
        Some(path) => over_file(rt, alloc, trace, options.number, path, tcp, out, host, gate),
    }
}

// Plays a text by its options.
fn play_text<K, H, G, R>(
    rt: &R,
    alloc: Global,
    text: &[u8],
    options: &PlayOptions<'_>,
    out: &mut K,
    host: &mut H,
    gate: &G,
) -> Ending
where
    K: Sink,
    H: Host,
    H::Disk: Send,
    H::Net: Send,
    G: Gate,
    R: Threads + Wait + Sync,
    requires text { length text.now ≤ TEXT_LIMIT }
    requires lenders { IfSome options.now.tcp (λ list. length list.items ≤ MOST_LENDERS) }
    ensures ends { TextEnds H.Disk.DiskPort H.Net.Fabric (play_asked options.now)
        (written_to K.Sink out.old out.new) (disks_of H.Host host.old host.new)
        (nets_of H.Host host.old host.new) (HostRose H.Host host.old host.new)
        (trace_of (address_count (play_asked options.now)) text.now) result }
    ensures later { K.faults out.old ≤ K.faults out.new }
    ensures host { H.faults host.old ≤ H.faults host.new }
    ensures doors { H.doors host.new ≡ H.doors host.old }
{
    let reached = match &options.tcp {
        Some(list) => Some(list.len() as u32),
        None => None,
    };
    match read_trace(text, reached) {
        Err(refused) => Ending::Refused(refused),
        Ok(trace) => play_trace(rt, alloc, &trace, options, out, host, gate),
    }
}

/// Reads a trace, plays it by its options, and writes the transcript of the log. Where a path is
/// given the disk is the host's at that path, where addresses are given the lenders are reached
/// there; else they are in memory, and the host isn't asked. The order is: the read and its length
/// as they come, the lines, memory, the host, the run, the write. What the host gave goes back as
/// the run left it, or is dropped where memory runs out.
///
/// It waits: its promise holds if it returns. `HostFailed` comes only where the host's count rose
/// in this call.
pub fn play_hosted<S, K, H, G, R>(
    rt: &R,
    alloc: Global,
    options: &PlayOptions<'_>,
    source: &mut S,
    out: &mut K,
    host: &mut H,
    gate: &G,
) -> Ending
where
    S: Source,
    K: Sink,
    H: Host,
    H::Disk: Send,
    H::Net: Send,
    G: Gate,
    R: Threads + Wait + Sync,
    requires lenders { IfSome options.now.tcp (λ list. length list.items ≤ MOST_LENDERS) }
    ensures ends { HostedEnds H.Disk.DiskPort H.Net.Fabric (play_asked options.now)
        (written_to K.Sink out.old out.new) (disks_of H.Host host.old host.new)
        (nets_of H.Host host.old host.new) (HostRose H.Host host.old host.new)
        (read_of S.Source source.old source.new) result }
    ensures later { K.faults out.old ≤ K.faults out.new }
    ensures host { H.faults host.old ≤ H.faults host.new }
    ensures doors { H.doors host.new ≡ H.doors host.old }
{
    match read_whole(alloc, source, TEXT_LIMIT) {
        Ok(text) => play_text(rt, alloc, &text, options, out, host, gate),
        Err(WholeRefused::ReadFailed) => Ending::ReadFailed,
        Err(WholeRefused::TooLong) => Ending::TooLong,
        Err(WholeRefused::NoMemory) => Ending::NoMemory,
    }
}
