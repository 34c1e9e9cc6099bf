// A trace from a source, played over the disk and the lenders in memory.
ghost use Rattle.std.specs.Prelude.{◌≡◌, ◌≤◌, All, IfOk, None, length};
ghost use Rattle.swap_script.specs.Reading.{IsWithinLimits};
ghost use Rattle.swap_trace.specs.Traces.{trace as trace_of};
ghost use Rattle.swap_play.specs.Playing.{IsTrace};
ghost use Rattle.swap_show.specs.Clause.{ShowEnds, TextEnds, TraceEnds, WrittenBy, read_of, written_to};
ghost use Rattle.swap_show.specs.Shown.{IsFirst};

use crate::plays_keep_the_headline;
use crate::print::print_world;
use std::alloc::Global;
use std::sync::Wait;
use std::thread::Threads;
use swap_base::{LenderSpec, NoMemory};
use swap_disk::MemDisk;
use swap_io::{LineBuf, Sink, Source, WholeRefused, read_whole};
use swap_link::Harbor;
use swap_play::{PlayFault, play};
use swap_player::Gate;
use swap_run::{Ending, has_failed, lenders_of};
use swap_script::{Script, TEXT_LIMIT};
use swap_trace::{Trace, read_trace};
use swap_world::World;

// The world that a trace begins with.
fn first_world(
    alloc: Global,
    script: &Script<'_>,
    lenders: &[LenderSpec],
) -> Result<World<MemDisk, Harbor>, NoMemory>
    requires lenders { lenders.now ≡ script.now.lenders }
    requires limits { All IsWithinLimits lenders.now }
    ensures { IfOk result (IsFirst script.now) }
{
    let geometry = script.geometry();
    let disk = MemDisk::make(alloc, &geometry)?;
    let harbor = Harbor::make(alloc, &geometry, lenders)?;
    World::make(alloc, geometry, script.lenders(), disk, harbor)
}

// Writes the transcript of a world.
fn show<K: Sink>(
    world: &World<MemDisk, Harbor>,
    lenders: &[LenderSpec],
    line: &mut LineBuf,
    out: &mut K,
) -> Ending
    ensures ends { WrittenBy lenders.now world.now (written_to K.Sink out.old out.new) result }
    ensures later { K.faults out.old ≤ K.faults out.new }
{
    if print_world(world, lenders, line, out).is_err() {
        return Ending::WriteFailed;
    }
    if has_failed(world.device().history()) {
        Ending::Faulted
    } else {
        Ending::Done
    }
}

// Plays a trace, and writes its transcript.
fn play_trace<K: Sink, G: Gate, R: Threads + Wait + Sync>(
    rt: &R,
    alloc: Global,
    trace: &Trace<'_>,
    number: u64,
    out: &mut K,
    gate: &G,
) -> Ending
    requires { IsTrace trace.now }
    ensures ends { TraceEnds trace.now number (written_to K.Sink out.old out.new) result }
    ensures later { K.faults out.old ≤ K.faults out.new }
{
    let script = trace.script();
    let Ok(mut line) = LineBuf::make(alloc) else {
        return Ending::NoMemory;
    };
    let Ok(lenders) = lenders_of(alloc, script) else {
        return Ending::NoMemory;
    };
    let Ok(world) = first_world(alloc, script, &lenders) else {
        return Ending::NoMemory;
    };
    match play(rt, alloc, world, trace, number, gate) {
        Ok(world) => show(&world, &lenders, &mut line, out),
        Err(PlayFault::NoMemory) => Ending::NoMemory,
    }
}

// Plays a text.
fn play_text<K: Sink, G: Gate, R: Threads + Wait + Sync>(
    rt: &R,
    alloc: Global,
    text: &[u8],
    number: u64,
    out: &mut K,
    gate: &G,
) -> Ending
    requires { length text.now ≤ TEXT_LIMIT }
    ensures ends { TextEnds (trace_of None text.now) number
        (written_to K.Sink out.old out.new) result }
    ensures later { K.faults out.old ≤ K.faults out.new }
{
    match read_trace(text, None) {
        Err(refused) => Ending::Refused(refused),
        Ok(trace) => play_trace(rt, alloc, &trace, number, out, gate),
    }
}

/// Reads a trace, plays it over a disk and lenders in memory, and writes the transcript of the log.
/// The order is: the read and its length as they come, the lines, memory, the run, the write. Each
/// caller runs in a thread of its own; the Rounds that pace the calls are drawn from `number`.
///
/// It waits: its promise holds if it returns. `ReadFailed` comes only where the count of `source`
/// rose in this call, and
/// `WriteFailed` only where that of `out` did; `Refused` exactly where a line is at fault,
/// `TooLong` exactly where more was read than a text may have, and `Faulted` exactly where a call
/// failed of what was played.
pub fn play_source<S: Source, K: Sink, G: Gate, R: Threads + Wait + Sync>(
    rt: &R,
    alloc: Global,
    number: u64,
    source: &mut S,
    out: &mut K,
    gate: &G,
) -> Ending
    ensures ends { ShowEnds number (read_of S.Source source.old source.new)
        (written_to K.Sink out.old out.new) result }
    ensures later { K.faults out.old ≤ K.faults out.new }
{
    plays_keep_the_headline();
    match read_whole(alloc, source, TEXT_LIMIT) {
        Ok(text) => play_text(rt, alloc, &text, number, out, gate),
        Err(WholeRefused::ReadFailed) => Ending::ReadFailed,
        Err(WholeRefused::TooLong) => Ending::TooLong,
        Err(WholeRefused::NoMemory) => Ending::NoMemory,
    }
}
