// A trace over ports, and the transcript of what was played.
ghost use Rattle.std.specs.Prelude.{◌≡◌, ◌≤◌, length};
ghost use Rattle.swap_table.specs.Fits.{IsBlank};
ghost use Rattle.swap_play.specs.Playing.{IsTrace};
ghost use Rattle.swap_show.specs.Clause.{written_to};
ghost use Rattle.swap_over.specs.Ends.{OverEnds, WrittenBy};

use crate::plays_are_runs;
use std::alloc::Global;
use std::sync::Wait;
use std::thread::Threads;
use swap_base::LenderSpec;
use swap_disk::DiskPort;
use swap_io::{LineBuf, Sink};
use swap_play::{PlayFault, play};
use swap_player::Gate;
use swap_run::{Ending, has_failed, lenders_of};
use swap_show::print_world;
use swap_table::ports_promise;
use swap_trace::Trace;
use swap_wire::Fabric;
use swap_world::World;

// Writes the transcript of a world.
fn show<D: DiskPort, F: Fabric, K: Sink>(
    world: &World<D, F>,
    lenders: &[LenderSpec],
    line: &mut LineBuf,
    out: &mut K,
) -> Ending
    ensures ends { WrittenBy lenders.now world.now (written_to K.Sink out.old out.new) result }
    ensures later { K.faults out.old ≤ K.faults out.new }
{
    if print_world(world, lenders, line, out).is_err() {
        return Ending::WriteFailed;
    }
    if has_failed(world.device().history()) {
        Ending::Faulted
    } else {
        Ending::Done
    }
}

/// Plays a trace over a disk and links of any kind, and writes the transcript of the log. The disk
/// is one of the trace's sizes that nothing was asked of, and the links are as they are made for
/// its lenders. They come back as the run left them; for want of memory they come back as they were
/// given, or are dropped.
///
/// It waits: its promise holds if it returns. `WriteFailed` comes only where the count of `out`
/// rose in this call, and
/// `Faulted` exactly where a call failed of what was played.
pub fn play_over<
    D: DiskPort + Drop + Send,
    F: Fabric + Drop + Send,
    K: Sink,
    G: Gate,
    R: Threads + Wait + Sync,
>(
    rt: &R,
    alloc: Global,
    trace: &Trace<'_>,
    number: u64,
    disk: D,
    fabric: F,
    out: &mut K,
    gate: &G,
) -> (Ending, Option<(D, F)>)
    requires trace { IsTrace trace.now }
    requires disk { IsBlank trace.now.sizes (D.means disk) }
    requires fabric { F.fresh fabric
        (record { sizes = trace.now.sizes; lenders = length trace.now.lenders }) }
    ensures ends { OverEnds D.DiskPort F.Fabric trace.now number disk fabric
        (written_to K.Sink out.old out.new) result.0 result.1 }
    ensures later { K.faults out.old ≤ K.faults out.new }
{
    plays_are_runs::<D, F>();
    ports_promise::<D, F>();
    let script = trace.script();
    let Ok(mut line) = LineBuf::make(alloc) else {
        return (Ending::NoMemory, Some((disk, fabric)));
    };
    let Ok(lenders) = lenders_of(alloc, script) else {
        return (Ending::NoMemory, Some((disk, fabric)));
    };
    let made = World::make(alloc, script.geometry(), script.lenders(), disk, fabric);
    let Ok(world) = made else {
        return (Ending::NoMemory, None);
    };
    match play(rt, alloc, world, trace, number, gate) {
        Ok(world) => {
            let ending = show(&world, &lenders, &mut line, out);
            (ending, Some(world.ports()))
        }
        Err(PlayFault::NoMemory) => (Ending::NoMemory, None),
    }
}
