//! A drill is run, and its summary is told.
ghost use Rattle.std.specs.Prelude.{◌≡◌, ◌≤◌, []};
ghost use Rattle.swap_drill.specs.Summary.{summary_of};
ghost use Rattle.swap_run.specs.Clause.{stream, DrillEnds};
ghost use Rattle.swap_run.specs.Blocks.{IsFresh};

use crate::Ending;
use crate::run::hand_on_rest;
use std::alloc::Global;
use swap_drill::{DrillSummary, MOST_CALLS, drill, drills_keep_the_headline, put_summary};
use swap_io::{BlockSink, LineBuf, Sink, write_line};

/// Writes the lines of a summary.
fn tell_summary<K: Sink>(
    number: u64,
    calls: u32,
    summary: &DrillSummary,
    lines: &mut LineBuf,
    out: &mut K,
) -> Ending
    requires { summary.now ≡ summary_of number calls }
    ensures ends { DrillEnds number calls
        (stream (K.taken out.old) (K.taken out.new) (K.faults out.old) (K.faults out.new))
        result }
    ensures later { K.faults out.old ≤ K.faults out.new }
{
    drills_keep_the_headline();
    put_summary(number, calls, summary, lines);
    if write_line(out, lines.bytes()).is_err() {
        return Ending::WriteFailed;
    }
    if summary.faults > 0 {
        Ending::Faulted
    } else {
        Ending::Done
    }
}

/// Runs the drill of a number, and writes its summary. No memory is taken after its first event.
pub(crate) fn run_drill<K: Sink>(alloc: Global, number: u64, calls: u32, out: &mut K) -> Ending
    requires { calls ≤ MOST_CALLS }
    ensures ends { DrillEnds number calls
        (stream (K.taken out.old) (K.taken out.new) (K.faults out.old) (K.faults out.new))
        result }
    ensures later { K.faults out.old ≤ K.faults out.new }
{
    let Ok(mut lines) = LineBuf::make(alloc) else {
        return Ending::NoMemory;
    };
    match drill(alloc, number, calls) {
        Ok(summary) => tell_summary(number, calls, &summary, &mut lines, out),
        Err(_) => Ending::NoMemory,
    }
}

/// The same before a sink that gathers, whose rest is handed on.
pub(crate) fn run_drill_in_blocks<K: Sink + Drop>(
    alloc: Global,
    number: u64,
    calls: u32,
    out: &mut BlockSink<K>,
) -> Ending
    requires calls { calls ≤ MOST_CALLS }
    requires held { out.old.held ≡ [] }
    requires fresh { IsFresh out.old.handed }
    ensures { DrillEnds number calls
        (stream out.old.handed out.new.handed out.old.faults out.new.faults) result }
{
    let ran = run_drill(alloc, number, calls, out);
    hand_on_rest(ran, out)
}
