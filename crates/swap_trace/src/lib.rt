//! Traces: a text to each caller's calls and the operator's events. And the calls of a drill.
#![tactic(auto)]

ghost use Rattle.swap_trace.specs.Laws.{AreInRange, HandInPages, HaveLenders, HoldTraceEvents, EachIsWalked, DrawsAreInRange};
ghost use Rattle.swap_trace.specs.Rows.{DrawRows};

mod draws;
mod trace;

pub use draws::{Draw, DrillDraws};
use swap_script::traces_are_checked;
pub use trace::{CallerWalk, Trace, read_trace};

/// What holds of every trace: its events name what its sizes and lenders have, its page-outs hand
/// in whole pages, its lenders may lend, and it holds calls and an operator's events alone, over
/// TCP none that moves a far side.
pub fn traces_are_whole()
    ensures range { AreInRange }
    ensures pages { HandInPages }
    ensures lenders { HaveLenders }
    ensures kinds { HoldTraceEvents }
{
    traces_are_checked();
}

/// Each event of a trace stands in a walk: in that of a caller, or else in the operator's.
pub fn each_is_walked()
    ensures { EachIsWalked }
{
    traces_are_checked();
}

/// A draw names a caller and a page of the drill's sizes.
pub fn draws_are_in_range()
    ensures { DrawsAreInRange }
{}

/// Draws by hand.
pub fn rows()
    ensures draws { DrawRows }
{}
