//! The drill: a large valid run, made from a number.
#![tactic(auto)]

ghost use Rattle.swap_drill.specs.Laws.{DrillsKeepTheHeadline};
ghost use Rattle.swap_drill.specs.Rows.{DrillRows};

mod run;
mod steps;
mod summary;
mod tally;
mod text;

pub use run::drill;
pub use summary::DrillSummary;
use swap_newest::always_lent;
use swap_trace::draws_are_in_range;
use swap_world::{always_agrees, always_legal, each_call_once, entries_are_seen};
pub use text::put_summary;

/// How many calls a drill has at most.
pub const MOST_CALLS: u32 = 100_000;

/// Whatever the number and however many the calls, a drill's history is one of an array of pages
/// that starts as zeros, and holds each caller's answered calls once, in its order; it is exactly
/// the entries that were seen. After each front of its events a set bit means that the remote copy
/// is the newest, and a lent slab has one owner. The drill's world is one of
/// `reach`, so each other law over the disk and the lenders in memory holds of it too.
pub fn drills_keep_the_headline()
    ensures { DrillsKeepTheHeadline }
{
    draws_are_in_range();
    always_legal();
    each_call_once();
    entries_are_seen();
    always_agrees();
    always_lent();
}

/// Drills by hand.
pub fn rows()
    ensures drills { DrillRows }
{}
