//! The command play over the disk and the lenders in memory: a trace is read, played and shown as a
//! transcript.
#![tactic(auto)]

ghost use Rattle.swap_show.specs.Clause.{ShowsComplete, ShowsRefuse};
ghost use Rattle.swap_show.specs.Shown.{PlaysKeepTheHeadline};

mod print;
mod source;

pub use print::print_world;
pub use source::play_source;
use swap_disk::MemDisk;
use swap_link::Harbor;
use swap_newest::holds_over_any_disk;
use swap_play::acts_are_runs;
use swap_trace::traces_are_whole;
use swap_world::over_any_ports;

/// However the threads of a played trace met, its acts are a run of the machine. The history that
/// the transcript prints is one of an array of pages that starts as zeros, and holds each caller's
/// answered calls once, in its order. It is exactly the entries that were seen, and a failure has
/// its cause. After each front of the acts a set bit means that the remote copy is the newest, and
/// a lent slab has one owner.
pub fn plays_keep_the_headline()
    ensures { PlaysKeepTheHeadline }
{
    acts_are_runs::<MemDisk, Harbor>();
    over_any_ports::<MemDisk, Harbor>();
    holds_over_any_disk::<MemDisk>();
    traces_are_whole();
}

/// A call for a trace that is told and within the limit, of which neither `source` nor `out` fails,
/// ends by a played trace's transcript or for want of memory, if it returns; and a text that is no
/// trace is refused by its first line at fault, or for want of memory.
pub fn shows_complete()
    ensures traces { ShowsComplete }
    ensures refuse { ShowsRefuse }
{}
