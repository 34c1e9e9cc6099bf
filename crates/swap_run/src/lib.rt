//! The top calls of the program.
#![tactic(auto)]

ghost use Rattle.swap_run.specs.Checks.{ChecksTranscripts, ChecksRefuse};
ghost use Rattle.swap_run.specs.Clause.{Completes, DrillsComplete};
ghost use Rattle.swap_run.specs.Rows.{QueueRows, DiskRows, LenderRows, LinkRows, HotSlabIsPlacedByARound, RefusedRows};
ghost use Rattle.swap_run.specs.Run.{FailsWithTheDisk, ScriptsKeepTheHeadline};

mod check;
mod drilling;
mod print;
mod run;
mod tell;

pub use print::print_headers;
pub use run::{hand_on_rest, has_failed, lenders_of, run_lab, run_lab_in_blocks, status_of};
pub use swap_drill::{DrillSummary, drill};
use swap_newest::always_lent;
use swap_record::passes_to_prefixes;
use swap_script::{ScriptRefused, events_in_range, lenders_may_lend, pages_are_whole};
use swap_world::{always_legal, each_call_once, entries_are_seen};
pub use tell::tell as tell_ending;

/// What the program's words ask for.
#[derive(Clone, Copy, Debug, PartialEq, Eq)]
pub enum Command {
    RunScript,
    CheckTranscript,
    RunDrill { number: u64, calls: u32 },
}

/// How a call of the program ends.
#[derive(Clone, Copy, Debug, PartialEq, Eq)]
pub enum Ending {
    Done,
    Faulted,
    Usage,
    ReadFailed,
    WriteFailed,
    Refused(ScriptRefused),
    NoMemory,
    NotLegal,
    HostFailed,
    TooLong,
}

/// Whatever a script's events are and whatever fails, the history that its transcript prints is one
/// of an array of pages that starts as zeros, and holds each caller's answered calls once, in its
/// order. It is exactly the entries that were seen, and a failure has its cause: the counts of its
/// own call, and for a page-in its own failed read. After each front of the events a set bit means
/// that the remote copy is the newest, and a lent slab has one owner.
pub fn scripts_keep_the_headline()
    ensures { ScriptsKeepTheHeadline }
{
    always_legal();
    each_call_once();
    entries_are_seen();
    always_lent();
    events_in_range();
    lenders_may_lend();
    pages_are_whole();
}

/// A script's call fails only where the local disk failed: where no disk operation was seen to
/// fail, no call failed.
pub fn fails_with_the_disk()
    ensures { FailsWithTheDisk }
{
    entries_are_seen();
    events_in_range();
    lenders_may_lend();
    pages_are_whole();
}

/// A call for a script that is told and within the limit, of which neither `source` nor `out`
/// fails, ends by the script's transcript or for want of memory.
pub fn completes()
    ensures { Completes }
{}

/// A check of a transcript that is told and within the limit, of which neither `source` nor `out`
/// fails, ends as legal exactly where the transcript is, else as not legal, or for want of memory;
/// and a text that is none is refused by its first line at fault, or for want of memory.
pub fn checks_complete()
    ensures transcripts { ChecksTranscripts }
    ensures refuse { ChecksRefuse }
{
    passes_to_prefixes();
}

/// A drill whose `out` doesn't fail ends with its summary, or for want of memory.
pub fn drills_complete()
    ensures { DrillsComplete }
{}

/// Scripts and their transcripts, byte by byte, and texts that are refused.
pub fn rows()
    ensures queue { QueueRows }
    ensures disk { DiskRows }
    ensures lender { LenderRows }
    ensures links { LinkRows }
    ensures round { HotSlabIsPlacedByARound }
    ensures refused { RefusedRows }
{}
