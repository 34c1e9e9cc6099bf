//! The entries of a history, counted by kind and by where a page came from.
ghost use Rattle.std.specs.Prelude.{◌≡◌};
ghost use Rattle.swap_drill.specs.Summary.{count_op, counted_from, tally_of, HasRoomToCount};

use swap_base::{EntryNo, Origin};
use swap_record::{Op, Record};

/// How many entries there are of each kind, and how many page-ins from each origin.
#[derive(Clone, Copy, Debug, PartialEq, Eq)]
pub(crate) struct Tally {
    pub outs: u32,
    pub ins: u32,
    pub faults: u32,
    pub zero: u32,
    pub queue: u32,
    pub disk: u32,
    pub lender: u32,
}

const NOTHING: Tally = Tally {
    outs: 0,
    ins: 0,
    faults: 0,
    zero: 0,
    queue: 0,
    disk: 0,
    lender: 0,
};

// One more page-in, by where its page came from.
fn counted_from(tally: Tally, origin: Origin) -> Tally
    requires { HasRoomToCount tally }
    ensures { result ≡ counted_from tally origin }
{
    let ins = tally.ins + 1;
    match origin {
        Origin::Zero => Tally {
            ins,
            zero: tally.zero + 1,
            ..tally
        },
        Origin::Queue => Tally {
            ins,
            queue: tally.queue + 1,
            ..tally
        },
        Origin::Disk => Tally {
            ins,
            disk: tally.disk + 1,
            ..tally
        },
        Origin::Lender(_) => Tally {
            ins,
            lender: tally.lender + 1,
            ..tally
        },
    }
}

// One more entry.
fn counted(tally: Tally, op: Op) -> Tally
    requires { HasRoomToCount tally }
    ensures { result ≡ count_op tally op }
{
    match op {
        Op::PageOut => Tally {
            outs: tally.outs + 1,
            ..tally
        },
        Op::PageIn { origin, .. } => counted_from(tally, origin),
        Op::Failed { .. } => Tally {
            faults: tally.faults + 1,
            ..tally
        },
    }
}

/// Counts a history's entries.
pub(crate) fn count_entries(history: &Record) -> Tally
    ensures { result ≡ tally_of history.now.history }
{
    let mut tally = NOTHING;
    'entries: for number in 0..history.len() {
        let entry = history.entry(EntryNo(number));
        tally = counted(tally, entry.op);
    }
    tally
}
