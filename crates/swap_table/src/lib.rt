//! The device's table: what each of its calls does, asks of disk and fabric, and answers.
#![tactic(auto)]

ghost use Rattle.swap_table.specs.Laws.{EachCallKeeps, NewAgrees};
ghost use Rattle.swap_table.specs.Branches.{LiesEndTheLink, LeaseInUse, WriteFindsTheLinkDown, ReadFindsTheLinkDown, BorrowFindsTheLinkDown, GreetingFindsTheLinkDown, QueryFindsTheLinkDown, SlabsAreGivenBack, LossMakesTheChoice};
ghost use Rattle.swap_table.specs.Promises.{FollowsItsMoves, Promises};

use swap_base::{Caller, EntryNo, Lender, Page, Slab, Via};
use swap_disk::DiskPort;
use swap_wire::{Fabric, Msg};

/// How many links may be made.
pub const MOST_LINKS: u32 = 4_294_967_295;

/// What a page-out's first step answers.
#[derive(Clone, Copy, Debug, PartialEq, Eq)]
pub enum OutStep {
    Done {
        entry: EntryNo,
        sent: Option<Lender>,
    },
    Room,
}

/// What a page-in's first step answers.
#[derive(Clone, Copy, Debug, PartialEq, Eq)]
pub enum InStep {
    Done { entry: EntryNo },
    Wait { via: Via },
}

/// What a later step of a call answers.
#[derive(Clone, Copy, Debug, PartialEq, Eq)]
pub enum Step {
    Done {
        entry: EntryNo,
        sent: Option<Lender>,
    },
    Room,
    Wait {
        via: Via,
    },
    Again {
        via: Via,
    },
    Fault {
        entry: EntryNo,
        since: u64,
        at: u64,
    },
}

/// What became of an operation that the disk gave back.
#[derive(Clone, Copy, Debug, PartialEq, Eq)]
pub enum DiskStep {
    Nothing,
    Written { page: Page, entry: EntryNo },
    Kept { page: Page, entry: EntryNo },
    Dropped { page: Page, entry: EntryNo },
    Came { caller: Caller, page: Page },
    Failed { caller: Caller, page: Page },
}

/// A slab that was asked for, of one lender or of two.
#[derive(Clone, Copy, Debug, PartialEq, Eq)]
pub struct Placed {
    pub slab: Slab,
    pub first: Lender,
    pub second: Option<Lender>,
}

/// What became of a take from a link.
#[derive(Clone, Copy, Debug, PartialEq, Eq)]
pub enum LinkStep {
    Nothing,
    Got(Msg),
    Lost,
    Lied,
}

/// What any disk and any fabric promise of their moves.
pub fn ports_promise<D: DiskPort, F: Fabric>()
    ensures disk { FollowsItsMoves D.DiskPort }
    ensures fabric { Promises F.Fabric }
{}

/// Whatever disk and fabric answer, what a device, its disk and its fabric agree on holds after
/// each call where it held before. Any disk and any fabric may stand below.
pub fn calls_keep<D: DiskPort, F: Fabric>()
    ensures each { EachCallKeeps D.DiskPort F.Fabric }
    ensures new { NewAgrees D.DiskPort F.Fabric }
{
    ports_promise::<D, F>();
}

/// Branches of the table that no script reaches, over a fabric that is a list of answers.
pub fn branches()
    ensures lies { LiesEndTheLink }
    ensures lease_in_use { LeaseInUse }
    ensures write { WriteFindsTheLinkDown }
    ensures read { ReadFindsTheLinkDown }
    ensures borrow { BorrowFindsTheLinkDown }
    ensures greeting { GreetingFindsTheLinkDown }
    ensures query { QueryFindsTheLinkDown }
    ensures given_back { SlabsAreGivenBack }
    ensures loss { LossMakesTheChoice }
{}
