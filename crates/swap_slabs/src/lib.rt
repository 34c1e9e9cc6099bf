//! The states of the slabs: local, asking, borrowing, mapped or draining.
#![tactic(auto)]

ghost use Rattle.swap_slabs.specs.Kept.{SetsState, AllLocalKeeps, AskKeeps, AnswerKeeps, BorrowKeeps, LentKeeps, RefusedKeeps, BeginKeeps, SettledKeeps, EvictKeeps, LostKeeps};

mod row;
mod slabs;

pub use slabs::Slabs;
use swap_base::{Lease, Lender};

/// What is known of a lender that was asked.
#[derive(Clone, Copy, Debug, PartialEq, Eq)]
pub enum Reply {
    Waiting,
    Free(u32),
    Gone,
}

/// The lenders that a slab asks, one or two, with their replies.
#[derive(Clone, Copy, Debug, PartialEq, Eq)]
pub struct Pair {
    pub first: Lender,
    pub second: Option<Lender>,
    pub one: Reply,
    pub two: Reply,
}

/// Where a slab is.
#[derive(Clone, Copy, Debug, PartialEq, Eq)]
pub enum SlabState {
    Local,
    Asking(Pair),
    Borrowing {
        lender: Lender,
    },
    Mapped {
        lender: Lender,
        lease: Lease,
        flying: u32,
    },
    Draining {
        lender: Lender,
        lease: Lease,
        flying: u32,
    },
}

/// Which lender is taken of those that were asked.
#[derive(Clone, Copy, Debug, PartialEq, Eq)]
pub enum Chosen {
    Lender(Lender),
    Nobody,
}

/// Each move of a table of slabs keeps what a table is, and changes one slab alone, but for a
/// lender that is lost.
pub fn moves_keep()
    ensures sets { SetsState }
    ensures all_local { AllLocalKeeps }
    ensures ask { AskKeeps }
    ensures answer { AnswerKeeps }
    ensures borrow_from { BorrowKeeps }
    ensures lent { LentKeeps }
    ensures refused { RefusedKeeps }
    ensures begin { BeginKeeps }
    ensures settled { SettledKeeps }
    ensures evict { EvictKeeps }
    ensures lost { LostKeeps }
{}
