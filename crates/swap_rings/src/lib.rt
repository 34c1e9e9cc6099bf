//! The links of a device: which are up, and the requests under way on each.
#![tactic(auto)]

mod link;
mod rings;

pub use rings::Rings;
use swap_base::{Caller, EntryNo, Page, Slab};

/// A request to a lender that an answer is waited for.
#[derive(Clone, Copy, Debug, PartialEq, Eq)]
pub enum Request {
    Query { slab: Slab },
    Borrow { slab: Slab },
    Write { page: Page, entry: EntryNo },
    Read { caller: Caller, page: Page },
}
