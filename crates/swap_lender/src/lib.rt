//! A lender: its slots, whom they are lent to, and which of them it takes back when its host wants
//! the memory.
#![tactic(auto)]

ghost use Rattle.swap_lender.specs.Calls.{AlwaysOwned, LeasesInOrder, SizesStay, LendsFreeSlots, ServedUntilDone, CheckedSpecsFit, LiveRounds};
ghost use Rattle.swap_lender.specs.Rows.{PageIn, LendsWithRoom, Revoked};

mod lender;
mod outbox;
mod peers;
mod slots;

pub use lender::LenderCore;
pub use outbox::Outbox;
use swap_base::{Lease, LenderSpec, Link, Slab};

/// How many leases a lender gives: the last one is the number before it.
pub const LEASES: u32 = 4_294_967_295;

/// Whether a message was one that its link may send now. After `End` the caller tells that the link
/// is gone.
#[derive(Clone, Copy, Debug, PartialEq, Eq)]
pub enum Served {
    Fine,
    End,
}

/// A slot: free, or held for a slab of a link by a lease, and perhaps told to go.
#[derive(Clone, Copy, Debug, PartialEq, Eq)]
pub enum SlotState {
    Free,
    Held {
        link: Link,
        slab: Slab,
        lease: Lease,
        evicting: bool,
    },
}

/// A link that stands, and whether it has greeted.
#[derive(Clone, Copy, Debug, PartialEq, Eq)]
pub struct Peer {
    pub link: Link,
    pub greeted: bool,
}

/// What a lender is made for: its slots, the bytes of a page, the pages of a slab, and how many
/// links may stand.
#[derive(Clone, Copy, Debug, PartialEq, Eq)]
pub struct Lending {
    pub spec: LenderSpec,
    pub page_bytes: u32,
    pub pages_per_slab: u32,
    pub links: u32,
}

/// What a lender tells the links of some slots: that it asks for their rates, or that it takes them
/// back.
#[derive(Clone, Copy, Debug, PartialEq, Eq)]
pub enum Notice {
    AskRates,
    Evict,
}

/// Of every list of calls: no two held slots have one lease, or one link and slab, and leases never
/// repeat until a restart. No call changes what a lender is made for. A slot that is lent was free,
/// and the end of a round takes no slot from a link. A lender may be made of every spec that was
/// checked. An open round waits only for slots that are held and not being evicted.
pub fn laws()
    ensures owned { AlwaysOwned }
    ensures leases { LeasesInOrder }
    ensures sizes { SizesStay }
    ensures lends { LendsFreeSlots }
    ensures served { ServedUntilDone }
    ensures specs { CheckedSpecsFit }
    ensures live { LiveRounds }
{}

/// Worked runs, computed over the definitions.
pub fn rows()
    ensures page_in { PageIn }
    ensures lends { LendsWithRoom }
    ensures revoked { Revoked }
{}
