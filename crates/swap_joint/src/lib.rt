//! What a device agrees on with the links to its lenders and with what the lenders hold.
#![tactic(auto)]

ghost use Rattle.swap_joint.specs.Lenders.{LendersKeep, TurnsKeepSeats};

/// Whatever is called of lenders in memory, from the moment that they are made: each has as many
/// slots as its spec says; no two of its held slots have one lease, or one link and slab; and a
/// round that is open waits for slots that were not told to go. A link keeps each slot that was
/// lent to it, by its lease and for its slab, through each message of its own but the one that
/// gives the lease back, and through the measures of the lender's host.
pub fn lenders_keep()
    ensures harbor { LendersKeep }
    ensures turns { TurnsKeepSeats }
{}
