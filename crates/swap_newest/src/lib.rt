//! A set bit means that the remote copy is the newest, and a lent slab has one owner, at every
//! moment.
#![tactic(auto)]

ghost use Rattle.swap_newest.specs.Laws.{AlwaysLent, Holds, HoldsAfterEach};
ghost use Rattle.swap_newest.specs.Rows.{BitFollowsTheNewest, DoneIntoAnEndedList, LossUnread, NewestCanFail, OwnedCanFail, PageAtALender, ReadBehindADroppedReply, ReplyLost, RevocationInFlight, SlotHoldsWhatWasCut};

use swap_disk::DiskPort;
use swap_link::Harbor;
use swap_table::ports_promise;
use swap_world::World;

/// Over the disk and the lenders in memory, after each front of every list of events, Rounds
/// included: a page whose bit is set is mapped over a link that is up, and where the lender's end
/// of it stands, the lender's slot holds the page's newest content, no write of it is under way and
/// nothing under way replaces it. No two held slots of a lender have one lease, or one link and
/// slab, and each slab that is mapped or drains over a standing link has its slot.
pub fn always_lent()
    ensures { AlwaysLent }
{}

/// So they do over any disk that was blank and lenders in memory as they are made, after every run
/// of events; and whatever event comes next, each of its sends is taken (no link is found down that
/// the device takes to be up), no lender sends what it may not, and none ends a link by what it is
/// sent: `Lied` and `GaveEnded` are never seen.
pub fn holds_over_any_disk<D: DiskPort>()
    ensures { HoldsAfterEach D.DiskPort }
{
    ports_promise::<D, Harbor>();
}

/// And in every world over any disk and lenders in memory.
pub fn harbor_law<D: DiskPort>(world: &World<D, Harbor>)
    ensures { Holds D.DiskPort world.now.core.device world.now.core.disk world.now.core.fabric }
{
    world.reached();
    holds_over_any_disk::<D>();
}

/// Worlds by hand: a bit is set where its page stands at a lender, and follows the newest page
/// through a slab that is taken back with a read and a write in flight, a reply that is lost, a
/// crash whose end was not read, a read behind a dropped reply, and a lease that is given back into
/// a list that has ended. The promise fails of a bit over an older page, of one with a write under
/// way, of two slots for one slab, and of a mapped slab without a slot.
pub fn rows()
    ensures at_a_lender { PageAtALender }
    ensures follows { BitFollowsTheNewest }
    ensures cut { SlotHoldsWhatWasCut }
    ensures revoked { RevocationInFlight }
    ensures reply_lost { ReplyLost }
    ensures loss_unread { LossUnread }
    ensures read_behind { ReadBehindADroppedReply }
    ensures given_up { DoneIntoAnEndedList }
    ensures newest_fails { NewestCanFail }
    ensures owned_fails { OwnedCanFail }
{}
