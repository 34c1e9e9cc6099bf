//! The lock of turns: a ticket lock round one value whose meaning is a history.
#![tactic(auto)]

ghost use Rattle.swap_turn.specs.Laws.{NothingAdded, OneAdded, MoreAdded, EarlierStill};

mod bells;
mod lends;
mod lock;
mod plays;
mod view;

pub use lock::{Pass, Turn, TurnLock};
pub use view::{Opening, Stage, Told, Turning, View};

/// How many passes a lock may have.
pub const MOST_SEATS: u32 = 64;

/// What a turn may add to the history.
pub fn laws()
    ensures nothing { NothingAdded }
    ensures one { OneAdded }
    ensures more { MoreAdded }
    ensures earlier { EarlierStill }
{}
