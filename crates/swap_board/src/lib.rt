//! A world that callers, pumps and an operator take in turns: each call makes exactly its events.
#![tactic(auto)]

ghost use Rattle.swap_board.specs.Laws.{RoundsBetween};

mod board;
mod works;

pub use board::{Begun, Board, Naming, Operated};
pub use works::{Moved, PACE, Point};

/// Of any 257 calls, a Round stands between the first and the last.
pub fn rounds_between()
    ensures { RoundsBetween }
{}
