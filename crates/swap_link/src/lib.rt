//! Lenders in memory, and a link to each: what is sent arrives in order, and a link that ends hands
//! on a prefix.
#![tactic(auto)]

ghost use Rattle.swap_link.specs.Whole.{NewIsHarbor, AskKeeps};

mod channel;
mod harbor;
mod lane;

pub use harbor::Harbor;

/// A harbor as made may be called, and every call leaves one that may be called again.
pub fn calls_keep()
    ensures made { NewIsHarbor }
    ensures called { AskKeeps }
{}
