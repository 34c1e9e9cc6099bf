//! The choice between lenders and between slots, by the picks of a word.
#![tactic(auto)]

mod lenders;
mod sets;
mod slots;

pub use lenders::{Asked, Side, better, first_pick, two_lenders};
pub use sets::{least, picked};
pub use slots::{SLOTS, has_slot, slot_at, slot_count, with_slot, without_slot};
