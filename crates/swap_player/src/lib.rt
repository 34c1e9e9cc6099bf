//! Calls from threads over one world in the lock of turns.
#![tactic(auto)]

mod paging;
mod points;
mod swap;

pub use paging::SwapFault;
pub use swap::{Gate, Pumped, Swap};
