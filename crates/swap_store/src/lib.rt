//! Pages in one piece of memory: blocks one after another, and slabs of pages.
#![tactic(auto)]

mod blocks;
mod bytes;
mod slabs;

pub use blocks::Blocks;
pub use slabs::Slabs;
