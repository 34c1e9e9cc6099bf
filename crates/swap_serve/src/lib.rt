//! A lender behind a door: it takes links and hears each in a thread.
#![tactic(auto)]

mod links;
mod listener;
mod slot;

pub use links::{NodeFault, serve};
