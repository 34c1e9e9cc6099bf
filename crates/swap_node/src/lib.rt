//! A lender with the replies of its links: what is delivered to it, and what it writes in answer.
#![tactic(auto)]

mod lines;
mod node;
mod replies;
mod send;

pub use node::{Delivered, Ear, Node};
pub use replies::Replies;
