//! Links to lenders over TCP.
#![tactic(auto)]

mod opening;
mod post;
mod reader;
mod socket_fabric;
mod writer;

pub use opening::NotOpened;
pub use post::{Arrival, Item};
pub use socket_fabric::SocketFabric;
