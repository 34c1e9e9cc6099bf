//! Doors that links come in by over TCP.
#![tactic(auto)]

mod outgoing;
mod streams;
mod tcp_door;

pub use streams::{TcpSink, TcpSource};
pub use tcp_door::{TcpDoor, socket_address};
