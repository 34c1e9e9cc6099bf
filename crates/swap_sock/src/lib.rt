//! Where a paging device and a lender get their disks, links and doors from: a host, and doors that
//! links come in by.
#![tactic(auto)]

ghost use Rattle.swap_sock.specs.AddressRows.{AddressRows};

mod address;
mod host;
mod memory;

pub use address::Address;
pub use host::{Door, Host, HostFault, LinkEnd};
pub use memory::{Counts, MemDoor, MemHost};

/// Texts and their addresses, computed over the definition.
pub fn rows()
    ensures { AddressRows }
{}
