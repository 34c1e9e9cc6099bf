//! A host over files and sockets: disks in files, links to lenders and doors over TCP.
#![tactic(auto)]

mod opener;
mod real_host;

pub use real_host::RealHost;
