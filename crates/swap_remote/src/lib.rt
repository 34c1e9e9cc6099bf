//! What a device keeps of its lenders: which pages remote memory has, where each slab is, and the
//! requests under way.
#![tactic(auto)]

mod remote;

pub use remote::Remote;
