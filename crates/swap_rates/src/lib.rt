//! How active each slab is, and which local slab is hottest.
#![tactic(auto)]

mod rates;

pub use rates::Rates;
