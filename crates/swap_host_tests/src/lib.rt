//! Tests of the crates over hosts, files and sockets, up to the calls behind `lend` and `play`:
//! what no clause of theirs says.
#![tactic(auto)]

#[cfg(test)]
mod tests;
