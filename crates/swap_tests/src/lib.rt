//! Tests of the crates over a machine in memory, from the drill and the player up to a played
//! trace: what no clause of theirs says.
#![tactic(auto)]

#[cfg(test)]
mod tests;
