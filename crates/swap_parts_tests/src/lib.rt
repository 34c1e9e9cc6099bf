//! Tests of the crates below the drill and the player: what no clause of theirs says.
#![tactic(auto)]

#[cfg(test)]
mod tests;
