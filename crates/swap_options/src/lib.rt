//! The words behind `lend` and `play`: which of them give what a lender lends and where it listens,
//! and what a trace is played with.
#![tactic(auto)]

ghost use Rattle.swap_options.specs.LendRows.{LendRows};
ghost use Rattle.swap_options.specs.Lendable.{LimitsLetLend};
ghost use Rattle.swap_options.specs.PlayRows.{PlayRows};

mod lend;
mod parsing;
mod play;

pub use lend::{LendOptions, read_lend};
pub use parsing::OptionsRefused;
pub use play::{PlayOptions, read_play};

/// How many links are served at most.
pub const MOST_SERVED: u32 = 64;

/// What keeps the limits may be lent: a lender may be made of it, and all its slots' bytes can be
/// counted.
pub fn limits_let_lend()
    ensures { LimitsLetLend }
{}

/// Words and what they give, computed over the definition.
pub fn rows()
    ensures lend { LendRows }
    ensures play { PlayRows }
{}
