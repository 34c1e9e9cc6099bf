//! How active a slab is: a moving average of its hits in each period, in fixed point.
#![tactic(auto)]

ghost use Rattle.std.specs.Prelude.{ℕ, ◌≡◌, ◌*◌, ◌+◌, ◌-◌, ◌^◌, ◌<◌, ◌≤◌, ◌↔◌, IsTrue, List};
ghost use Rattle.swap_activity.specs.Rates.{greatest, average, ceiling, activity_at_start, hit, end_period, IsNearExact};

use std::marker::Model;

/// One hit in each period, as a value.
pub const ONE: u64 = 65_536;

/// A fifth of the hits and four fifths of the value, rounded down. The value is at most `ONE *
/// (2^32 - 1)`, and so is the result.
pub fn average(value: u64, m: u32) -> u64
    requires { value ≤ ONE * (2 ^ 32 - 1) }
    ensures average { result ≡ average value m }
    ensures within { result ≤ ONE * (2 ^ 32 - 1) }
{
    (ONE * u64::from(m) + 4 * value) / 5
}

/// A moving average of the hits in each period.
#[derive(Clone, Copy, Debug, PartialEq, Eq)]
pub struct Rate {
    value: u64,
    hits: u32,
}

impl Model for Rate {
    ghost use Rattle.std.specs.Prelude.{◌≤◌};
    ghost use Rattle.swap_activity.specs.Rates.{Activity, greatest};

    ghost Value = { Activity };

    ghost view = { λ r. record { value = r.value; hits = r.hits } };

    ghost invariant = { λ r. r.value ≤ greatest };

    ghost inverse = { λ a. record { value = a.value; hits = a.hits } };
}

impl Rate {
    /// A rate of no hits.
    pub fn new() -> Rate
        ensures { result ≡ activity_at_start }
    {
        Rate { value: 0, hits: 0 }
    }

    /// One more hit in this period, up to 2^32 - 1.
    pub fn hit(&mut self)
        ensures { self.new ≡ hit self.old }
    {
        self.hits = self.hits.saturating_add(1);
    }

    /// Ends the period: the hits go into the average.
    pub fn period(&mut self)
        ensures { self.new ≡ end_period self.old }
    {
        self.value = average(self.value, self.hits);
        self.hits = 0;
    }

    /// The average, `ONE` for each hit in a period.
    pub fn value(&self) -> u64
        ensures value { result ≡ self.now.value }
        ensures within { result ≤ ONE * (2 ^ 32 - 1) }
    {
        self.value
    }

    /// Whether the average is at least `hot` hits in a period.
    pub fn is_hot(&self, hot: u32) -> bool
        ensures { IsTrue result ↔ (hot * ONE ≤ self.now.value) }
    {
        self.value >= u64::from(hot) * ONE
    }

    /// The average as whole hits, rounded up.
    pub fn ceiling(&self) -> u64
        ensures ceiling { result ≡ ceiling self.now.value }
        ensures covers { self.now.value ≤ result * ONE }
        ensures least { (n : ℕ) → self.now.value ≤ n * ONE → result ≤ n }
    {
        self.value.div_ceil(ONE)
    }
}

/// The value of a rate is the exact moving average but for less than 5 units, whatever hits came in
/// its periods.
pub fn near_exact()
    ensures { (periods : List ℕ) → IsNearExact periods }
{}
