//! A round of batch eviction: more slots are asked for their activity than are evicted, and the
//! least active go.
#![tactic(auto)]

ghost use Rattle.std.specs.Prelude.{◌≡◌, ◌<◌, IsTrue, MatchOption};
ghost use Rattle.swap_evict.specs.Rounds.{round_at_start, answer, leave, waits_for, slots_to_evict, IsOpen, IsEvicted};

use std::marker::Model;
use swap_choice::{has_slot, least, slot_count, with_slot};

/// A round of batch eviction. A set of slots is a word, bit i for slot i.
#[derive(Debug, Drop)]
pub struct EvictRound {
    asked: u64,
    count: u32,
    answered: u64,
    gone: u64,
    values: [u64; 64],
}

impl Model for EvictRound {
    ghost use Rattle.std.specs.Prelude.{◌^◌, ◌<◌};
    ghost use Rattle.swap_evict.specs.Rounds.{Round};

    ghost Value = { Round };

    ghost view = { λ r.
        record {
          asked = r.asked;
          count = r.count;
          answered = r.answered;
          gone = r.gone;
          values = r.values;
        } };

    ghost invariant = { λ r. (r.asked < 2 ^ 64) × (r.answered < 2 ^ 64) × (r.gone < 2 ^ 64) };
}

impl EvictRound {
    /// A round that asks these slots, to evict `count` of them.
    pub fn make(asked: u64, count: u32) -> EvictRound
        ensures { result ≡ round_at_start asked count }
    {
        EvictRound {
            asked,
            count,
            answered: 0,
            gone: 0,
            values: [0; 64],
        }
    }

    /// The slot answered with its value.
    pub fn rate_came(&mut self, slot: u32, value: u64)
        requires range { slot < 64 }
        requires waits { IsTrue (waits_for self.old slot) }
        ensures { self.new ≡ answer slot value self.old }
    {
        self.values[slot as usize] = value;
        self.answered = with_slot(self.answered, slot);
    }

    /// The slot isn't held any more.
    pub fn slot_gone(&mut self, slot: u32)
        requires { slot < 64 }
        ensures { self.new ≡ leave slot self.old }
    {
        self.gone = with_slot(self.gone, slot);
    }

    /// Whether the slot's answer is waited for.
    pub fn waits_for(&self, slot: u32) -> bool
        ensures { result ≡ waits_for self.now slot }
    {
        has_slot(self.asked, slot) && !has_slot(self.answered, slot) && !has_slot(self.gone, slot)
    }

    /// The slots to evict: the least active of those that answered and aren't gone. None exactly
    /// where an answer is waited for.
    pub fn ready(&self) -> Option<u64>
        ensures value { result ≡ slots_to_evict self.now }
        ensures evicted { MatchOption result (IsOpen self.now)
            (λ evicted. IsEvicted self.now evicted) }
    {
        if self.asked & !self.answered & !self.gone != 0 {
            return None;
        }
        let standing = self.asked & self.answered & !self.gone;
        let count = self.count.min(slot_count(standing));
        Some(least(&self.values, standing, count))
    }
}
