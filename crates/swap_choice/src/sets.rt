ghost use Rattle.std.specs.Prelude.{ℕ, ◌≡◌, ◌<◌, ◌≤◌, ◌⊎◌, take, IsTrue};
ghost use Rattle.swap_choice.specs.Picks.{picks};
ghost use Rattle.swap_choice.specs.Slots.{has, slots, size, set_of};
ghost use Rattle.swap_choice.specs.Least.{IsBelow, IsLeast, least_of};

use super::{SLOTS, first_pick, has_slot, slot_at, slot_count, with_slot, without_slot};

/// The set of the word's first `count` picks from the slots of a set, ascending.
pub fn picked(word: u64, held: u64, count: u32) -> u64
    requires { count ≤ size held }
    ensures picks { result ≡ set_of (take count (picks word (slots held))) }
    ensures subset { (slot : ℕ) → slot < 64 → IsTrue (has result slot) → IsTrue (has held slot) }
    ensures size { size result ≡ count }
{
    let mut rest = word;
    let mut left = held;
    let mut chosen = 0;
    for _taken in 0..count {
        let (place, next) = first_pick(rest, slot_count(left) as usize);
        let slot = slot_at(left, place).unwrap();
        chosen = with_slot(chosen, slot);
        left = without_slot(left, slot);
        rest = next;
    }
    chosen
}

/// The set of the `count` least slots of a set by (rate, slot).
pub fn least(rates: &[u64; 64], among: u64, count: u32) -> u64
    requires { count ≤ size among }
    ensures least { IsLeast rates.now among count result }
    ensures value { result ≡ least_of rates.now among count }
{
    let mut left = among;
    let mut chosen = 0;
    for _taken in 0..count {
        let slot = least_slot(rates, left);
        chosen = with_slot(chosen, slot);
        left = without_slot(left, slot);
    }
    chosen
}

/// The least slot of a set by (rate, slot).
fn least_slot(rates: &[u64; 64], set: u64) -> u32
    requires { 0 < size set }
    ensures range { result < 64 }
    ensures member { IsTrue (has set result) }
    ensures least { (slot : ℕ) → slot < 64 → IsTrue (has set slot)
        → (slot ≡ result) ⊎ IsBelow rates.now result slot }
{
    let mut best = slot_at(set, 0).unwrap();
    for slot in 0..SLOTS {
        if has_slot(set, slot) && rates[slot as usize] < rates[best as usize] {
            best = slot;
        }
    }
    best
}
