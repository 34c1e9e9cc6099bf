ghost use Rattle.std.specs.Prelude.{ℕ, ◌≡◌, ◌^◌, ◌<◌, ◌==◌, ◌||◌, ◌&&◌, not, slice_get, bit_or};
ghost use Rattle.swap_choice.specs.Slots.{has, slots, size};

/// How many slots a set may name: bit i of a word stands for slot i.
pub const SLOTS: u32 = 64;

/// Whether a set has a slot.
pub fn has_slot(set: u64, slot: u32) -> bool
    ensures { result ≡ has set slot }
{
    slot < SLOTS && set >> slot & 1 == 1
}

/// The set and this slot.
pub fn with_slot(set: u64, slot: u32) -> u64
    requires { slot < 64 }
    ensures value { result ≡ bit_or set (2 ^ slot) }
    ensures slots { (i : ℕ) → i < 64 → has result i ≡ (i == slot || has set i) }
{
    set | 1 << slot
}

/// The set without this slot.
pub fn without_slot(set: u64, slot: u32) -> u64
    requires { slot < 64 }
    ensures { (i : ℕ) → i < 64 → has result i ≡ (not (i == slot) && has set i) }
{
    set & !(1 << slot)
}

/// How many slots a set has.
pub fn slot_count(set: u64) -> u32
    ensures { result ≡ size set }
{
    set.count_ones()
}

/// A slot of a set by its place in the ascending order.
pub fn slot_at(set: u64, place: usize) -> Option<u32>
    ensures { result ≡ slice_get (slots set) place }
{
    (0..SLOTS).filter(|slot| has_slot(set, *slot)).nth(place)
}
