ghost use Rattle.std.specs.Prelude.{◌≡◌, ℕ, ◌^◌, ◌≤◌, ◌<◌, map, count_by, position, length, bit_or, if◌then◌else◌};
ghost use Rattle.std.specs.List.{list_any};
ghost use Rattle.swap_choice.specs.Slots.{set_of};
ghost use Rattle.swap_evict.specs.Rounds.{leave};
ghost use Rattle.swap_lender.specs.Lender.{is_free, is_held, is_evicting, is_staying, is_of, is_for, has_lease, numbers_where};
ghost use Rattle.swap_lender.specs.Table.{mark_slot, mark_slots, free_slot, round_left};
ghost use Rattle.swap_base.specs.declared.TheConstants.{MOST_SLOTS};

use crate::SlotState;
use swap_base::{Lease, Link, Slab};
use swap_choice::{has_slot, with_slot};
use swap_evict::EvictRound;

pub(crate) fn is_free(state: SlotState) -> bool
    ensures { result ≡ is_free state }
{
    matches!(state, SlotState::Free)
}

pub(crate) fn is_evicting(state: SlotState) -> bool
    ensures { result ≡ is_evicting state }
{
    match state {
        SlotState::Free => false,
        SlotState::Held { evicting, .. } => evicting,
    }
}

/// Whether a slot is held and not being evicted.
fn is_staying(state: SlotState) -> bool
    ensures { result ≡ is_staying state }
{
    match state {
        SlotState::Free => false,
        SlotState::Held { evicting, .. } => !evicting,
    }
}

/// Whether a slot is held for a link.
fn is_of(link: Link, state: SlotState) -> bool
    ensures { result ≡ is_of link state }
{
    match state {
        SlotState::Free => false,
        SlotState::Held { link: other, .. } => other.0 == link.0,
    }
}

/// Whether a slot is held for a link and a slab.
fn is_for(link: Link, slab: Slab, state: SlotState) -> bool
    ensures { result ≡ is_for link slab state }
{
    match state {
        SlotState::Free => false,
        SlotState::Held {
            link: other,
            slab: held,
            ..
        } => other.0 == link.0 && held.0 == slab.0,
    }
}

/// Whether a slot is held for a link by a lease.
fn has_lease(link: Link, lease: Lease, state: SlotState) -> bool
    ensures { result ≡ has_lease link lease state }
{
    match state {
        SlotState::Free => false,
        SlotState::Held {
            link: other,
            lease: held,
            ..
        } => other.0 == link.0 && held.0 == lease.0,
    }
}

/// How many slots are held.
pub(crate) fn count_held(slots: &[SlotState]) -> usize
    ensures { result ≡ count_by is_held slots.now }
{
    slots.iter().filter(|state| !is_free(**state)).count()
}

/// The lowest free slot.
pub(crate) fn lowest_free(slots: &[SlotState]) -> Option<usize>
    ensures { result ≡ position is_free slots.now }
{
    slots.iter().position(|state| is_free(*state))
}

/// The slot that a link has by a lease.
pub(crate) fn slot_by_lease(slots: &[SlotState], link: Link, lease: Lease) -> Option<usize>
    ensures { result ≡ position (has_lease link lease) slots.now }
{
    slots
        .iter()
        .position(|state| has_lease(link, lease, *state))
}

/// Whether a link has a slot for a slab.
pub(crate) fn has_slab(slots: &[SlotState], link: Link, slab: Slab) -> bool
    ensures { result ≡ list_any (is_for link slab) slots.now }
{
    slots.iter().any(|state| is_for(link, slab, *state))
}

/// The set with this slot where it is to have it.
fn with_where(set: u64, slot: u32, has: bool) -> u64
    requires { slot < MOST_SLOTS }
    ensures { result ≡ (if has then bit_or set (2 ^ slot) else set) }
{
    if has { with_slot(set, slot) } else { set }
}

/// The set of the slots that are held and not being evicted.
pub(crate) fn staying(slots: &[SlotState]) -> u64
    requires { length slots.now ≤ MOST_SLOTS }
    ensures { result ≡ set_of (numbers_where is_staying 0 slots.now) }
{
    let mut set = 0;
    for slot in 0..slots.len() {
        set = with_where(set, slot as u32, is_staying(slots[slot]));
    }
    set
}

/// A slot is marked as being evicted where it is told to go.
fn mark_slot(told: bool, state: SlotState) -> SlotState
    ensures { result ≡ mark_slot told state }
{
    match state {
        SlotState::Held {
            link,
            slab,
            lease,
            ..
        } if told => SlotState::Held {
            link,
            slab,
            lease,
            evicting: true,
        },
        state => state,
    }
}

/// Each held slot of the set is marked as being evicted.
pub(crate) fn mark(slots: &mut [SlotState], set: u64)
    requires { length slots.old ≤ MOST_SLOTS }
    ensures { slots.new ≡ mark_slots set 0 slots.old }
{
    for slot in 0..slots.len() {
        slots[slot] = mark_slot(has_slot(set, slot as u32), slots[slot]);
    }
}

fn freed(link: Link, state: SlotState) -> SlotState
    ensures { result ≡ free_slot link state }
{
    if is_of(link, state) {
        SlotState::Free
    } else {
        state
    }
}

/// Each slot of a link is free.
pub(crate) fn free_all(slots: &mut [SlotState], link: Link)
    ensures { slots.new ≡ map (λ state. free_slot link state) slots.old }
{
    for state in slots.iter_mut() {
        *state = freed(link, *state);
    }
}

/// A slot is gone for the round where its link is gone.
fn leave_where(round: &mut EvictRound, slot: u32, goes: bool)
    requires { slot < MOST_SLOTS }
    ensures { round.new ≡ (if goes then leave slot round.old else round.old) }
{
    if goes {
        round.slot_gone(slot);
    }
}

/// The slots of a link are gone for the round.
pub(crate) fn leave(round: &mut EvictRound, slots: &[SlotState], link: Link)
    requires { length slots.now ≤ MOST_SLOTS }
    ensures { round.new ≡ round_left link slots.now round.old }
{
    for slot in 0..slots.len() {
        leave_where(round, slot as u32, is_of(link, slots[slot]));
    }
}
