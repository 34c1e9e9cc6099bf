ghost use Rattle.std.specs.Prelude.{◌≡◌, ℕ, ◌+◌, ◌<◌, ◌≤◌, ◌++◌, false, [], ◌∷◌, length, IfOk, if◌then◌else◌};
ghost use Rattle.swap_wire.specs.declared.Msg.TheVariants as msg;
ghost use Rattle.swap_wire.specs.Fabric.{carries_page, parcel_of};
ghost use Rattle.swap_lender.specs.Outbox.{nothing_outgoing, outbox_with, first_message, first_page, pop_after};
ghost use Rattle.swap_lender.specs.Table.{message_of, tell_slot, parcels_told};
ghost use Rattle.swap_base.specs.declared.TheConstants.{MOST_SLOTS};

use crate::{Notice, SlotState};
use std::alloc::Global;
use std::marker::Model;
use swap_base::{Lease, Link, NoMemory};
use swap_choice::has_slot;
use swap_wire::Msg;

/// A message with the link it goes to.
#[derive(Clone, Copy)]
pub(crate) struct Letter {
    pub(crate) link: Link,
    pub(crate) msg: Msg,
}

/// What a call leaves to be sent, in order. All memory is taken at `make`.
///
/// One message at most carries a page, which stands beside the others.
#[derive(Drop)]
pub struct Outbox {
    letters: Vec<Letter>,
    page: Vec<u8>,
    evicted: u64,
    room: u32,
}

impl Model for Outbox {
    ghost use Rattle.std.specs.Prelude.{◌≤◌, vec_capacity, length};
    ghost use Rattle.swap_lender.specs.Outbox.{OutboxView};
    ghost use Rattle.swap_lender.specs.Letters.{parcels_in};

    ghost Value = { OutboxView };

    ghost view = { λ o.
        record {
          parcels = parcels_in o.page.items o.letters.items;
          evicted = o.evicted;
          room = o.room;
          page_bytes = length o.page.items;
        } };

    ghost invariant = { λ o. o.room ≤ vec_capacity o.letters };
}

fn message_of(notice: Notice, lease: Lease) -> Msg
    ensures value { result ≡ message_of notice lease }
    ensures page { carries_page result ≡ false }
{
    match notice {
        Notice::AskRates => Msg::AskRates { lease },
        Notice::Evict => Msg::Evict { lease },
    }
}

impl Outbox {
    /// An empty outbox for a lender of so many slots, or fewer, and pages of so many bytes.
    pub fn make(alloc: Global, slots: u32, page_bytes: u32) -> Result<Outbox, NoMemory>
        ensures { IfOk result (λ o. o ≡ nothing_outgoing slots page_bytes) }
    {
        let Ok(letters) = Vec::with_capacity(alloc, slots as usize) else {
            return Err(NoMemory);
        };
        let Ok(page) = vec![in alloc; 0; page_bytes as usize] else {
            return Err(NoMemory);
        };
        Ok(Outbox {
            letters,
            page,
            evicted: 0,
            room: slots,
        })
    }

    /// Takes out the first message with the link it goes to, and copies the page that it carries,
    /// if any. None exactly where the outbox is empty.
    pub fn pop(&mut self, page: &mut [u8]) -> Option<(Link, Msg)>
        requires { length page.old ≡ self.old.page_bytes }
        ensures message { result ≡ first_message self.old.parcels }
        ensures page { page.new ≡ first_page self.old.parcels page.old }
        ensures rest { self.new ≡ pop_after self.old }
    {
        if self.letters.is_empty() {
            return None;
        }
        let letter = self.letters.remove(0);
        copy_page(&self.page, &letter.msg, page);
        Some((letter.link, letter.msg))
    }

    /// The set of slots that the last call told to go, bit i for slot i.
    pub fn evicted(&self) -> u64
        ensures { result ≡ self.now.evicted }
    {
        self.evicted
    }

    /// A call begins: no slot is told to go.
    pub(crate) fn begin(&mut self)
        ensures { self.new ≡ outbox_with self.old self.old.parcels 0 }
    {
        self.evicted = 0;
    }

    /// A message without a page.
    pub(crate) fn put(&mut self, link: Link, msg: Msg)
        requires room { length self.old.parcels < self.old.room }
        requires plain { carries_page msg ≡ false }
        ensures { self.new
            ≡ outbox_with self.old
            (self.old.parcels ++ (link, parcel_of msg []) ∷ []) self.old.evicted }
    {
        self.letters.push_reserved(Letter { link, msg });
    }

    /// A page as the only message.
    pub(crate) fn put_page(&mut self, link: Link, lease: Lease, place: u32, page: &[u8])
        requires room { 1 ≤ self.old.room }
        requires empty { self.old.parcels ≡ [] }
        requires page { length page.now ≡ self.old.page_bytes }
        ensures { self.new
            ≡ outbox_with self.old
            ((link, parcel_of (msg.PageIs lease place) page.now) ∷ []) self.old.evicted }
    {
        self.page.as_mut_slice().copy_from_slice(page);
        self.letters.push_reserved(Letter {
            link,
            msg: Msg::PageIs { lease, place },
        });
    }

    fn tell_slot(&mut self, notice: Notice, has: bool, state: SlotState)
        requires { length self.old.parcels < self.old.room }
        ensures { self.new
            ≡ outbox_with self.old
            (self.old.parcels ++ tell_slot notice has state) self.old.evicted }
    {
        if let SlotState::Held { link, lease, .. } = state {
            if has {
                self.put(link, message_of(notice, lease));
            }
        }
    }

    /// A message about each held slot of a set, ascending, on the slot's link.
    pub(crate) fn tell(&mut self, notice: Notice, set: u64, slots: &[SlotState])
        requires few { length slots.now ≤ MOST_SLOTS }
        requires room { length slots.now ≤ self.old.room }
        requires empty { self.old.parcels ≡ [] }
        ensures { self.new
            ≡ outbox_with self.old (parcels_told notice set 0 slots.now) self.old.evicted }
    {
        for slot in 0..slots.len() {
            self.tell_slot(notice, has_slot(set, slot as u32), slots[slot]);
        }
    }

    /// The slots of a set are told to go.
    pub(crate) fn evict(&mut self, set: u64, slots: &[SlotState])
        requires few { length slots.now ≤ MOST_SLOTS }
        requires room { length slots.now ≤ self.old.room }
        requires empty { self.old.parcels ≡ [] }
        ensures { self.new ≡ outbox_with self.old (parcels_told Notice.Evict set 0 slots.now) set }
    {
        self.tell(Notice::Evict, set, slots);
        self.evicted = set;
    }
}

/// A message's page where it carries one.
fn copy_page(from: &[u8], msg: &Msg, page: &mut [u8])
    requires { length page.old ≡ length from.now }
    ensures { page.new ≡ (if carries_page msg.now then from.now else page.old) }
{
    if matches!(msg, Msg::Write { .. } | Msg::PageIs { .. }) {
        page.copy_from_slice(from);
    }
}
