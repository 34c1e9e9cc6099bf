ghost use Rattle.std.specs.Prelude.{◌≡◌, ℕ, ◌+◌, ◌<◌, ◌≤◌, length, take, drop, map, IfOk, replicate, true, false, if◌then◌else◌};
ghost use Rattle.swap_wire.specs.Fabric.{carries_page, parcel_of};
ghost use Rattle.swap_link.specs.Lane.{Lane, empty_lane, append_after, end_lane, cut, is_cut, first_of, parcel_came, rest, fill_kept, ParcelsFit};

use std::alloc::{AllocError, Global};
use std::collections::VecDeque;
use std::marker::Model;
use swap_base::Slab;
use swap_wire::Msg;

/// Whether a message carries a page.
pub(crate) fn carries_page(msg: &Msg) -> bool
    ensures { result ≡ carries_page msg.now }
{
    matches!(msg, Msg::Write { .. } | Msg::PageIs { .. })
}

/// A place for one message, with room for a page.
#[derive(Drop)]
struct Place {
    msg: Msg,
    page: Vec<u8>,
}

impl Model for Place {
    ghost use Rattle.swap_link.specs.Lane.{Kept};

    ghost Value = { Kept };

    ghost view = { λ p. record { msg = p.msg; page = p.page.items } };
}

impl Place {
    fn make(alloc: Global, page_bytes: usize) -> Result<Place, AllocError>
        ensures { IfOk result (λ p. length p.page ≡ page_bytes) }
    {
        Ok(Place {
            msg: Msg::Query { slab: Slab(0) },
            page: vec![in alloc; 0; page_bytes]?,
        })
    }

    fn fill(&mut self, msg: &Msg, page: &[u8])
        requires { carries_page msg.now ≡ true → length page.now ≡ length self.old.page }
        ensures { self.new ≡ fill_kept self.old msg.now page.now }
    {
        self.msg = *msg;
        if carries_page(msg) {
            self.page.as_mut_slice().copy_from_slice(page);
        }
    }

    /// Gives its message, and copies the page where the message carries one.
    fn give(&self, page: &mut [u8]) -> Msg
        requires { length page.old ≡ length self.now.page }
        ensures msg { result ≡ self.now.msg }
        ensures page { page.new ≡ (if carries_page self.now.msg then self.now.page else page.old) }
    {
        if carries_page(&self.msg) {
            page.copy_from_slice(&self.page);
        }
        self.msg
    }
}

/// One direction of a link. All memory is taken at `make`.
#[derive(Drop)]
pub(crate) struct Lane {
    places: VecDeque<Place>,
    count: usize,
    ended: bool,
    page_bytes: usize,
}

impl Model for Lane {
    ghost use Rattle.std.specs.Prelude.{length};
    ghost use Rattle.swap_link.specs.Lane.{Lane as Direction, parcels_in, PlacesFit};

    ghost Value = { Direction };

    ghost view = { λ l.
        record {
          parcels = parcels_in l.places.items l.count;
          ended = l.ended;
          room = length l.places.items;
          page_bytes = l.page_bytes;
        } };

    ghost invariant = { λ l. PlacesFit l.places.items l.count l.page_bytes };
}

impl Lane {
    /// An ended lane with room for so many messages and their pages.
    pub(crate) fn make(alloc: Global, room: usize, page_bytes: usize) -> Result<Lane, AllocError>
        ensures { IfOk result (λ l. l ≡ empty_lane true room page_bytes) }
    {
        let mut places = VecDeque::with_capacity(alloc, room)?;
        for _ in 0..room {
            places.push_back_reserved(Place::make(alloc, page_bytes)?);
        }
        Ok(Lane {
            places,
            count: 0,
            ended: true,
            page_bytes,
        })
    }

    /// With nothing under way, and not ended.
    pub(crate) fn open(&mut self)
        ensures { self.new ≡ empty_lane false self.old.room self.old.page_bytes }
    {
        self.count = 0;
        self.ended = false;
    }

    /// Appends a message, unless it has ended; one that is full ends.
    pub(crate) fn append(&mut self, msg: &Msg, page: &[u8])
        requires { carries_page msg.now ≡ true → length page.now ≡ self.old.page_bytes }
        ensures lane { self.new ≡ append_after self.old (parcel_of msg.now page.now) }
        ensures page { self.new.page_bytes ≡ self.old.page_bytes }
    {
        if self.ended {
            return;
        }
        if self.count == self.places.len() {
            self.ended = true;
            return;
        }
        let place = &mut self.places[self.count];
        place.fill(msg, page);
        self.count += 1;
    }

    /// Takes the first message off, with its page where it carries one.
    pub(crate) fn pop(&mut self, page: &mut [u8]) -> Option<Msg>
        requires { length page.old ≡ self.old.page_bytes }
        ensures parcel { parcel_came result page.new ≡ first_of self.old.parcels }
        ensures lane { self.new ≡ record self.old { parcels = rest self.old.parcels } }
    {
        if self.count == 0 {
            return None;
        }
        let place = &self.places[0];
        let msg = place.give(page);
        self.places.rotate_left(1);
        self.count -= 1;
        Some(msg)
    }

    /// The pages that are under way have the length of a page.
    pub(crate) fn keeps(&self)
        ensures { ParcelsFit self.now }
    {
        let _ = &self.places;
    }

    pub(crate) fn has_ended(&self) -> bool
        ensures { result ≡ self.now.ended }
    {
        self.ended
    }

    /// Nothing is appended any more.
    pub(crate) fn end(&mut self)
        ensures { self.new ≡ end_lane self.old }
    {
        self.ended = true;
    }

    /// Keeps the first so many messages and ends.
    pub(crate) fn cut(&mut self, count: usize)
        ensures { self.new ≡ cut self.old count }
    {
        self.count = self.count.min(count);
        self.ended = true;
    }

    /// Whether a cut to so many messages would leave it as it is.
    pub(crate) fn is_cut(&self, count: usize) -> bool
        ensures { result ≡ is_cut self.now count }
    {
        self.ended && self.count <= count
    }
}
