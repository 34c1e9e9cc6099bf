ghost use Rattle.std.specs.Prelude.{◌≡◌, ℕ, ◌<◌, ◌≤◌, ◌^◌, true, false, length, IfOk, IsSome, find, position};
ghost use Rattle.swap_places.specs.Line.{stands};
ghost use Rattle.swap_slabs.specs.Rows.{new_row, has_number, without_lease, slab_in, slab_of_row, Ascend, IsPlace, Puts, SetsBorrowing};

use std::alloc::Global;
use std::marker::Model;
use swap_base::{Lease, NoMemory, Slab};
use swap_places::{Line, is_a_line};

/// A lease with the slab that has it.
#[derive(Clone, Copy)]
pub(crate) struct Leased {
    pub(crate) lease: Lease,
    pub(crate) slab: Slab,
}

/// What one lender has of the slabs: those that borrow from it, and the leases of those that are
/// mapped to it or drain at it, ascending, so that one is found by halving. It has room for every
/// slab, and for a lease of each.
#[derive(Drop)]
pub(crate) struct Row {
    borrowing: Line,
    leases: Vec<Leased>,
    room: u32,
}

impl Model for Row {
    ghost use Rattle.std.specs.Prelude.{◌≡◌, ◌≤◌, vec_capacity};
    ghost use Rattle.swap_slabs.specs.Rows.{RowView, Ascend};

    ghost Value = { RowView };

    ghost view = { λ r.
        record { borrowing = r.borrowing.numbers; leases = r.leases.items; room = r.room } };

    ghost invariant = { λ r.
        (r.borrowing.bound ≡ r.room) × (r.room ≤ vec_capacity r.leases) × Ascend r.leases.items };
}

impl Row {
    pub(crate) fn make(alloc: Global, room: u32) -> Result<Row, NoMemory>
        ensures { IfOk result (λ r. r ≡ new_row room) }
    {
        let borrowing = Line::make(alloc, room)?;
        match Vec::with_capacity(alloc, room as usize) {
            Ok(leases) => Ok(Row {
                borrowing,
                leases,
                room,
            }),
            Err(_) => Err(NoMemory),
        }
    }

    /// A slab that is borrowed from the lender, mapped to it or drains at it. Where one has a lease
    /// it is the one of the highest, whose place is given up at once.
    pub(crate) fn slab(&self) -> Option<Slab>
        ensures { result ≡ slab_of_row self.now }
    {
        match self.leases.last() {
            Some(leased) => Some(leased.slab),
            None => self.borrowing.first().map(Slab),
        }
    }

    /// A slab borrows from the lender.
    pub(crate) fn borrow(&mut self, slab: Slab)
        requires below { slab.0 < self.old.room }
        requires out { stands self.old.borrowing slab.0 ≡ false }
        ensures { SetsBorrowing self.old slab true self.new }
    {
        is_a_line();
        self.borrowing.enter(slab.0);
    }

    /// A slab that borrows was lent a slot, or refused.
    pub(crate) fn answer(&mut self, slab: Slab)
        requires { stands self.old.borrowing slab.0 ≡ true }
        ensures { SetsBorrowing self.old slab false self.new }
    {
        is_a_line();
        self.borrowing.keeps();
        self.borrowing.leave(slab.0);
    }

    /// A slab has a lease.
    pub(crate) fn add(&mut self, leased: Leased)
        requires { length self.old.leases < self.old.room }
        ensures { Puts self.old leased self.new }
    {
        let place = place_for(&self.leases, leased.lease);
        self.leases.insert(place, leased).unwrap();
    }

    /// A slab no longer has its lease.
    pub(crate) fn give_up(&mut self, lease: Lease)
        requires { IsSome (find (has_number lease) self.old.leases) }
        ensures { self.new ≡ record self.old { leases = without_lease lease self.old.leases } }
    {
        let place = place_of(&self.leases, lease).unwrap();
        self.leases.remove(place);
    }

    /// The slab that has a lease.
    pub(crate) fn find(&self, lease: Lease) -> Option<Slab>
        ensures { result ≡ slab_in lease self.now.leases }
    {
        match place_of(&self.leases, lease) {
            Some(place) => Some(self.leases[place].slab),
            None => None,
        }
    }
}

/// Where a lease stands among ascending ones, or would.
fn place_for(leases: &[Leased], lease: Lease) -> usize
    requires { Ascend leases.now }
    ensures within { result ≤ length leases.now }
    ensures place { IsPlace lease leases.now result }
{
    leases.partition_point(|leased| leased.lease.0 < lease.0)
}

/// Where a lease stands among ascending ones, if it does.
fn place_of(leases: &[Leased], lease: Lease) -> Option<usize>
    requires { Ascend leases.now }
    ensures { result ≡ position (has_number lease) leases.now }
{
    let place = place_for(leases, lease);
    if place == leases.len() {
        return None;
    }
    if leases[place].lease.0 == lease.0 {
        Some(place)
    } else {
        None
    }
}
