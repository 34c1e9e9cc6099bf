ghost use Rattle.std.specs.Prelude.{◌≡◌, ℕ, ◌+◌, ◌<◌, ◌≤◌, false, length, IfOk, IfSome, IsSome, IsTrue, is_some, Some, None, replicate};
ghost use Rattle.swap_slabs.specs.Slabs.{all_local, state_of, with_state, is_local, is_borrowing, is_mapped, is_at, lender_of, leased_of, flying_of, asks, is_waiting, with_reply, waits, free_in, choice, pair_of, asked_after, answered_after, answer_choice, borrowed_after, lent_after, refused_after, begun_after, drain_to, given_at, settled_after, settled_lease, evicted_after, evicted_lease, holds, by_lease, mapped_count};
ghost use Rattle.swap_slabs.specs.Kept.{IsSlabs, IsSecond, IsNew};
ghost use Rattle.swap_slabs.specs.Rows.{new_row, one_if};

use crate::row::{Leased, Row};
use crate::{Chosen, Pair, Reply, SlabState};
use std::alloc::Global;
use std::marker::Model;
use swap_base::{Geometry, Lease, Lender, MOST_LENDERS, MOST_WINDOW, NoMemory, Slab};

/// The states of the slabs, seen as their list. All memory is taken at `make`.
#[derive(Drop)]
pub struct Slabs {
    states: Vec<SlabState>,
    rows: Vec<Row>,
    mapped: u32,
}

impl Model for Slabs {
    ghost use Rattle.std.specs.Prelude.{List};
    ghost use Rattle.swap_slabs.specs.declared.SlabState.{SlabState};
    ghost use Rattle.swap_slabs.specs.Rows.{Fits};

    ghost Value = { List SlabState };

    ghost view = { λ s. s.states.items };

    ghost invariant = { λ s. Fits s.states.items s.rows.items s.mapped };
}

fn make_rows(alloc: Global, room: u32) -> Result<Vec<Row>, NoMemory>
    ensures { IfOk result (λ rows. rows.items ≡ replicate MOST_LENDERS (new_row room)) }
{
    let mut rows = Vec::new(alloc);
    for _ in 0..MOST_LENDERS {
        let row = Row::make(alloc, room)?;
        if rows.push(row).is_err() {
            return Err(NoMemory);
        }
    }
    Ok(rows)
}

/// The pair with this lender's reply.
fn replied(pair: Pair, lender: Lender, reply: Reply) -> Pair
    ensures { result ≡ with_reply pair lender reply }
{
    if pair.first.0 == lender.0 {
        Pair { one: reply, ..pair }
    } else {
        Pair { two: reply, ..pair }
    }
}

/// Whether a reply is still waited for.
fn waits(pair: Pair) -> bool
    ensures { result ≡ waits pair }
{
    matches!(pair.one, Reply::Waiting) || matches!(pair.two, Reply::Waiting)
}

fn free_in(reply: Reply) -> u32
    ensures { result ≡ free_in reply }
{
    match reply {
        Reply::Free(n) => n,
        Reply::Waiting | Reply::Gone => 0,
    }
}

/// Of the lenders with a free slot the one with more, the first on a tie.
fn choice(pair: Pair) -> Chosen
    ensures { result ≡ choice pair }
{
    let one = free_in(pair.one);
    if one < free_in(pair.two) {
        match pair.second {
            Some(lender) => Chosen::Lender(lender),
            None => Chosen::Nobody,
        }
    } else if 0 < one {
        Chosen::Lender(pair.first)
    } else {
        Chosen::Nobody
    }
}

/// The number of mapped slabs without this one.
fn fewer(mapped: u32, state: SlabState) -> u32
    requires { one_if (is_mapped state) ≤ mapped }
    ensures { result + one_if (is_mapped state) ≡ mapped }
{
    match state {
        SlabState::Mapped { .. } => mapped - 1,
        _ => mapped,
    }
}

impl Slabs {
    /// Every slab of the geometry is local.
    pub fn make(alloc: Global, geometry: &Geometry) -> Result<Slabs, NoMemory>
        ensures { IfOk result (λ slabs. slabs ≡ all_local geometry.now.slabs) }
    {
        let rows = make_rows(alloc, geometry.slabs())?;
        match vec![in alloc; SlabState::Local; geometry.slabs() as usize] {
            Ok(states) => Ok(Slabs {
                states,
                rows,
                mapped: 0,
            }),
            Err(_) => Err(NoMemory),
        }
    }

    /// What each table of slabs keeps.
    pub fn keeps(&self)
        ensures { IsSlabs self.now }
    {
        let _ = &self.mapped;
    }

    pub fn state(&self, slab: Slab) -> SlabState
        requires { slab.0 < length self.now }
        ensures { result ≡ state_of self.now slab }
    {
        self.states[slab.0 as usize]
    }

    /// A local slab asks one lender, or two different ones.
    pub fn ask(&mut self, slab: Slab, first: Lender, second: Option<Lender>)
        requires slab { slab.0 < length self.old }
        requires state { IsTrue (is_local (state_of self.old slab)) }
        requires first { first.0 < MOST_LENDERS }
        requires second { IsSecond first second }
        ensures { self.new ≡ asked_after self.old slab first second }
    {
        let two = match second {
            Some(_) => Reply::Waiting,
            None => Reply::Gone,
        };
        self.states[slab.0 as usize] = SlabState::Asking(Pair {
            first,
            second,
            one: Reply::Waiting,
            two,
        });
    }

    /// A slab that asks one lender, whose reply it waits for, asks a second one too.
    pub fn ask_second(&mut self, slab: Slab, first: Lender, second: Lender)
        requires slab { slab.0 < length self.old }
        requires state { state_of self.old slab ≡ SlabState.Asking (pair_of first None) }
        requires second { IsSecond first (Some second) }
        ensures { self.new ≡ asked_after self.old slab first (Some second) }
    {
        self.states[slab.0 as usize] = SlabState::Asking(Pair {
            first,
            second: Some(second),
            one: Reply::Waiting,
            two: Reply::Waiting,
        });
    }

    /// A lender that was asked has replied, or is gone. Once no reply is waited for the slab is
    /// local, and the answer is the choice.
    pub fn answer(&mut self, slab: Slab, lender: Lender, reply: Reply) -> Option<Chosen>
        requires slab { slab.0 < length self.old }
        requires state { IsTrue (asks lender (state_of self.old slab)) }
        requires reply { is_waiting reply ≡ false }
        ensures states { self.new ≡ answered_after self.old slab lender reply }
        ensures choice { result ≡ answer_choice (state_of self.old slab) lender reply }
    {
        let SlabState::Asking(pair) = self.states[slab.0 as usize] else {
            unreachable!()
        };
        let pair = replied(pair, lender, reply);
        if waits(pair) {
            self.states[slab.0 as usize] = SlabState::Asking(pair);
            None
        } else {
            self.states[slab.0 as usize] = SlabState::Local;
            Some(choice(pair))
        }
    }

    /// A local slab borrows from a lender.
    pub fn borrow_from(&mut self, slab: Slab, lender: Lender)
        requires slab { slab.0 < length self.old }
        requires state { IsTrue (is_local (state_of self.old slab)) }
        requires lender { lender.0 < MOST_LENDERS }
        ensures { self.new ≡ borrowed_after self.old slab lender }
    {
        self.states[slab.0 as usize] = SlabState::Borrowing { lender };
        let row = &mut self.rows[lender.0 as usize];
        row.borrow(slab);
    }

    /// The lender lent a slot by a lease that no slab of it has: the slab is mapped.
    pub fn lent(&mut self, slab: Slab, lease: Lease)
        requires slab { slab.0 < length self.old }
        requires state { IsTrue (is_borrowing (state_of self.old slab)) }
        requires lease { IsNew self.old (state_of self.old slab) lease }
        ensures { self.new ≡ lent_after self.old slab lease }
    {
        let SlabState::Borrowing { lender } = self.states[slab.0 as usize] else {
            unreachable!()
        };
        self.states[slab.0 as usize] = SlabState::Mapped {
            lender,
            lease,
            flying: 0,
        };
        self.mapped += 1;
        let row = &mut self.rows[lender.0 as usize];
        row.answer(slab);
        row.add(Leased { lease, slab });
    }

    /// The lender refused: the slab is local.
    pub fn refused(&mut self, slab: Slab)
        requires slab { slab.0 < length self.old }
        requires state { IsTrue (is_borrowing (state_of self.old slab)) }
        ensures { self.new ≡ refused_after self.old slab }
    {
        let SlabState::Borrowing { lender } = self.states[slab.0 as usize] else {
            unreachable!()
        };
        self.states[slab.0 as usize] = SlabState::Local;
        let row = &mut self.rows[lender.0 as usize];
        row.answer(slab);
    }

    /// One request more flies for a mapped slab.
    pub fn begin(&mut self, slab: Slab)
        requires slab { slab.0 < length self.old }
        requires state { IsTrue (is_mapped (state_of self.old slab)) }
        requires flying { flying_of (state_of self.old slab) < MOST_WINDOW }
        ensures { self.new ≡ begun_after self.old slab }
    {
        let SlabState::Mapped {
            lender,
            lease,
            flying,
        } = self.states[slab.0 as usize]
        else {
            unreachable!()
        };
        self.states[slab.0 as usize] = SlabState::Mapped {
            lender,
            lease,
            flying: flying + 1,
        };
    }

    /// One request fewer flies. A slab that drains is local and gives its lease once none flies.
    pub fn settled(&mut self, slab: Slab) -> Option<Lease>
        requires slab { slab.0 < length self.old }
        requires flying { 0 < flying_of (state_of self.old slab) }
        ensures states { self.new ≡ settled_after self.old slab }
        ensures lease { result ≡ settled_lease (state_of self.old slab) }
    {
        match self.states[slab.0 as usize] {
            SlabState::Mapped {
                lender,
                lease,
                flying,
            } => {
                self.states[slab.0 as usize] = SlabState::Mapped {
                    lender,
                    lease,
                    flying: flying - 1,
                };
                None
            }
            SlabState::Draining {
                lender,
                lease,
                flying,
            } => self.drain(slab, lender, lease, flying - 1),
            _ => unreachable!(),
        }
    }

    /// A mapped slab is taken back: it is local and gives its lease where no request flies, else it
    /// drains.
    pub fn evict(&mut self, slab: Slab) -> Option<Lease>
        requires slab { slab.0 < length self.old }
        requires state { IsTrue (is_mapped (state_of self.old slab)) }
        ensures states { self.new ≡ evicted_after self.old slab }
        ensures lease { result ≡ evicted_lease (state_of self.old slab) }
    {
        let SlabState::Mapped {
            lender,
            lease,
            flying,
        } = self.states[slab.0 as usize]
        else {
            unreachable!()
        };
        self.drain(slab, lender, lease, flying)
    }

    /// A slab of the lender drains, or is local where no request flies.
    fn drain(&mut self, slab: Slab, lender: Lender, lease: Lease, flying: u32) -> Option<Lease>
        requires slab { slab.0 < length self.old }
        requires leased { leased_of (state_of self.old slab) ≡ Some (lender, lease) }
        requires flying { flying ≤ flying_of (state_of self.old slab) }
        ensures states { self.new ≡ with_state self.old slab (drain_to lender lease flying) }
        ensures lease { result ≡ given_at lease flying }
    {
        self.mapped = fewer(self.mapped, self.states[slab.0 as usize]);
        if flying == 0 {
            self.states[slab.0 as usize] = SlabState::Local;
            let row = &mut self.rows[lender.0 as usize];
            row.give_up(lease);
            Some(lease)
        } else {
            self.states[slab.0 as usize] = SlabState::Draining {
                lender,
                lease,
                flying,
            };
            None
        }
    }

    /// A slab that is borrowed from the lender, mapped to it or drains at it.
    pub fn one_at(&self, lender: Lender) -> Option<Slab>
        requires { lender.0 < MOST_LENDERS }
        ensures some { is_some result ≡ holds self.now lender }
        ensures within { IfSome result (λ slab. slab.0 < length self.now) }
        ensures at { IfSome result (λ slab. IsTrue (is_at lender (state_of self.now slab))) }
    {
        let row = &self.rows[lender.0 as usize];
        row.slab()
    }

    /// A slab that is borrowed from a lender, mapped to it or drains at it is local: its lender is
    /// lost.
    pub fn send_home(&mut self, slab: Slab)
        requires slab { slab.0 < length self.old }
        requires held { IsSome (lender_of (state_of self.old slab)) }
        ensures { self.new ≡ with_state self.old slab SlabState.Local }
    {
        match self.states[slab.0 as usize] {
            SlabState::Borrowing { .. } => self.refused(slab),
            SlabState::Mapped { lender, lease, .. } | SlabState::Draining { lender, lease, .. } => {
                self.drain(slab, lender, lease, 0);
            }
            SlabState::Local | SlabState::Asking(_) => unreachable!(),
        }
    }

    /// Whether a slab is borrowed from the lender, mapped to it or drains at it.
    pub fn holds(&self, lender: Lender) -> bool
        requires { lender.0 < MOST_LENDERS }
        ensures { result ≡ holds self.now lender }
    {
        self.one_at(lender).is_some()
    }

    /// The slab that is mapped or drains at the lender with this lease.
    pub fn by_lease(&self, lender: Lender, lease: Lease) -> Option<Slab>
        requires { lender.0 < MOST_LENDERS }
        ensures { result ≡ by_lease self.now lender lease }
    {
        let row = &self.rows[lender.0 as usize];
        row.find(lease)
    }

    /// How many slabs are mapped.
    pub fn mapped(&self) -> u32
        ensures { result ≡ mapped_count self.now }
    {
        self.mapped
    }
}
