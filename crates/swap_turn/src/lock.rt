// The lock, its passes and a turn.
ghost use Rattle.std.specs.Prelude.{◌≡◌, ◌<◌, ◌≤◌, ◌↔◌, ◌++◌, ◌∷◌, [], true, false, length, vec_len, vec_capacity, map, All, IfOk, IfErr, IsErr, None};
ghost use Rattle.swap_record.specs.History.{Row};
ghost use Rattle.swap_turn.specs.Turns.{entries_of, IsEarlier, resting_seat, posed_seat, ticket_of, Extends, first_view, numbers_from};
ghost use Rattle.swap_turn.specs.PassView.{pass_at_start, IsFreeOf, StandsFor, after_turn};
ghost use Rattle.swap_turn.specs.declared.view.Stage.TheVariants.{Drawn, Serving};
ghost use Rattle.swap_turn.specs.declared.TheConstants.{MOST_SEATS};

use crate::bells::{Bells, NEAR};
use crate::plays::{Draw, Look, NextNumber, Note, PassOn, TakeIn};
use crate::view::{Opening, Told, Turning, View};
use atomic_table::{Badge, Seat, Table};
use std::alloc::{AllocError, Allocator, Global};
use std::marker::Model;
use std::snapshot::Snapshot;
use std::sync::Wait;
use std::{mem, thread};

// A later ticket is never served.
const LAST: u64 = 1 << 63;

type Turntable<T, A> = Table<Option<T>, View, Opening<T>, Turning, A>;

/// A lock that is taken in the order of the tickets. Whoever isn't among the next sleeps until it
/// is.
#[derive(Drop)]
pub struct TurnLock<T: Told + Drop, A: Allocator = Global> {
    table: Turntable<T, A>,
    seats: u32,
    bells: Bells,
}

impl<T: Told + Drop, A: Allocator> Model for TurnLock<T, A> {
    ghost use Rattle.std.specs.Prelude.{◌≡◌, ◌≤◌};
    ghost use Rattle.swap_turn.specs.PassView.{LockId};

    ghost Value = { LockId };

    ghost view = { λ l. record { table = l.table.shared.table_id; seats = l.seats } };

    ghost invariant = { λ l. (l.table.shared.table_id.words ≡ 4)
        × (l.table.shared.table_id.slots ≡ 1) × (1 ≤ l.seats) };
}

/// The right to take turns. Its seat is with the turn while it has one.
#[derive(Drop)]
pub struct Pass {
    badge: Badge<View>,
    number: u32,
}

impl Model for Pass {
    ghost use Rattle.swap_turn.specs.PassView.{PassView, standing_of, IsSeated};

    ghost Value = { PassView };

    ghost view = { λ p. standing_of p.badge.table_id p.number p.badge.views };

    ghost invariant = { λ p. IsSeated p.number p.badge.views };
}

/// The value, for as long as the turn lasts. It isn't `Drop`: give it back.
pub struct Turn<T> {
    seat: Seat<Option<T>, View>,
    pub(crate) value: T,
    ghost held: { (seat.me.0 ≡ posed_seat (Serving (ticket_of seat.me.0.stage)) seat.me.0)
        × (seat.me.1 ≡ (0, None) ∷ []) },
}

impl Pass {
    pub fn number(&self) -> u32
        ensures { result ≡ self.now.number }
    {
        self.number
    }

    fn into_seat<T>(self) -> Seat<Option<T>, View>
        requires { self.free ≡ true }
        ensures { (result.table_id ≡ self.lock.table)
            × (result.me ≡ (resting_seat self.number self.lock.seats self.seen self.mine, [])) }
    {
        let Pass { badge, number: _ } = self;
        badge.into_seat()
    }

    // The seat of a pass without a turn, which is left without it.
    fn leave_seat<T>(&mut self) -> Seat<Option<T>, View>
        requires { self.old.free ≡ true }
        ensures seat { (result.table_id ≡ self.old.lock.table)
            × (result.me
            ≡ (resting_seat self.old.number self.old.lock.seats self.old.seen self.old.mine, [])) }
        ensures pass { (self.new.number ≡ self.old.number) × (self.new.free ≡ false) }
    {
        mem::replace(&mut self.badge, Badge::blank()).into_seat()
    }
}

impl<T: Told + Drop, A: Allocator> TurnLock<T, A> {
    ghost use Rattle.swap_turn.specs.Holding.{value_of, holder};

    /// A lock round the value, and a pass for each number below `seats`, ascending. Each has seen
    /// the value's history.
    pub fn make(
        alloc: A,
        value: T,
        seats: u32,
    ) -> Result<(TurnLock<T, A>, Vec<Pass, A>), AllocError>
    where
        A: Clone,
        requires seats { (1 ≤ seats) × (seats ≤ MOST_SEATS) }
        requires callers { All (λ (row : Row). row.entry.caller.0 < seats) (T.history value) }
        ensures seats { IfOk result (λ r. r.0.seats ≡ seats) }
        ensures passes { IfOk result
            (λ r. r.1.items ≡ map (pass_at_start r.0 (T.history value)) (numbers_from 0 seats)) }
        ensures free { IfOk result (λ r. All (IsFreeOf r.0) r.1.items) }
    {
        let mut passes = Vec::with_capacity(alloc.clone()?, seats as usize)?;
        let mut slots = Vec::with_capacity(alloc.clone()?, 1)?;
        let about = Opening {
            seats: u64::from(seats),
            start: Snapshot::of(&value),
        };
        let words = [0, 0, u64::from(value.told()), u64::from(seats)];
        slots.push_reserved(Some(value));
        let Ok((table, seat)) = Table::new(alloc, &words, slots, &about) else {
            return Err(AllocError);
        };
        deal(&table, seats, seat, &mut passes);
        let bells = Bells::new();
        Ok((
            TurnLock {
                table,
                seats,
                bells,
            },
            passes,
        ))
    }

    /// Draws a ticket, waits for its turn, and takes the value. Its history begins with what the
    /// pass had seen.
    pub fn take<R: Wait>(&self, rt: &R, pass: &mut Pass) -> Turn<T>
        requires { IsFreeOf self.now pass.old }
        ensures seen { IsEarlier pass.old.seen (T.history (value_of result)) }
        ensures turn { holder result
            ≡ record pass.old { free = false; seen = T.history (value_of result) } }
        ensures stands { StandsFor (T.history (value_of result)) (holder result) }
        ensures pass { (pass.new.number ≡ pass.old.number) × (pass.new.free ≡ false) }
    {
        let mut seat = pass.leave_seat::<T>();
        let ticket = self.table.shared.fetch_add::<Draw>(&mut seat, 0, 1);
        self.wait(rt, seat, ticket)
    }

    // Waits for the turn of the ticket, for ever where it is too late. While the turn is far off
    // the thread sleeps: the bell was looked at before the ticket that is served, so a ring in
    // between isn't lost.
    fn wait<R: Wait>(&self, rt: &R, mut seat: Seat<Option<T>, View>, ticket: u64) -> Turn<T>
        requires lock { seat.table_id ≡ self.now.table }
        requires drawn { seat.me ≡ (posed_seat (Drawn ticket) seat.me.0, []) }
        ensures seen { IsEarlier seat.me.0.seen (T.history (value_of result)) }
        ensures turn { holder result
            ≡ record {
              lock = record { table = seat.table_id; seats = seat.me.0.seats };
              number = seat.me.0.number;
              free = false;
              seen = T.history (value_of result);
              mine = seat.me.0.mine;
            } }
        ensures own { seat.me.0.mine ≡ entries_of seat.me.0.number (T.history (value_of result)) }
    {
        for _ in rt.forever() {
            let rung = self.bells.rung(ticket);
            if ticket < LAST {
                let served = self.table.shared.load::<Look>(&mut seat, 1);
                if served == ticket {
                    let value = self.table.shared.exchange(&mut seat, 0, None).unwrap();
                    return Turn { seat, value };
                }
                if ticket.saturating_sub(served) > NEAR {
                    self.bells.wait(rt, ticket, rung);
                }
            }
            thread::yield_now();
        }
        unreachable!()
    }

    /// Gives the value back, and passes the turn on. What the turn added is the pass's own.
    pub fn give(&self, pass: &mut Pass, turn: Turn<T>)
        requires lock { (holder turn).lock ≡ self.now }
        requires pass { (pass.old.number ≡ (holder turn).number) × (pass.old.free ≡ false) }
        requires own { Extends (holder turn).number (holder turn).seen (T.history (value_of turn)) }
        ensures pass { pass.new ≡ after_turn (holder turn) (T.history (value_of turn)) }
        ensures stands { StandsFor (T.history (value_of turn)) pass.new }
        ensures seen { IsEarlier (holder turn).seen pass.new.seen }
    {
        let Turn { mut seat, value } = turn;
        let told = u64::from(value.told());
        let shared = &self.table.shared;
        shared.exchange(&mut seat, 0, Some(value));
        shared.store::<Note>(&mut seat, 2, told);
        let passed = shared.fetch_add::<PassOn>(&mut seat, 1, 1);
        pass.badge = seat.into_badge();
        self.wake_next(passed);
    }

    // Wakes the thread that is among the next by now, if a ticket so far behind the one that was
    // served is drawn.
    fn wake_next(&self, passed: u64) {
        let ticket = passed.saturating_add(1 + NEAR);
        if ticket < self.table.shared.peek(0) {
            self.bells.ring(ticket);
        }
    }

    /// Takes all passes and gives the value. Each pass's entries are those that the value's history
    /// has of it. Where a pass is missing, all comes back.
    pub fn close(self, passes: Vec<Pass, A>) -> Result<T, (TurnLock<T, A>, Vec<Pass, A>)>
        requires { All (IsFreeOf self) passes.items }
        ensures refused { IsErr result ↔ (length passes.items < self.seats) }
        ensures kept { IfErr result (λ r. (r.0 ≡ self) × (r.1 ≡ passes)) }
        ensures value { IfOk result
            (λ x. All (λ p. p.mine ≡ entries_of p.number (T.history x)) passes.items) }
    {
        if passes.len() < self.seats as usize {
            return Err((self, passes));
        }
        let TurnLock {
            table,
            seats,
            bells: _,
        } = self;
        Ok(end(table, seats, passes))
    }
}

// Splits the first seat into the passes.
fn deal<T: Told + Drop, A: Allocator>(
    table: &Turntable<T, A>,
    seats: u32,
    mut seat: Seat<Option<T>, View>,
    passes: &mut Vec<Pass, A>,
)
    requires lock { (seat.table_id ≡ table.now.shared.table_id)
        × (table.now.shared.table_id.words ≡ 4) × (1 ≤ seats) }
    requires first { seat.me ≡ (first_view seats seat.me.0.seen, []) }
    requires room { (passes.old.items ≡ []) × (seats ≤ vec_capacity passes.old) }
    ensures passes { passes.new.items
        ≡ map
        (pass_at_start (record { table = table.now.shared.table_id; seats = seats }) seat.me.0.seen)
        (numbers_from 0 seats) }
    ensures free { All
        (IsFreeOf (record { table = table.now.shared.table_id; seats = seats })) passes.new.items }
{
    for number in 0..seats - 1 {
        let next = table.shared.split_seat::<NextNumber>(&mut seat);
        passes.push_reserved(Pass {
            badge: next.into_badge(),
            number,
        });
    }
    passes.push_reserved(Pass {
        badge: seat.into_badge(),
        number: seats - 1,
    });
}

// Joins all passes, and takes the value out.
fn end<T: Told + Drop, A: Allocator>(
    table: Turntable<T, A>,
    seats: u32,
    mut passes: Vec<Pass, A>,
) -> T
    requires lock { (table.shared.table_id.words ≡ 4) × (table.shared.table_id.slots ≡ 1)
        × (1 ≤ seats) }
    requires free { All
        (IsFreeOf (record { table = table.shared.table_id; seats = seats })) passes.items }
    requires all { seats ≤ length passes.items }
    ensures { All (λ p. p.mine ≡ entries_of p.number (T.history result)) passes.items }
{
    let Some(last) = passes.pop() else {
        unreachable!()
    };
    let mut seat = last.into_seat::<T>();
    while let Some(pass) = passes.pop() {
        table
            .shared
            .join_seat::<TakeIn>(&mut seat, pass.into_seat::<T>());
    }
    let mut closed = table.close_with(seat);
    let value = closed.take(0);
    closed.free();
    value.unwrap()
}
