// The paging calls over the lock.
ghost use Rattle.std.specs.Prelude.{◌≡◌, ◌≢◌, ◌<◌, ◌≤◌, ◌↔◌, ◌+◌, length, map, IfOk, IfErr, IsErr, All};
ghost use Rattle.swap_base.specs.Sizes.{pages_of};
ghost use Rattle.swap_wire.specs.Input.{IsInRange};
ghost use Rattle.swap_record.specs.History.{Row};
ghost use Rattle.swap_world.specs.Runs.{busy_callers};
ghost use Rattle.swap_turn.specs.PassView.{IsFreeOf, pass_at_start};
ghost use Rattle.swap_turn.specs.Turns.{entries_of, numbers_from};
ghost use Rattle.swap_board.specs.Boards.{IsCall, AreOperators};
ghost use Rattle.swap_board.specs.Works.{IsPoint};
ghost use Rattle.swap_player.specs.Pumped.{OperatedBy, PumpedAs, PumpedBy};
ghost use Rattle.swap_player.specs.Seen.{IsWellBy};
ghost use Rattle.swap_player.specs.Turns.{caller_of, Looked, Pages, PagesAs, GivesBy};
ghost use Rattle.swap_record.specs.declared.TheConstants.{MOST_ENTRIES};
ghost use Rattle.swap_turn.specs.declared.TheConstants.{MOST_SEATS};

use crate::paging::{Ended, SwapFault, turn};
use crate::points::OpenPoints;
use std::alloc::Global;
use std::marker::Model;
use std::sync::Wait;
use swap_base::{Caller, EntryNo, Lender, NoMemory, Page};
use swap_board::{Board, Moved, Naming, Operated, Point};
use swap_disk::DiskPort;
use swap_turn::{Pass, TurnLock};
use swap_wire::{Event, Fabric};
use swap_world::World;

/// What lets pumps pass, and hears of answers. Threads share it; both are called outside any turn.
pub trait Gate: Sync {
    type No: Drop + Send;

    fn may_pass(&self, point: Point) -> Result<(), Self::No>;

    fn answered(&self, caller: Caller, number: u32);
}

/// What a pump did in its turn, or that the gate held it.
#[derive(Drop)]
pub enum Pumped<T> {
    Did,
    Nothing,
    Held(T),
    NoMemory,
}

/// A board under its lock.
#[derive(Drop)]
pub struct Swap<D: DiskPort + Drop, F: Fabric + Drop, N: Naming<D, F>> {
    lock: TurnLock<Board<D, F, N>>,
    lenders: u32,
    calls: u32,
}

impl<D: DiskPort + Drop, F: Fabric + Drop, N: Naming<D, F>> Model for Swap<D, F, N> {
    ghost use Rattle.std.specs.Prelude.{◌≡◌};
    ghost use Rattle.swap_turn.specs.PassView.{LockId};

    ghost Value = { LockId };

    ghost view = { λ s. s.lock };

    ghost invariant = { λ s. (s.lenders ≡ N.named.lenders) × (s.calls ≡ N.named.calls) };
}

impl<D: DiskPort + Drop, F: Fabric + Drop, N: Naming<D, F>> Swap<D, F, N> {
    // A pump's turn.
    fn pump_turn<R: Wait>(&self, rt: &R, pass: &mut Pass, point: Point) -> Moved
        requires pass { IsFreeOf self.now pass.old }
        requires point { IsPoint N.named.lenders point }
        ensures pass { IsFreeOf self.now pass.new × (pass.new.number ≡ pass.old.number) }
        ensures looked { Looked pass.old pass.new }
        ensures pumps { PumpedBy D.moves F.moves D.means point result pass.new }
    {
        let mut turn = self.lock.take(rt, pass);
        let moved = turn.value().pump(point);
        self.lock.give(pass, turn);
        moved
    }

    /// One turn of a pump, where the gate lets it pass. `Held` has the gate's own `No`, and the
    /// pass is as it was then.
    /// `Nothing` comes exactly where the point had no effect on the world in that turn.
    pub fn pump<G: Gate, R: Wait>(
        &self,
        rt: &R,
        pass: &mut Pass,
        point: Point,
        gate: &G,
    ) -> Pumped<G::No>
        requires pass { IsFreeOf self.now pass.old }
        requires point { IsPoint N.named.lenders point }
        ensures pass { IsFreeOf self.now pass.new × (pass.new.number ≡ pass.old.number) }
        ensures looked { Looked pass.old pass.new }
        ensures pumps { PumpedAs D.moves F.moves D.means point result pass.old pass.new }
    {
        if let Err(no) = gate.may_pass(point) {
            return Pumped::Held(no);
        }
        match self.pump_turn(rt, pass, point) {
            Moved::Did => Pumped::Did,
            Moved::Nothing => Pumped::Nothing,
            Moved::NoMemory => Pumped::NoMemory,
        }
    }

    /// The operator's next event, in a turn. `Ended` comes exactly where all were made before that
    /// turn, `Nothing` exactly where the event had no effect; it counts as made then too.
    pub fn operate<R: Wait>(&self, rt: &R, pass: &mut Pass) -> Operated
        requires pass { IsFreeOf self.now pass.old }
        ensures pass { IsFreeOf self.now pass.new × (pass.new.number ≡ pass.old.number) }
        ensures looked { Looked pass.old pass.new }
        ensures operates { OperatedBy D.moves F.moves N.named.operator result pass.new }
    {
        let mut turn = self.lock.take(rt, pass);
        let operated = turn.value().operate();
        self.lock.give(pass, turn);
        operated
    }

    // The points that the gate lets pass.
    fn ask<G: Gate>(&self, gate: &G) -> OpenPoints {
        let mut points = ask_at(OpenPoints::none(), Point::Disk, gate);
        'links: for lender in 0..self.lenders {
            points = ask_at(points, Point::Give(Lender(lender)), gate);
            points = ask_at(points, Point::Take(Lender(lender)), gate);
        }
        points
    }

    // A call, to its end. Each step works at the disk and at every link itself, wherever the gate
    // lets it pass, and goes on with the call in the same turn.
    fn call<G: Gate, R: Wait>(
        &self,
        rt: &R,
        pass: &mut Pass,
        event: &Event,
        page: &mut [u8],
        gate: &G,
    ) -> Ended
        requires pass { IsFreeOf self.now pass.old }
        requires call { IsCall event.now }
        requires own { (caller_of event.now).0 ≡ pass.old.number }
        requires range { IsInRange N.named.sizes N.named.lenders event.now }
        requires page { length page.old ≡ N.named.sizes.page_bytes }
        ensures pass { IsFreeOf self.now pass.new × (pass.new.number ≡ pass.old.number) }
        ensures pages { Pages N.named.calls N.named.sizes.callers event.now page.old result
            pass.old pass.new }
        ensures gives { GivesBy result.answer pass.new.seen page.old page.new }
        ensures well { IsWellBy D.DiskPort F.Fabric N.named.sizes result.answer pass.new.seen }
    {
        let mut is_first = true;
        'steps: for _ in rt.forever() {
            let points = self.ask(gate);
            let turned = turn(rt, &self.lock, pass, points, is_first, event, page);
            if let Some(ended) = turned {
                return ended;
            }
            is_first = false;
        }
        unreachable!()
    }

    /// Pages in. On `Ok`, and on `Disk`, the pass has this call's entry more, the last that it has
    /// seen.
    pub fn page_in<G: Gate, R: Wait>(
        &self,
        rt: &R,
        pass: &mut Pass,
        page: Page,
        buf: &mut [u8],
        gate: &G,
    ) -> Result<EntryNo, SwapFault>
        requires pass { IsFreeOf self.now pass.old }
        requires caller { pass.old.number < N.named.sizes.callers }
        requires page { page.0 < pages_of N.named.sizes }
        requires buf { length buf.old ≡ N.named.sizes.page_bytes }
        ensures pass { IsFreeOf self.now pass.new × (pass.new.number ≡ pass.old.number) }
        ensures pages { PagesAs N.named.calls N.named.sizes.callers
            (Event.PageIn (record { 0 = pass.old.number }) page) buf.old result pass.old pass.new }
        ensures gives { GivesBy result pass.new.seen buf.old buf.new }
        ensures well { IsWellBy D.DiskPort F.Fabric N.named.sizes result pass.new.seen }
    {
        let caller = Caller(pass.number());
        let ended = self.call(rt, pass, &Event::PageIn { caller, page }, buf, gate);
        hear(gate, caller, &ended);
        ended.answer
    }

    /// Pages out. On `Ok`, and on `Disk`, the pass has this call's entry more, the last that it has
    /// seen, with these bytes.
    pub fn page_out<G: Gate, R: Wait>(
        &self,
        rt: &R,
        alloc: Global,
        pass: &mut Pass,
        page: Page,
        bytes: &[u8],
        gate: &G,
    ) -> Result<EntryNo, SwapFault>
        requires pass { IsFreeOf self.now pass.old }
        requires caller { pass.old.number < N.named.sizes.callers }
        requires page { page.0 < pages_of N.named.sizes }
        requires bytes { length bytes.now ≡ N.named.sizes.page_bytes }
        ensures pass { IsFreeOf self.now pass.new × (pass.new.number ≡ pass.old.number) }
        ensures pages { PagesAs N.named.calls N.named.sizes.callers
            (Event.PageOut (record { 0 = pass.old.number }) page) bytes.now result pass.old
            pass.new }
        ensures well { IsWellBy D.DiskPort F.Fabric N.named.sizes result pass.new.seen }
    {
        let Ok(mut buf) = bytes.to_vec(alloc) else {
            return Err(SwapFault::NoMemory);
        };
        let caller = Caller(pass.number());
        let event = Event::PageOut { caller, page };
        let ended = self.call(rt, pass, &event, buf.as_mut_slice(), gate);
        hear(gate, caller, &ended);
        ended.answer
    }

    /// How many calls may begin.
    pub fn calls(&self) -> u32
        ensures { result ≡ N.named.calls }
    {
        self.calls
    }
}

impl<D: DiskPort + Drop, F: Fabric + Drop, N: Naming<D, F>> Swap<D, F, N> {
    ghost use Rattle.swap_player.specs.Seen.{IsWellBy};
    ghost use Rattle.swap_player.specs.Turns.{IsPlayed};

    /// A world under its lock, in which every caller is idle, and a pass for each number below
    /// `seats`, ascending. Pass c below the number of callers is caller c's.
    pub fn make(
        alloc: Global,
        world: World<D, F>,
        operator: Vec<Event>,
        calls: u32,
        seats: u32,
        number: u64,
    ) -> Result<(Swap<D, F, N>, Vec<Pass>), NoMemory>
        requires named { N.named
            ≡ record {
              opening = Some world;
              sizes = world.core.device.sizes;
              lenders = world.core.device.lenders;
              operator = operator.items;
              calls = calls;
              number = number;
            } }
        requires idle { busy_callers world.core.device ≡ 0 }
        requires operator { AreOperators world.core.device.sizes world.core.device.lenders
            operator.items }
        requires few { length world.core.device.history + calls ≤ MOST_ENTRIES }
        requires seats { (1 ≤ seats) × (seats ≤ MOST_SEATS)
            × (world.core.device.sizes.callers ≤ seats) }
        requires callers { All
            (λ (row : Row). row.entry.caller.0 < seats) world.core.device.history }
        ensures seats { IfOk result (λ r. r.0.seats ≡ seats) }
        ensures passes { IfOk result
            (λ r. r.1.items
            ≡ map (pass_at_start r.0 world.core.device.history) (numbers_from 0 seats)) }
        ensures free { IfOk result (λ r. All (IsFreeOf r.0) r.1.items) }
    {
        let lenders = world.lenders();
        let board = Board::make(alloc, world, operator, calls, number)?;
        let Ok((lock, passes)) = TurnLock::make(alloc, board, seats) else {
            return Err(NoMemory);
        };
        let swap = Swap {
            lock,
            lenders,
            calls,
        };
        Ok((swap, passes))
    }

    /// Takes all passes and gives the board. Each pass's entries are those that the board's history
    /// has of it. Where a pass is missing, all comes back.
    pub fn into_board(self, passes: Vec<Pass>) -> Result<Board<D, F, N>, (Swap<D, F, N>, Vec<Pass>)>
        requires { All (IsFreeOf self) passes.items }
        ensures refused { IsErr result ↔ (length passes.items < self.seats) }
        ensures kept { IfErr result (λ r. (r.0 ≡ self) × (r.1 ≡ passes)) }
        ensures mine { IfOk result
            (λ b.
            All (λ p. p.mine ≡ entries_of p.number b.world.core.device.history) passes.items) }
    {
        let Swap {
            lock,
            lenders,
            calls,
        } = self;
        match lock.close(passes) {
            Ok(board) => Ok(board),
            Err((lock, passes)) => {
                let swap = Swap {
                    lock,
                    lenders,
                    calls,
                };
                Err((swap, passes))
            }
        }
    }

    /// Takes all passes and gives the world. Each pass's entries are those that the world's history
    /// has of it. Where a pass is missing, all comes back.
    pub fn close(self, passes: Vec<Pass>) -> Result<World<D, F>, (Swap<D, F, N>, Vec<Pass>)>
        requires { All (IsFreeOf self) passes.items }
        ensures refused { IsErr result ↔ (length passes.items < self.seats) }
        ensures kept { IfErr result (λ r. (r.0 ≡ self) × (r.1 ≡ passes)) }
        ensures mine { IfOk result
            (λ w. All (λ p. p.mine ≡ entries_of p.number w.core.device.history) passes.items) }
        ensures played { IfOk result (λ w. IsPlayed D.moves F.moves N.named w) }
    {
        match self.into_board(passes) {
            Ok(board) => Ok(board.into_world()),
            Err(back) => Err(back),
        }
    }
}

// These points, and this one where the gate lets it pass.
fn ask_at<G: Gate>(points: OpenPoints, point: Point, gate: &G) -> OpenPoints {
    match gate.may_pass(point) {
        Ok(()) => points.with(point),
        Err(_no) => points,
    }
}

// Tells the gate of an answered call.
fn hear<G: Gate>(gate: &G, caller: Caller, ended: &Ended) {
    match ended.answer {
        Ok(_) | Err(SwapFault::Disk { .. }) => gate.answered(caller, ended.number),
        Err(SwapFault::Spent | SwapFault::NoMemory) => {}
    }
}
