// The value that is locked: a world, and what is known of how it was reached.
ghost use Rattle.std.specs.Prelude.{◌≡◌, ◌≢◌, ◌≤◌, ◌<◌, ◌+◌, ◌^◌, ◌↔◌, ◌∷◌, ℕ, [], true, false, length, List, Option, Some, None, IfOk, IfErr};
ghost use Rattle.swap_wire.specs.Input.{IsInRange};
ghost use Rattle.swap_calls.specs.Calls.{is_idle, state_of};
ghost use Rattle.swap_world.specs.Runs.{busy_callers, GivesPage};
ghost use Rattle.swap_board.specs.Acts.{IsOperators, since_after};
ghost use Rattle.swap_board.specs.Boards.{Named, nothing_named, operated_of, seed_of};
ghost use Rattle.swap_record.specs.declared.TheConstants.{MOST_ENTRIES};

use crate::works::{Moved, Point, make, pace, pump};
use rand_core::SeedableRng;
use rand_pcg::Lcg64Xsh32;
use std::alloc::Global;
use std::marker::{Brand, Model, PhantomData};
use swap_base::{Caller, NoMemory};
use swap_disk::DiskPort;
use swap_turn::Told;
use swap_wire::{Event, Fabric, Seen};
use swap_world::World;

/// What stays the same of a board under its lock. Its member stands in contracts alone.
pub trait Naming<D, F> {
    ghost named: { Named D F };
}

impl<D, F> Naming<D, F> for Brand {
    ghost named = { nothing_named };
}

/// A world that callers, pumps and an operator take in turns.
#[derive(Drop)]
pub struct Board<D: DiskPort, F: Fabric, N: Naming<D, F>> {
    world: World<D, F>,
    operator: Vec<Event>,
    places: Vec<usize>,
    calls: u32,
    begun: u32,
    since: u32,
    words: Lcg64Xsh32,
    page: Vec<u8>,
    of: PhantomData<N>,
}

impl<D: DiskPort, F: Fabric, N: Naming<D, F>> Model for Board<D, F, N> {
    ghost use Rattle.std.specs.Prelude.{length, vec_capacity};
    ghost use Rattle.swap_board.specs.Boards.{BoardView, IsKept};

    ghost Value = { BoardView D F };

    ghost view = { λ b.
        record {
          world = b.world;
          begun = b.begun;
          since = b.since;
          made = length b.places.items;
          words = b.words;
        } };

    ghost invariant = { λ b.
        IsKept D.moves F.moves N.named b.world b.begun b.since b.places.items b.words
        b.operator.items
        (vec_capacity b.places) b.calls b.page.items };
}

impl<D: DiskPort, F: Fabric, N: Naming<D, F>> Told for Board<D, F, N> {
    ghost history = { λ b. b.world.core.device.history };

    fn told(&self) -> u32 {
        self.world.device().history().len()
    }
}

/// How a call of a board began.
pub enum Begun {
    Made(Seen),
    Spent,
    NoMemory,
}

/// How the operator's next event ended.
#[derive(Clone, Copy, Debug, PartialEq, Eq)]
pub enum Operated {
    Made,
    Nothing,
    Ended,
    NoMemory,
}

impl<D: DiskPort, F: Fabric, N: Naming<D, F>> Board<D, F, N> {
    ghost use Rattle.swap_board.specs.Boards.{BeginsAs, BeginsHistory, BeginsGives, FinishesAs, FinishesGives, OperatesAs, IsCall, IsOfIdle};
    ghost use Rattle.swap_board.specs.Works.{PumpsAs, IsPoint};

    /// The world, for reading.
    pub fn world(&self) -> &World<D, F>
        ensures { result.now ≡ self.now.world }
    {
        &self.world
    }

    /// How many calls may begin.
    pub fn calls(&self) -> u32
        ensures { result ≡ N.named.calls }
    {
        self.calls
    }

    /// The geometry and the number of lenders are the named ones.
    pub fn is_named(&self)
        ensures sizes { self.now.world.core.device.sizes ≡ N.named.sizes }
        ensures lenders { self.now.world.core.device.lenders ≡ N.named.lenders }
    {
        let _calls = self.calls;
    }

    /// Begins a call: its event, and before it a Round with the generator's next word where 256
    /// calls were begun since the last. `Spent` comes exactly where all calls were begun before,
    /// and then nothing changes.
    pub fn begin(&mut self, event: &Event, page: &mut [u8]) -> Begun
        requires call { IsCall event.now }
        requires range { IsInRange N.named.sizes N.named.lenders event.now }
        requires idle { IsOfIdle self.old.world.core.device event.now }
        requires page { length page.old ≡ N.named.sizes.page_bytes }
        ensures begins { BeginsAs D.moves F.moves N.named.calls event.now page.old result
            self.old self.new }
        ensures history { BeginsHistory event.now page.old result
            self.old.world.core.device.history self.new.world.core.device.history }
        ensures gives { BeginsGives event.now result self.new.world.core.device.history page.old
            page.new }
    {
        if self.begun == self.calls {
            return Begun::Spent;
        }
        let paced = pace(&mut self.world, self.since, &mut self.words, &mut self.page);
        let Some(since) = paced else {
            return Begun::NoMemory;
        };
        let seen = self.world.step(event, page);
        self.begun += 1;
        self.since = since + 1;
        Begun::Made(seen)
    }

    /// Makes a step of a call that was begun.
    pub fn finish(&mut self, caller: Caller, page: &mut [u8]) -> Result<Seen, NoMemory>
        requires caller { caller.0 < N.named.sizes.callers }
        requires busy { is_idle (state_of self.old.world.core.device.calls caller) ≡ false }
        requires page { length page.old ≡ N.named.sizes.page_bytes }
        ensures makes { FinishesAs D.moves F.moves caller page.old result self.old self.new }
        ensures gives { FinishesGives caller result self.new.world.core.device.history page.old
            page.new }
    {
        if self.world.reserve(0, 1).is_err() {
            return Err(NoMemory);
        }
        Ok(self.world.step(&Event::Finish { caller }, page))
    }

    /// Works at a point: at the disk a copy leaves for it, the oldest operation of a disk in memory
    /// finishes, and what finished by itself is taken; at a link its lender takes the next message,
    /// or the device does. `Nothing` comes exactly where none of that has an effect.
    pub fn pump(&mut self, point: Point) -> Moved
        requires { IsPoint N.named.lenders point }
        ensures pumps { PumpsAs D.moves F.moves D.means point result self.old.world self.new.world }
        ensures rest { self.new ≡ record self.old { world = self.new.world } }
    {
        pump(&mut self.world, &mut self.page, point)
    }

    /// Makes the operator's next event. `Ended` comes exactly where all were made before, `Nothing`
    /// exactly where the event had no effect; it counts as made then too.
    pub fn operate(&mut self) -> Operated
        ensures makes { OperatesAs D.moves F.moves N.named.operator result self.old self.new }
    {
        let made = self.places.len();
        if made == self.operator.len() {
            return Operated::Ended;
        }
        let event = self.operator[made];
        let place = self.world.log_len();
        let moved = make(&mut self.world, &mut self.page, &event);
        if moved == Moved::NoMemory {
            return Operated::NoMemory;
        }
        self.places.push_reserved(place);
        self.since = since_after(&event, self.since);
        operator_did(moved)
    }
}

impl<D: DiskPort + Drop, F: Fabric + Drop, N: Naming<D, F>> Board<D, F, N> {
    ghost use Rattle.swap_board.specs.Boards.{WasPlayed, AreOperators};

    /// A board over a world that agrees with what is named, in which every caller is idle.
    pub fn make(
        alloc: Global,
        mut world: World<D, F>,
        operator: Vec<Event>,
        calls: u32,
        number: u64,
    ) -> Result<Board<D, F, N>, NoMemory>
        requires named { N.named
            ≡ record {
              opening = Some world;
              sizes = world.core.device.sizes;
              lenders = world.core.device.lenders;
              operator = operator.items;
              calls = calls;
              number = number;
            } }
        requires idle { busy_callers world.core.device ≡ 0 }
        requires operator { AreOperators world.core.device.sizes world.core.device.lenders
            operator.items }
        requires few { length world.core.device.history + calls ≤ MOST_ENTRIES }
        ensures history { IfOk result (λ b. b.world.core.device ≡ world.core.device) }
        ensures counts { IfOk result
            (λ b. b
            ≡ record {
              world = b.world;
              begun = 0;
              since = 0;
              made = 0;
              words = seed_of number;
            }) }
    {
        if world.reserve(calls, 0).is_err() {
            return Err(NoMemory);
        }
        let page_bytes = world.device().geometry().page_bytes();
        let Ok(page) = vec![in alloc; 0u8; page_bytes as usize] else {
            return Err(NoMemory);
        };
        let Ok(places) = Vec::with_capacity(alloc, operator.len()) else {
            return Err(NoMemory);
        };
        Ok(Board {
            world,
            operator,
            places,
            calls,
            begun: 0,
            since: 0,
            words: Lcg64Xsh32::seed_from_u64(number),
            page,
            of: PhantomData,
        })
    }

    /// The world, and how it was reached.
    pub fn into_world(self) -> World<D, F>
        ensures world { result ≡ self.world }
        ensures played { WasPlayed D.moves F.moves N.named self }
    {
        self.world
    }
}

// How the operator's event ended.
fn operator_did(moved: Moved) -> Operated
    ensures { result ≡ operated_of moved }
{
    match moved {
        Moved::Did => Operated::Made,
        Moved::Nothing => Operated::Nothing,
        Moved::NoMemory => Operated::NoMemory,
    }
}

fn since_after(event: &Event, since: u32) -> u32
    requires { IsOperators event.now }
    ensures { result ≡ since_after event.now since }
{
    match event {
        Event::Round { .. } => 0,
        _ => since,
    }
}
