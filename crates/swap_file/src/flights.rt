ghost use Rattle.std.specs.Prelude.{◌≡◌, [], position, IfOk, IfSome};
ghost use Rattle.swap_disk.specs.Disk.{which_of, page_of, same_which};
ghost use Rattle.swap_file.specs.Flights.{flight_of, is_flying, Leaves, MayStart, start_after};

use std::alloc::Global;
use std::marker::Model;
use swap_base::{DiskWhich, NoMemory, Page};

/// An operation in flight, and whether the thread has it.
#[derive(Clone, Copy)]
pub(crate) struct Flying {
    pub(crate) which: DiskWhich,
    pub(crate) page: Page,
    pub(crate) sent: bool,
}

impl Flying {
    pub(crate) fn which(self) -> DiskWhich
        ensures { result ≡ which_of (flight_of self) }
    {
        self.which
    }

    pub(crate) fn page(self) -> Page
        ensures { result ≡ page_of (flight_of self) }
    {
        match self.which {
            DiskWhich::Write(page) => page,
            DiskWhich::Read(_) => self.page,
        }
    }
}

fn same(which: DiskWhich, other: DiskWhich) -> bool
    ensures { result ≡ same_which which other }
{
    match (which, other) {
        (DiskWhich::Write(page), DiskWhich::Write(other)) => page.0 == other.0,
        (DiskWhich::Read(caller), DiskWhich::Read(other)) => caller.0 == other.0,
        _ => false,
    }
}

fn is_of(which: DiskWhich, flying: &Flying) -> bool
    ensures { result ≡ is_flying which flying.now }
{
    let flying = *flying;
    same(which, flying.which())
}

fn place_of(flights: &[Flying], which: DiskWhich) -> Option<usize>
    ensures { result ≡ position (is_flying which) flights.now }
{
    flights.iter().position(|flying| is_of(which, flying))
}

/// The operations in flight, in the order of their start. All memory is taken at `make`.
#[derive(Drop)]
pub(crate) struct Flights {
    list: Vec<Flying>,
    queue: u32,
    callers: u32,
}

impl Model for Flights {
    ghost use Rattle.std.specs.Prelude.{◌+◌, ◌≤◌, vec_capacity};
    ghost use Rattle.swap_file.specs.Flights.{FlightsView, Holds, flights_of};

    ghost Value = { FlightsView };

    ghost view = { λ f.
        record { flights = flights_of f.list.items; queue = f.queue; callers = f.callers } };

    ghost invariant = { λ f.
        Holds
        (record { flights = flights_of f.list.items; queue = f.queue; callers = f.callers })
        × (f.queue + f.callers ≤ vec_capacity f.list) };
}

impl Flights {
    /// None, of so many writes and one read for each caller that there may be.
    pub(crate) fn make(alloc: Global, queue: u32, callers: u32) -> Result<Flights, NoMemory>
        ensures { IfOk result (λ f. f ≡ record { flights = []; queue = queue; callers = callers }) }
    {
        let Ok(list) = Vec::with_capacity(alloc, queue as usize + callers as usize) else {
            return Err(NoMemory);
        };
        Ok(Flights {
            list,
            queue,
            callers,
        })
    }

    pub(crate) fn start(&mut self, flying: Flying)
        requires { MayStart self.old (flight_of flying) }
        ensures { self.new ≡ start_after self.old (flight_of flying) }
    {
        self.list.push_reserved(flying);
    }

    /// The operation of this name leaves.
    pub(crate) fn end(&mut self, which: DiskWhich) -> Option<Flying>
        ensures { Leaves which self.old result self.new }
    {
        let place = place_of(&self.list, which)?;
        Some(self.list.remove(place))
    }

    /// An operation that the thread doesn't have.
    pub(crate) fn unsent(&self) -> Option<DiskWhich> {
        let flying = self.list.iter().find(|flying| !flying.sent)?;
        Some(flying.which)
    }
}
