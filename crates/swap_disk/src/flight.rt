ghost use Rattle.std.specs.Prelude.{◌≡◌, ℕ, ◌+◌, ◌<◌, ◌++◌, ◌∷◌, [], true, length, find, option_map, is_some, Some, IfOk, IsSome, replicate, vec_capacity, ◌≤◌};
ghost use Rattle.swap_base.specs.Sizes.{pages_of};
ghost use Rattle.swap_disk.specs.Disk.{Write, Read, is_flight_of, page_of, without_flight};
ghost use Rattle.swap_disk.specs.Port.{IsFree, writes_in, oldest_in, oldest_write_in};
ghost use Rattle.swap_disk.specs.Flights.{number_of, is_known, which_at};

use std::alloc::{AllocError, Global};
use std::marker::Model;
use swap_base::{Caller, DiskWhich, Geometry, NoMemory, Page};
use swap_places::{Line, is_a_line};

/// Room for a page's bytes.
#[derive(Drop)]
pub(crate) struct Buffer {
    bytes: Vec<u8>,
}

impl Model for Buffer {
    ghost use Rattle.std.specs.Prelude.{ℕ, List};

    ghost Value = { List ℕ };

    ghost view = { λ b. b.bytes.items };
}

impl Buffer {
    fn make(alloc: Global, page_bytes: usize) -> Result<Buffer, AllocError>
        ensures { IfOk result (λ b. b ≡ replicate page_bytes 0) }
    {
        Ok(Buffer {
            bytes: vec![in alloc; 0; page_bytes]?,
        })
    }

    fn bytes(&self) -> &[u8]
        ensures { result.now ≡ self.now }
    {
        &self.bytes
    }

    fn fill(&mut self, bytes: &[u8])
        requires { length bytes.now ≡ length self.old }
        ensures { self.new ≡ bytes.now }
    {
        self.bytes.as_mut_slice().copy_from_slice(bytes);
    }
}

/// The operations in flight in the order of their start. An operation has a number, a write that of
/// its page, and a read one behind all pages, so each call takes the same time however many are in
/// flight.
#[derive(Drop)]
pub(crate) struct Flights {
    geometry: Geometry,
    order: Line,
    writes: Line,
    reading: Vec<Page>,
    kept: Vec<Option<Buffer>>,
    spare: Vec<Buffer>,
}

impl Model for Flights {
    ghost use Rattle.std.specs.Prelude.{◌≤◌, vec_capacity};
    ghost use Rattle.swap_disk.specs.Flights.{FlightsView, flights_in, AreKept};

    ghost Value = { FlightsView };

    ghost view = { λ f.
        record {
          sizes = f.geometry;
          flights = flights_in f.geometry f.reading.items f.kept.items f.order.numbers;
        } };

    ghost invariant = { λ f.
        AreKept f.geometry f.order f.writes f.reading.items f.kept.items f.spare.items
        × (f.geometry.queue ≤ vec_capacity f.spare) };
}

/// Room for so many pages.
fn make_buffers(alloc: Global, count: u32, page_bytes: u32) -> Result<Vec<Buffer>, NoMemory>
    ensures items { IfOk result (λ v. v.items ≡ replicate count (replicate page_bytes 0)) }
    ensures room { IfOk result (λ v. count ≤ vec_capacity v) }
{
    let Ok(mut buffers) = Vec::with_capacity(alloc, count as usize) else {
        return Err(NoMemory);
    };
    for _ in 0..count {
        let Ok(buffer) = Buffer::make(alloc, page_bytes as usize) else {
            return Err(NoMemory);
        };
        buffers.push_reserved(buffer);
    }
    Ok(buffers)
}

/// For so many pages no bytes.
fn make_kept(alloc: Global, count: u32) -> Result<Vec<Option<Buffer>>, NoMemory>
    ensures { IfOk result (λ v. length v.items ≡ count) }
{
    let Ok(mut kept) = Vec::with_capacity(alloc, count as usize) else {
        return Err(NoMemory);
    };
    for _ in 0..count {
        kept.push_reserved(None);
    }
    Ok(kept)
}

/// An operation by its number.
fn which_of(geometry: &Geometry, number: u32) -> DiskWhich
    ensures { result ≡ which_at geometry.now number }
{
    let pages = geometry.pages();
    if number < pages {
        DiskWhich::Write(Page(number))
    } else {
        DiskWhich::Read(Caller(number - pages))
    }
}

impl Flights {
    /// Nothing is in flight. No other call takes memory.
    pub(crate) fn make(alloc: Global, geometry: &Geometry) -> Result<Flights, NoMemory>
        ensures { IfOk result (λ f. f ≡ record { sizes = geometry.now; flights = [] }) }
    {
        geometry.limits();
        let Ok(reading) = vec![in alloc; Page(0); geometry.callers() as usize] else {
            return Err(NoMemory);
        };
        Ok(Flights {
            geometry: *geometry,
            order: Line::make(alloc, geometry.pages() + geometry.callers())?,
            writes: Line::make(alloc, geometry.pages())?,
            reading,
            kept: make_kept(alloc, geometry.pages())?,
            spare: make_buffers(alloc, geometry.queue(), geometry.page_bytes())?,
        })
    }

    fn knows(&self, which: DiskWhich) -> bool
        ensures { result ≡ is_known self.now.sizes which }
    {
        match which {
            DiskWhich::Write(page) => page.0 < self.geometry.pages(),
            DiskWhich::Read(caller) => caller.0 < self.geometry.callers(),
        }
    }

    fn number(&self, which: DiskWhich) -> u32
        requires { is_known self.now.sizes which ≡ true }
        ensures number { result ≡ number_of self.now.sizes which }
        ensures below { result < pages_of self.now.sizes + self.now.sizes.callers }
    {
        self.geometry.limits();
        match which {
            DiskWhich::Write(page) => page.0,
            DiskWhich::Read(caller) => self.geometry.pages() + caller.0,
        }
    }

    /// Whether an operation is in flight.
    pub(crate) fn has(&self, which: DiskWhich) -> bool
        ensures { result ≡ is_some (find (is_flight_of which) self.now.flights) }
    {
        self.order.keeps();
        self.knows(which) && self.order.has(self.number(which))
    }

    /// The page of an operation in flight.
    pub(crate) fn page(&self, which: DiskWhich) -> Page
        requires { IsSome (find (is_flight_of which) self.now.flights) }
        ensures page { option_map page_of (find (is_flight_of which) self.now.flights)
            ≡ Some result }
        ensures within { result.0 < pages_of self.now.sizes }
    {
        self.order.keeps();
        match which {
            DiskWhich::Write(page) => page,
            DiskWhich::Read(caller) => self.reading[caller.0 as usize],
        }
    }

    /// The bytes of a write in flight.
    pub(crate) fn bytes(&self, page: Page) -> &[u8]
        requires { IsSome (find (is_flight_of (DiskWhich.Write page)) self.now.flights) }
        ensures bytes { find (is_flight_of (DiskWhich.Write page)) self.now.flights
            ≡ Some (Write page result.now) }
        ensures len { length result.now ≡ self.now.sizes.page_bytes }
        ensures within { page.0 < pages_of self.now.sizes }
    {
        self.order.keeps();
        self.kept[page.0 as usize].as_ref().unwrap().bytes()
    }

    /// Starts a write. No write of that page may be in flight, and fewer than the geometry's queue.
    pub(crate) fn start_write(&mut self, page: Page, bytes: &[u8])
        requires page { page.0 < pages_of self.old.sizes }
        requires bytes { length bytes.now ≡ self.old.sizes.page_bytes }
        requires free { IsFree self.old.flights (DiskWhich.Write page) }
        requires room { writes_in self.old.flights < self.old.sizes.queue }
        ensures { self.new
            ≡ record self.old { flights = self.old.flights ++ Write page bytes.now ∷ [] } }
    {
        is_a_line();
        self.order.keeps();
        let mut buffer = self.spare.pop().unwrap();
        buffer.fill(bytes);
        self.kept[page.0 as usize] = Some(buffer);
        self.order.enter(page.0);
        self.writes.enter(page.0);
    }

    /// Starts a read. No read for that caller may be in flight.
    pub(crate) fn start_read(&mut self, caller: Caller, page: Page)
        requires caller { caller.0 < self.old.sizes.callers }
        requires page { page.0 < pages_of self.old.sizes }
        requires free { IsFree self.old.flights (DiskWhich.Read caller) }
        ensures { self.new
            ≡ record self.old { flights = self.old.flights ++ Read caller page ∷ [] } }
    {
        is_a_line();
        self.order.keeps();
        self.geometry.limits();
        self.reading[caller.0 as usize] = page;
        self.order.enter(self.geometry.pages() + caller.0);
    }

    /// An operation in flight is over.
    pub(crate) fn land(&mut self, which: DiskWhich)
        requires { IsSome (find (is_flight_of which) self.old.flights) }
        ensures { self.new ≡ record self.old { flights = without_flight which self.old.flights } }
    {
        match which {
            DiskWhich::Write(page) => self.land_write(page),
            DiskWhich::Read(caller) => self.land_read(caller),
        }
    }

    /// A write is over: its room is free again.
    fn land_write(&mut self, page: Page)
        requires { IsSome (find (is_flight_of (DiskWhich.Write page)) self.old.flights) }
        ensures { self.new
            ≡ record self.old { flights = without_flight (DiskWhich.Write page) self.old.flights } }
    {
        is_a_line();
        self.order.keeps();
        self.writes.keeps();
        let buffer = self.kept[page.0 as usize].take().unwrap();
        self.spare.push_reserved(buffer);
        self.order.leave(page.0);
        self.writes.leave(page.0);
    }

    fn land_read(&mut self, caller: Caller)
        requires { IsSome (find (is_flight_of (DiskWhich.Read caller)) self.old.flights) }
        ensures { self.new
            ≡ record self.old {
              flights = without_flight
                  (DiskWhich.Read caller) self.old.flights;
            } }
    {
        is_a_line();
        self.order.keeps();
        self.geometry.limits();
        self.order.leave(self.geometry.pages() + caller.0);
    }

    /// The operation that was started first.
    pub(crate) fn oldest(&self) -> Option<DiskWhich>
        ensures { result ≡ oldest_in self.now.flights }
    {
        let number = self.order.first()?;
        Some(which_of(&self.geometry, number))
    }

    /// The page of the write that was started first.
    pub(crate) fn oldest_write(&self) -> Option<Page>
        ensures { result ≡ oldest_write_in self.now.flights }
    {
        let number = self.writes.first()?;
        Some(Page(number))
    }

    /// How many writes are in flight.
    pub(crate) fn count_writes(&self) -> u32
        ensures { result ≡ writes_in self.now.flights }
    {
        self.writes.len()
    }
}
