ghost use Rattle.std.specs.Prelude.{◌≡◌, ℕ, ◌<◌, ◌≤◌, ◌^◌, List, length, true, false, [], Some, IfOk, MatchOption};
ghost use Rattle.swap_io.specs.Causes.{Rose};
ghost use Rattle.swap_disk.specs.Port.{TakeDone, taken_by};
ghost use Rattle.swap_file.specs.Files.{file_port, Moves};

use crate::flights::{Flights, Flying};
use crate::worker::{Done, Order, work};
use std::alloc::Global;
use std::fs::{File, Files};
use std::marker::Model;
use std::sync::Wait;
use std::thread;
use std::thread::Threads;
use swap_base::{Caller, DiskWhich, Geometry, Page};
use swap_disk::{DiskDone, DiskPort};
use swap_ends::{Bell, End, SharedBell};

/// Why a disk wasn't opened: the system refused a file or a thread, or there was no memory.
#[derive(Clone, Copy, Debug, PartialEq, Eq)]
pub enum NotOpened {
    Failed,
    NoMemory,
}

/// A disk in a file, which a thread reads and writes. Its calls push to and pop from queues, and
/// take no memory; none waits for the file. Where it is dropped the thread is told to stop and does
/// what is left, and the drop waits for its end.
///
/// It doesn't tell its blocks. An operation that failed, or couldn't be handed to the thread, is a
/// fault of the `take` that ends it. What comes back and names no operation in flight is dropped by
/// the `take` that sees it.
pub struct FileDisk<R: Wait + Copy> {
    rt: R,
    geometry: Geometry,
    flights: Flights,
    spare: Vec<Vec<u8>>,
    faults: u64,
    orders: End<Order>,
    dones: End<Done>,
    bell: SharedBell,
    gone: SharedBell,
}

impl<R: Wait + Copy> Model for FileDisk<R> {
    ghost use Rattle.std.specs.Prelude.{◌≡◌, ◌<◌, ◌^◌};
    ghost use Rattle.swap_file.specs.Files.{FilePort, file_port};

    ghost Value = { FilePort };

    ghost view = { λ d. file_port d.geometry d.flights.flights d.faults d.dones };

    ghost invariant = { λ d. (d.flights.queue ≡ d.geometry.queue)
        × (d.flights.callers ≡ d.geometry.callers) × (d.faults < 2 ^ 64) };
}

impl<R: Wait + Copy> Drop for FileDisk<R> {
    fn drop(self) {
        let FileDisk {
            rt,
            geometry: _,
            flights: _,
            spare: _,
            faults: _,
            orders: _,
            dones: _,
            bell,
            gone,
        } = self;
        bell.stop();
        gone.wait_for_stop(&rt);
    }
}

/// A bell, twice.
fn bells(alloc: Global) -> Result<(SharedBell, SharedBell), NotOpened> {
    match Bell::pair(alloc) {
        Ok(bells) => Ok(bells),
        Err(_) => Err(NotOpened::NoMemory),
    }
}

/// So many buffers of a page.
fn make_buffers(alloc: Global, count: usize, page_bytes: usize) -> Result<Vec<Vec<u8>>, NotOpened> {
    let Ok(mut buffers) = Vec::with_capacity(alloc, count) else {
        return Err(NotOpened::NoMemory);
    };
    for _ in 0..count {
        let Ok(buffer) = Vec::from_elem(alloc, 0, page_bytes) else {
            return Err(NotOpened::NoMemory);
        };
        if buffers.push(buffer).is_err() {
            return Err(NotOpened::NoMemory);
        }
    }
    Ok(buffers)
}

/// The file at a path, made anew, of the geometry's size and with zeros.
pub fn make_file<R: Files<File = File>>(
    rt: &R,
    path: &str,
    geometry: &Geometry,
) -> Result<File, NotOpened> {
    let mut options = File::options();
    options.read(true).write(true).create(true).truncate(true);
    let Ok(file) = options.open(rt, path) else {
        return Err(NotOpened::Failed);
    };
    let page_bytes = u64::from(geometry.page_bytes());
    match file.set_len(u64::from(geometry.pages()).saturating_mul(page_bytes)) {
        Ok(()) => Ok(file),
        Err(_) => Err(NotOpened::Failed),
    }
}

/// The two ends of a queue for so many items.
fn pair<T: Drop>(alloc: Global, room: usize) -> Result<(End<T>, End<T>), NotOpened>
    requires { 0 < room }
    ensures { IfOk result (λ r. (r.0 ≡ []) × (r.1 ≡ [])) }
{
    match End::pair(alloc, room) {
        Ok(ends) => Ok(ends),
        Err(_) => Err(NotOpened::NoMemory),
    }
}

impl<R> FileDisk<R>
where
    R: Wait + Threads + Copy + Send + 'static,
{
    /// Makes the file anew, of the geometry's size and with zeros, and its thread and all buffers.
    pub fn open(
        rt: R,
        alloc: Global,
        path: &str,
        geometry: &Geometry,
    ) -> Result<FileDisk<R>, NotOpened>
    where
        R: Files<File = File>,
        ensures { IfOk result (λ d. d ≡ file_port geometry.now [] 0 []) }
    {
        let file = make_file(&rt, path, geometry)?;
        FileDisk::over(rt, alloc, file, geometry)
    }

    /// A disk over a file of the geometry's size, as `make_file` makes it: its thread and all
    /// buffers.
    pub fn over(
        rt: R,
        alloc: Global,
        file: File,
        geometry: &Geometry,
    ) -> Result<FileDisk<R>, NotOpened>
        ensures { IfOk result (λ d. d ≡ file_port geometry.now [] 0 []) }
    {
        let page_bytes = geometry.page_bytes();
        let room = geometry.queue() as usize + geometry.callers() as usize;
        let spare = make_buffers(alloc, room, page_bytes as usize)?;
        let Ok(flights) = Flights::make(alloc, geometry.queue(), geometry.callers()) else {
            return Err(NotOpened::NoMemory);
        };
        let (orders, to_do) = pair(alloc, room + 1)?;
        let (dones, given) = pair(alloc, room + 1)?;
        let (bell, theirs) = bells(alloc)?;
        let (gone, going) = bells(alloc)?;
        let worker = move || {
            work(&rt, file, to_do, given, &theirs);
            going.stop();
        };
        if thread::spawn(&rt, worker).is_err() {
            return Err(NotOpened::Failed);
        }
        Ok(FileDisk {
            rt,
            geometry: *geometry,
            flights,
            spare,
            faults: 0,
            orders,
            dones,
            bell,
            gone,
        })
    }
}

impl<R: Wait + Copy> FileDisk<R> {
    /// Hands an order to the thread in a spare buffer, which gets these bytes if there are some;
    /// whether the thread has it.
    fn order(&mut self, which: DiskWhich, page: Page, fill: Option<&[u8]>) -> bool
        ensures { self.new ≡ self.old }
    {
        let Some(mut bytes) = self.spare.pop() else {
            return false;
        };
        if !is_filled(&mut bytes, fill) {
            self.keep(bytes);
            return false;
        }
        match self.orders.push(&self.rt, Order { which, page, bytes }) {
            Ok(()) => {
                self.bell.ring();
                true
            }
            Err(refused) => {
                self.keep(refused.bytes);
                false
            }
        }
    }

    /// A buffer that came back is spare again.
    fn keep(&mut self, bytes: Vec<u8>)
        ensures { self.new ≡ self.old }
    {
        if self.spare.len() < self.spare.capacity() {
            self.spare.push_reserved(bytes);
        }
    }

    /// What is told of an operation that ended. One that failed is a fault.
    fn ended(&mut self, which: DiskWhich, page: Page, ok: bool) -> DiskDone
        ensures done { result ≡ record { which = which; page = page; ok = ok } }
        ensures port { self.new
            ≡ file_port self.old.port.sizes self.old.port.flights self.new.port.faults
            self.old.came }
        ensures later { self.old.port.faults ≤ self.new.port.faults }
        ensures cause { ok ≡ false → Rose self.old.port.faults self.new.port.faults }
    {
        self.faults = counted(self.faults, ok);
        DiskDone { which, page, ok }
    }

    /// Ends an operation that the thread doesn't have, if there is one.
    fn take_unsent(&mut self) -> Option<DiskDone>
        ensures { (buf : List ℕ)
            → MatchOption result (self.new ≡ self.old)
            (λ done. Moves self.old TakeDone (taken_by (Some done) buf) self.new) }
    {
        let which = self.flights.unsent()?;
        let flying = self.flights.end(which)?;
        Some(self.ended(which, flying.page(), false))
    }

    /// Hands over what came back of a page: its bytes are copied to the buffer.
    fn hand_over(&mut self, page: Page, done: Done, buf: &mut [u8]) -> DiskDone
        ensures done { (result.which ≡ done.which) × (result.page ≡ page) }
        ensures ok { result.ok ≡ true → done.ok ≡ true }
        ensures filled { result.ok ≡ true → buf.new ≡ done.bytes.items }
        ensures port { self.new
            ≡ file_port self.old.port.sizes self.old.port.flights self.new.port.faults
            self.old.came }
        ensures later { self.old.port.faults ≤ self.new.port.faults }
        ensures cause { result.ok ≡ false → Rose self.old.port.faults self.new.port.faults }
    {
        let Done { which, ok, bytes } = done;
        let fits = bytes.len() == buf.len();
        if fits {
            buf.copy_from_slice(&bytes);
        }
        self.keep(bytes);
        self.ended(which, page, ok && fits)
    }
}

/// One fault more where an operation failed.
fn counted(faults: u64, ok: bool) -> u64
    ensures later { faults ≤ result }
    ensures cause { ok ≡ false → Rose faults result }
    ensures range { result < 2 ^ 64 }
{
    if ok { faults } else { faults.saturating_add(1) }
}

/// Fills a buffer, if there is something to fill it with; false where the lengths differ.
fn is_filled(buffer: &mut Vec<u8>, fill: Option<&[u8]>) -> bool {
    let Some(bytes) = fill else {
        return true;
    };
    if buffer.len() != bytes.len() {
        return false;
    }
    buffer.as_mut_slice().copy_from_slice(bytes);
    true
}

impl<R: Wait + Copy> DiskPort for FileDisk<R> {
    ghost use Rattle.swap_file.specs.Files.{Moves};

    ghost means = { λ d. d.port };

    ghost moves = { Moves };

    fn start_write(&mut self, page: Page, bytes: &[u8]) {
        let sent = self.order(DiskWhich::Write(page), page, Some(bytes));
        let which = DiskWhich::Write(page);
        self.flights.start(Flying { which, page, sent });
    }

    fn start_read(&mut self, caller: Caller, page: Page) {
        let sent = self.order(DiskWhich::Read(caller), page, None);
        let which = DiskWhich::Read(caller);
        self.flights.start(Flying { which, page, sent });
    }

    fn take(&mut self, buf: &mut [u8]) -> Option<DiskDone> {
        if let Some(done) = self.take_unsent() {
            return Some(done);
        }
        let done = self.dones.pop(&self.rt)?;
        let flying = self.flights.end(done.which)?;
        Some(self.hand_over(flying.page(), done, buf))
    }

    fn finish(&mut self, _which: DiskWhich, _ok: bool) -> bool {
        let _faults = self.faults;
        false
    }

    fn oldest(&self) -> Option<DiskWhich> {
        let _faults = self.faults;
        None
    }

    ghost follows = { λ d c answer e m. m.0 };
}
