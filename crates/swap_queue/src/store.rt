ghost use Rattle.std.specs.Prelude.{◌≡◌, ℕ, ◌<◌, ◌≤◌, ◌==◌, length, IfOk, IsSome, IsTrue, Some, None, true, false, if◌then◌else◌, position, count_by, slice_index_or, slice_set, vec_len, vec_capacity};
ghost use Rattle.swap_queue.specs.Queue.{first_of};
ghost use Rattle.swap_queue.specs.Cells.{free_cell, is_for, is_used, entry_of, with_flying, land_after, free_cells};
ghost use Rattle.swap_queue.specs.Stored.{StoreView, IsPlaceFor, HasRoom, IsSized, one_below, free_list_after, Takes};

use crate::cell::{Cell, Held};
use std::alloc::Global;
use std::marker::Model;
use swap_base::{EntryNo, NoMemory, Page};

/// Where a page's copies are kept: the place of the one that flies, and that of its next one.
#[derive(Clone, Copy)]
pub(crate) struct Spot {
    pub(crate) flying: Option<u32>,
    pub(crate) next: Option<u32>,
}

/// The cells, with the places of each page's copies and the places that are free.
#[derive(Drop)]
pub(crate) struct Store {
    cells: Vec<Cell>,
    spots: Vec<Spot>,
    free: Vec<u32>,
}

impl Model for Store {
    ghost use Rattle.std.specs.Prelude.{length, vec_capacity};
    ghost use Rattle.swap_queue.specs.Stored.{StoreView, IsStored};

    ghost Value = { StoreView };

    ghost view = { λ s. record { cells = s.cells.items; pages = length s.spots.items } };

    ghost invariant = { λ s.
        IsStored s.cells.items s.spots.items s.free.items (vec_capacity s.free) };
}

/// So many free cells.
fn make_cells(alloc: Global, count: u32, page_bytes: u32) -> Result<Vec<Cell>, NoMemory>
    ensures { IfOk result (λ cells. cells.items ≡ free_cells count page_bytes) }
{
    let mut cells = Vec::new(alloc);
    for _ in 0..count {
        let Ok(cell) = Cell::make(alloc, page_bytes as usize) else {
            return Err(NoMemory);
        };
        if cells.push(cell).is_err() {
            return Err(NoMemory);
        }
    }
    Ok(cells)
}

/// The numbers of so many places, each once.
fn make_places(alloc: Global, count: u32) -> Result<Vec<u32>, NoMemory>
    ensures len { IfOk result (λ free. vec_len free ≡ count) }
    ensures room { IfOk result (λ free. count ≤ vec_capacity free) }
    ensures once { IfOk result
        (λ free. (i : ℕ) → count_by (λ j. j == i) free.items ≡ one_below count i) }
{
    let Ok(mut free) = Vec::with_capacity(alloc, count as usize) else {
        return Err(NoMemory);
    };
    for place in 0..count {
        free.push_reserved(place);
    }
    Ok(free)
}

/// The place of a next copy, or the last one that is free.
fn take_place(free: &mut Vec<u32>, next: Option<u32>) -> u32
    requires { next ≡ None → 0 < vec_len free.old }
    ensures taken { Takes next free.old.items result free.new.items }
    ensures capacity { vec_capacity free.new ≡ vec_capacity free.old }
{
    match next {
        Some(place) => place,
        None => free.pop().unwrap(),
    }
}

/// A page's places once its flying copy has landed: the place that it had is that of its next copy
/// where it is kept.
fn landed_spot(next: Option<u32>, place: u32, keeps: bool) -> Spot
    ensures { result ≡ record { flying = None; next = (if keeps then Some place else next) } }
{
    let next = if keeps { Some(place) } else { next };
    Spot { flying: None, next }
}

/// The place is free from now on, where it is to be.
fn give_back(free: &mut Vec<u32>, place: u32, frees: bool)
    requires { IsTrue frees → vec_len free.old < vec_capacity free.old }
    ensures items { free.new.items ≡ free_list_after free.old.items place frees }
    ensures capacity { vec_capacity free.new ≡ vec_capacity free.old }
{
    if frees {
        free.push_reserved(place);
    }
}

impl Store {
    /// So many free cells, and a table for so many pages.
    pub(crate) fn make(
        alloc: Global,
        count: u32,
        page_bytes: u32,
        pages: u32,
    ) -> Result<Store, NoMemory>
        ensures { IfOk result
            (λ s. s ≡ record { cells = free_cells count page_bytes; pages = pages }) }
    {
        let cells = make_cells(alloc, count, page_bytes)?;
        let free = make_places(alloc, count)?;
        let none = Spot {
            flying: None,
            next: None,
        };
        let Ok(spots) = vec![in alloc; none; pages as usize] else {
            return Err(NoMemory);
        };
        Ok(Store { cells, spots, free })
    }

    /// The place of the page's copy of this kind.
    pub(crate) fn find(&self, page: Page, flying: bool) -> Option<u32>
        requires { page.0 < self.now.pages }
        ensures { result ≡ position (is_for flying page.0) self.now.cells }
    {
        let spot = self.spots[page.0 as usize];
        if flying { spot.flying } else { spot.next }
    }

    /// The place of the page's newest copy: its next one, else the one that flies.
    pub(crate) fn newest_place(&self, page: Page) -> Option<u32>
        requires { page.0 < self.now.pages }
        ensures { result
            ≡ first_of (position (is_for false page.0) self.now.cells)
            (position (is_for true page.0) self.now.cells) }
    {
        let spot = self.spots[page.0 as usize];
        match spot.next {
            Some(place) => Some(place),
            None => spot.flying,
        }
    }

    /// How many cells have a copy.
    pub(crate) fn count_used(&self) -> usize
        ensures { result ≡ count_by is_used self.now.cells }
    {
        self.cells.len() - self.free.len()
    }

    /// Gives out the copy at a place.
    pub(crate) fn give(&self, place: u32, buf: &mut [u8]) -> EntryNo
        requires within { place < length self.now.cells }
        requires used { IsSome (slice_index_or self.now.cells place free_cell).held }
        requires length { length buf.old
            ≡ length (slice_index_or self.now.cells place free_cell).bytes }
        ensures bytes { buf.new ≡ (slice_index_or self.now.cells place free_cell).bytes }
        ensures entry { Some result
            ≡ entry_of (slice_index_or self.now.cells place free_cell).held }
    {
        let cell = &self.cells[place as usize];
        cell.give(buf)
    }

    /// Keeps a copy as the page's next one, in place of the one that it had or in a free cell. Its
    /// place.
    pub(crate) fn put(&mut self, page: Page, entry: EntryNo, bytes: &[u8]) -> u32
        requires page { page.0 < self.old.pages }
        requires room { HasRoom self.old.cells page.0 }
        requires sized { IsSized self.old.cells (length bytes.now) }
        ensures place { IsPlaceFor self.old.cells page.0 result }
        ensures cells { self.new.cells
            ≡ slice_set self.old.cells result
            (record {
              held = Some (record { page = page; entry = entry; flying = false });
              bytes = bytes.now;
            }) }
        ensures pages { self.new.pages ≡ self.old.pages }
    {
        let spot = self.spots[page.0 as usize];
        let place = take_place(&mut self.free, spot.next);
        let held = Held {
            page,
            entry,
            flying: false,
        };
        let cell = &mut self.cells[place as usize];
        cell.keep(held, bytes);
        self.spots[page.0 as usize] = Spot {
            flying: spot.flying,
            next: Some(place),
        };
        place
    }

    /// The page's next copy, which is at this place, goes to the disk.
    pub(crate) fn launch(&mut self, page: Page, place: u32)
        requires page { page.0 < self.old.pages }
        requires waits { position (is_for false page.0) self.old.cells ≡ Some place }
        requires alone { position (is_for true page.0) self.old.cells ≡ None }
        ensures cells { let old = slice_index_or self.old.cells place free_cell in
            self.new.cells
            ≡ slice_set self.old.cells place
            (record { held = with_flying true old.held; bytes = old.bytes }) }
        ensures pages { self.new.pages ≡ self.old.pages }
    {
        let cell = &mut self.cells[place as usize];
        cell.launch();
        self.spots[page.0 as usize] = Spot {
            flying: Some(place),
            next: None,
        };
    }

    /// The page's copy at this place is back from the disk: it waits again where it is kept, else
    /// its cell is free.
    pub(crate) fn land(&mut self, page: Page, place: u32, keeps: bool) -> EntryNo
        requires page { page.0 < self.old.pages }
        requires flies { position (is_for true page.0) self.old.cells ≡ Some place }
        requires alone { IsTrue keeps → position (is_for false page.0) self.old.cells ≡ None }
        ensures entry { Some result
            ≡ entry_of (slice_index_or self.old.cells place free_cell).held }
        ensures cells { let old = slice_index_or self.old.cells place free_cell in
            self.new.cells
            ≡ slice_set self.old.cells place
            (record { held = land_after keeps old.held; bytes = old.bytes }) }
        ensures pages { self.new.pages ≡ self.old.pages }
    {
        let cell = &mut self.cells[place as usize];
        let entry = cell.land(keeps);
        let spot = self.spots[page.0 as usize];
        self.spots[page.0 as usize] = landed_spot(spot.next, place, keeps);
        give_back(&mut self.free, place, !keeps);
        entry
    }
}
