ghost use Rattle.std.specs.Prelude.{◌≡◌, ℕ, ◌<◌, length, IfOk, IfSome, IsSome, IsNone, IsTrue, ◌↔◌, [], Some, option_map};
ghost use Rattle.std.specs.VecDeque.{deque_len, deque_capacity};
ghost use Rattle.swap_base.specs.declared.Page.{Page};
ghost use Rattle.swap_base.specs.declared.EntryNo.{EntryNo};
ghost use Rattle.swap_base.specs.Sizes.{Sizes, pages_of};
ghost use Rattle.swap_queue.specs.Kept.{IsQueue};
ghost use Rattle.swap_queue.specs.Queue.{Copy, copies, holds, has_room, put_after, next_copy, newest, flying, front, start, done_after, failed_after};
ghost use Rattle.swap_queue.specs.BehindView.{new_backlog, bytes_or, started_answer, started_bytes, failed_answer};
ghost use Rattle.swap_queue.specs.Cells.{line_with};

use crate::Failed;
use crate::store::Store;
use std::alloc::Global;
use std::collections::VecDeque;
use std::marker::Model;
use swap_base::{EntryNo, Geometry, NoMemory, Page};

/// The write-behind queue: for each page at most one copy on its way to the disk and at most one
/// that is next, and the line of pages that wait. All memory is taken at `make`.
#[derive(Drop)]
pub struct Behind {
    geometry: Geometry,
    store: Store,
    line: VecDeque<Page>,
}

impl Model for Behind {
    ghost use Rattle.std.specs.Prelude.{◌≤◌};
    ghost use Rattle.std.specs.VecDeque.{deque_capacity};
    ghost use Rattle.swap_queue.specs.BehindView.{BehindView};
    ghost use Rattle.swap_queue.specs.Cells.{queue_in};
    ghost use Rattle.swap_queue.specs.Stored.{BehindFits};

    ghost Value = { BehindView };

    ghost view = { λ b.
        record { sizes = b.geometry; queue = queue_in b.geometry b.store.cells b.line.items } };

    ghost invariant = { λ b. BehindFits b.geometry b.store b.line.items (deque_capacity b.line) };
}

/// The page goes to the back of the line, where it is to wait.
fn join(line: &mut VecDeque<Page>, page: Page, waits: bool)
    requires { IsTrue waits → deque_len line.old < deque_capacity line.old }
    ensures items { line.new.items ≡ line_with line.old.items page waits }
    ensures capacity { deque_capacity line.new ≡ deque_capacity line.old }
{
    if waits {
        line.push_back_reserved(page);
    }
}

impl Behind {
    /// An empty queue for the geometry's pages and copies.
    pub fn make(alloc: Global, geometry: &Geometry) -> Result<Behind, NoMemory>
        ensures { IfOk result (λ b. b ≡ new_backlog geometry.now) }
    {
        let store = Store::make(
            alloc,
            geometry.queue(),
            geometry.page_bytes(),
            geometry.pages(),
        )?;
        let Ok(line) = VecDeque::with_capacity(alloc, geometry.queue() as usize) else {
            return Err(NoMemory);
        };
        Ok(Behind {
            geometry: *geometry,
            store,
            line,
        })
    }

    /// What each queue keeps.
    pub fn keeps(&self)
        ensures { IsQueue self.now.sizes self.now.queue }
    {
        let _ = &self.line;
    }

    /// How many copies there are, of both kinds.
    pub fn copies(&self) -> u32
        ensures { result ≡ copies self.now.queue }
    {
        let _most = self.geometry.queue();
        self.store.count_used() as u32
    }

    /// Whether the page has a copy.
    pub fn holds(&self, page: Page) -> bool
        requires { page.0 < pages_of self.now.sizes }
        ensures { result ≡ holds self.now.queue page }
    {
        self.store.newest_place(page).is_some()
    }

    /// Whether a page-out of the page may be put: it has a next copy, or there is room for one more
    /// copy.
    pub fn has_room(&self, page: Page) -> bool
        requires { page.0 < pages_of self.now.sizes }
        ensures { result ≡ has_room self.now.queue page }
    {
        self.store.find(page, false).is_some()
            || self.store.count_used() < self.geometry.queue() as usize
    }

    /// Puts a page-out: it replaces the page's next copy in its place, or adds one.
    pub fn put(&mut self, page: Page, entry: EntryNo, bytes: &[u8])
        requires page { page.0 < pages_of self.old.sizes }
        requires bytes { length bytes.now ≡ self.old.sizes.page_bytes }
        requires room { IsTrue (has_room self.old.queue page) }
        ensures queue { self.new.queue
            ≡ put_after self.old.queue page (record { entry = entry; bytes = bytes.now }) }
        ensures sizes { self.new.sizes ≡ self.old.sizes }
    {
        let waits = !self.holds(page);
        let _place = self.store.put(page, entry, bytes);
        join(&mut self.line, page, waits);
    }

    /// The page's newest copy, the next one before the flying one, and its bytes in `buf`, which
    /// stays as it is where the page has none.
    pub fn newest(&self, page: Page, buf: &mut [u8]) -> Option<EntryNo>
        requires page { page.0 < pages_of self.now.sizes }
        requires buf { length buf.old ≡ self.now.sizes.page_bytes }
        ensures entry { result
            ≡ option_map (λ (copy : Copy). copy.entry) (newest self.now.queue page) }
        ensures bytes { buf.new ≡ bytes_or (newest self.now.queue page) buf.old }
    {
        let place = self.store.newest_place(page)?;
        Some(self.store.give(place, buf))
    }

    /// The page at the front of the line goes to the disk, with its next copy and the copy's bytes
    /// in `buf`.
    pub fn start(&mut self, buf: &mut [u8]) -> Option<(Page, EntryNo)>
        requires { length buf.old ≡ self.old.sizes.page_bytes }
        ensures none { IsNone result ↔ (self.old.queue.line ≡ []) }
        ensures front { result ≡ started_answer (front self.old.queue) }
        ensures bytes { buf.new ≡ started_bytes (front self.old.queue) buf.old }
        ensures queue { self.new.queue ≡ start self.old.queue }
        ensures flies { IfSome result
            (λ (started : Page × EntryNo). IsSome (flying self.new.queue started.0)) }
        ensures sizes { self.new.sizes ≡ self.old.sizes }
    {
        let page = self.line.pop_front()?;
        let place = self.store.find(page, false).unwrap();
        let entry = self.store.give(place, buf);
        self.store.launch(page, place);
        Some((page, entry))
    }

    /// A write came to its end: the flying copy is dropped, and a next copy of the page waits.
    pub fn done(&mut self, page: Page) -> EntryNo
        requires { IsSome (flying self.old.queue page) }
        ensures entry { IfSome (flying self.old.queue page) (λ (copy : Copy). result ≡ copy.entry) }
        ensures queue { self.new.queue ≡ done_after self.old.queue page }
        ensures sizes { self.new.sizes ≡ self.old.sizes }
    {
        let waits = self.store.find(page, false).is_some();
        let place = self.store.find(page, true).unwrap();
        let entry = self.store.land(page, place, false);
        join(&mut self.line, page, waits);
        entry
    }

    /// A write failed: without a next copy the flying one waits again, else it is dropped.
    pub fn failed(&mut self, page: Page) -> Failed
        requires { IsSome (flying self.old.queue page) }
        ensures answer { IfSome (flying self.old.queue page)
            (λ (copy : Copy). result ≡ failed_answer (next_copy self.old.queue page) copy.entry) }
        ensures queue { self.new.queue ≡ failed_after self.old.queue page }
        ensures sizes { self.new.sizes ≡ self.old.sizes }
    {
        let newer = self.store.find(page, false).is_some();
        let place = self.store.find(page, true).unwrap();
        let entry = self.store.land(page, place, !newer);
        join(&mut self.line, page, true);
        if newer {
            Failed::Dropped(entry)
        } else {
            Failed::Kept(entry)
        }
    }
}
