ghost use Rattle.std.specs.Prelude.{◌≡◌, ◌<◌, ◌-◌, ◌+◌, ◌^◌, ◌↔◌, max, length, IfOk, OnOk, OnErr, IfSome, IsSome, IsTrue, true, slice_set, is_some, Some, None, replicate, option_map};
ghost use Rattle.swap_base.specs.Sizes.{pages_of, place_of, zeros, IsWithin};
ghost use Rattle.swap_record.specs.History.{next_name, last};
ghost use Rattle.swap_record.specs.RecordView.{push_after};
ghost use Rattle.swap_queue.specs.Queue.{Copy, put_after, has_room, front, start, done_after, failed_after, flying, next_copy, newest, copies};
ghost use Rattle.swap_queue.specs.BehindView.{started_answer, started_bytes, failed_answer, bytes_or};
ghost use Rattle.swap_queue.specs.Kept.{IsQueue};
ghost use Rattle.swap_calls.specs.Calls.{call_of, state_of, is_idle, may_read, is_waiting, keeps_page, came_after, failed_after as failed_call};
ghost use Rattle.swap_slabs.specs.Slabs as slabs;
ghost use Rattle.swap_slabs.specs.Kept.{IsSlabs};
ghost use Rattle.swap_base.specs.declared.TheConstants.{MOST_LENDERS, MOST_WINDOW};
ghost use Rattle.swap_rings.specs.Rings as rings;
ghost use Rattle.swap_remote.specs.Remote as remote;
ghost use Rattle.swap_slabs.specs.declared.SlabState.TheVariants as SlabState;
ghost use Rattle.swap_slabs.specs.declared.Reply.TheVariants as Reply;
ghost use Rattle.swap_rates.specs.Table as rates;
ghost use Rattle.swap_choice.specs.Asked as choice;
ghost use Rattle.swap_remote.specs.Kept.{AreAsked, MayAsk};
ghost use Rattle.swap_device.specs.State.{MayGo, MayBorrow};
ghost use Rattle.swap_table.specs.Device.{device_at_start, enter_entry, give, fault, wait_for_room, wait_for_disk, hit, periods_ended, lost_after, write_sent, read_sent, source, may_map, may_ask, chosen_for, is_newest, raised_after};
ghost use Rattle.swap_record.specs.declared.TheConstants.{MOST_ENTRIES};

use std::alloc::Global;
use std::marker::Model;
use swap_base::{
    CallKind, Caller, EntryNo, Geometry, Lease, Lender, MOST_LENDERS, NoMemory, Origin, Page, Slab,
    Via,
};
use swap_calls::{CallState, Calls};
use swap_choice::Asked;
use swap_queue::{Behind, Failed};
use swap_rates::Rates;
use swap_record::{Op, Record, ReserveRefused};
use swap_remote::Remote;
use swap_rings::Request;
use swap_slabs::Chosen;

/// A device's tables. The newest entry of a page stands beside the history, which has it as its
/// last page-out.
#[derive(Drop)]
pub(crate) struct State {
    geometry: Geometry,
    entries: Record,
    queue: Behind,
    calls: Calls,
    newest: Vec<Option<EntryNo>>,
    failed_writes: u64,
    failed_reads: u64,
    remote: Remote,
    rates: Rates,
    links_made: u32,
    lenders: u32,
}

impl Model for State {
    ghost use Rattle.swap_device.specs.State.{StateView, AreTables};

    ghost Value = { StateView };

    ghost view = { λ t. record {
      device = record {
        sizes = t.geometry;
        lenders = t.lenders;
        history = t.entries.history;
        queue = t.queue.queue;
        calls = t.calls.calls;
        failed_writes = t.failed_writes;
        failed_reads = t.failed_reads;
        remote = t.remote.remote;
        rates = t.rates;
        links_made = t.links_made;
      };
      spare = t.entries.spare;
    } };

    ghost invariant = { λ t.
        AreTables t.geometry t.entries t.queue t.calls t.newest.items t.remote t.rates };
}

// A page-out enters the history, the queue, and the table of newest entries.
fn enter(
    history: &mut Record,
    queue: &mut Behind,
    newest: &mut [Option<EntryNo>],
    caller: Caller,
    page: Page,
    bytes: &[u8],
) -> EntryNo
    requires caller { caller.0 < 64 }
    requires spare { 0 < history.old.spare }
    requires page { page.0 < pages_of queue.old.sizes }
    requires in_table { page.0 < length newest.old }
    requires bytes { length bytes.now ≡ history.old.page_bytes }
    requires copy { length bytes.now ≡ queue.old.sizes.page_bytes }
    requires room { IsTrue (has_room queue.old.queue page) }
    ensures name { result ≡ next_name history.old.history }
    ensures history { history.new ≡ push_after history.old caller page Op.PageOut bytes.now }
    ensures queue { queue.new.queue
        ≡ put_after queue.old.queue page
        (record { entry = next_name history.old.history; bytes = bytes.now }) }
    ensures sizes { queue.new.sizes ≡ queue.old.sizes }
    ensures newest { newest.new
        ≡ slice_set newest.old page.0 (Some (next_name history.old.history)) }
{
    let name = history.push_out(caller, page, bytes);
    queue.put(page, name, bytes);
    newest[page.0 as usize] = Some(name);
    name
}

impl State {
    /// The tables of a device that nothing happened to.
    pub fn make(alloc: Global, geometry: Geometry, lenders: u32) -> Result<State, NoMemory>
        ensures { IfOk result (λ t. t
            ≡ record { device = device_at_start geometry lenders; spare = 0 }) }
    {
        let pages = geometry.pages() as usize;
        let entries = Record::make(alloc, geometry.page_bytes());
        let queue = Behind::make(alloc, &geometry)?;
        let calls = Calls::make(alloc, &geometry)?;
        let Ok(newest) = vec![in alloc; None; pages] else {
            return Err(NoMemory);
        };
        Ok(State {
            geometry,
            entries,
            queue,
            calls,
            newest,
            failed_writes: 0,
            failed_reads: 0,
            remote: Remote::make(alloc, geometry)?,
            rates: Rates::make(alloc, geometry.slabs())?,
            links_made: 0,
            lenders,
        })
    }

    /// An accepted page-out.
    pub fn enter(&mut self, caller: Caller, page: Page, bytes: &[u8]) -> EntryNo
        requires caller { caller.0 < self.old.device.sizes.callers }
        requires page { page.0 < pages_of self.old.device.sizes }
        requires bytes { length bytes.now ≡ self.old.device.sizes.page_bytes }
        requires room { IsTrue (has_room self.old.device.queue page) }
        requires spare { 0 < self.old.spare }
        ensures state { self.new
            ≡ record {
              device = enter_entry self.old.device caller page bytes.now;
              spare = self.old.spare - 1;
            } }
        ensures name { result ≡ next_name self.old.device.history }
    {
        self.geometry.limits();
        let name = enter(
            &mut self.entries,
            &mut self.queue,
            &mut self.newest,
            caller,
            page,
            bytes,
        );
        self.calls.paged_out(page);
        self.calls.end(caller);
        self.remote.changed(page);
        name
    }

    /// An answered page-in.
    pub fn give(
        &mut self,
        caller: Caller,
        page: Page,
        named: Option<EntryNo>,
        origin: Origin,
        bytes: &[u8],
    ) -> EntryNo
        requires caller { caller.0 < self.old.device.sizes.callers }
        requires bytes { length bytes.now ≡ self.old.device.sizes.page_bytes }
        requires spare { 0 < self.old.spare }
        ensures state { self.new
            ≡ record {
              device = give self.old.device caller page named origin bytes.now;
              spare = self.old.spare - 1;
            } }
        ensures name { result ≡ next_name self.old.device.history }
    {
        self.geometry.limits();
        let name = self.entries.push_in(caller, page, named, origin, bytes);
        self.calls.end(caller);
        name
    }

    /// A page-in that its own failed read ends; its entry keeps zeros.
    pub fn fault_in(&mut self, caller: Caller, page: Page, since: u64, zeros: &[u8]) -> EntryNo
        requires caller { caller.0 < self.old.device.sizes.callers }
        requires bytes { length zeros.now ≡ self.old.device.sizes.page_bytes }
        requires spare { 0 < self.old.spare }
        ensures state { self.new
            ≡ record {
              device =
                  fault self.old.device caller page CallKind.PageIn since
                  self.old.device.failed_reads zeros.now;
              spare = self.old.spare - 1;
            } }
        ensures name { result ≡ next_name self.old.device.history }
    {
        self.geometry.limits();
        let at = self.failed_reads;
        let name = self
            .entries
            .push_failed(caller, page, CallKind::PageIn, since, at, zeros);
        self.calls.end(caller);
        name
    }

    /// A page-out that waited for room, and that a failed write ends.
    pub fn fault_out(&mut self, caller: Caller, page: Page, since: u64) -> EntryNo
        requires caller { caller.0 < self.old.device.sizes.callers }
        requires kept { keeps_page (state_of self.old.device.calls caller) ≡ true }
        requires spare { 0 < self.old.spare }
        ensures state { self.new
            ≡ record {
              device =
                  fault self.old.device caller page CallKind.PageOut since
                  self.old.device.failed_writes
                  (call_of self.old.device.calls caller).bytes;
              spare = self.old.spare - 1;
            } }
        ensures name { result ≡ next_name self.old.device.history }
    {
        self.geometry.limits();
        let at = self.failed_writes;
        let bytes = self.calls.bytes(caller);
        let name = self
            .entries
            .push_failed(caller, page, CallKind::PageOut, since, at, bytes);
        self.calls.end(caller);
        name
    }

    /// A page-out that waits for room.
    pub fn wait_for_room(&mut self, caller: Caller, page: Page, bytes: &[u8])
        requires caller { caller.0 < self.old.device.sizes.callers }
        requires idle { is_idle (state_of self.old.device.calls caller) ≡ true }
        requires bytes { length bytes.now ≡ self.old.device.sizes.page_bytes }
        ensures { self.new
            ≡ record self.old { device = wait_for_room self.old.device caller page bytes.now } }
    {
        let since = self.failed_writes;
        self.calls.begin_room(caller, page, since, bytes);
    }

    /// A page-in that waits for the disk.
    pub fn wait_for_disk(&mut self, caller: Caller, page: Page, newest: EntryNo)
        requires caller { caller.0 < self.old.device.sizes.callers }
        requires may_read { may_read (state_of self.old.device.calls caller) ≡ true }
        ensures { self.new
            ≡ record self.old { device = wait_for_disk self.old.device caller page newest } }
    {
        let since = self.failed_reads;
        self.calls
            .begin_read(caller, page, newest, Via::Disk, since);
    }

    /// A page's slab is hit.
    pub fn hit(&mut self, page: Page)
        requires { page.0 < pages_of self.old.device.sizes }
        ensures { self.new ≡ record self.old { device = hit self.old.device page } }
    {
        self.rates.hit(self.geometry.slab_of(page));
    }

    /// Each slab's period ends.
    pub fn end_periods(&mut self)
        ensures { self.new ≡ record self.old { device = periods_ended self.old.device } }
    {
        self.rates.end_periods();
    }

    /// The value of a slab's rate.
    pub fn rate_of(&self, slab: Slab) -> u64
        requires { slab.0 < self.now.device.sizes.slabs }
        ensures { result ≡ rates.value_of self.now.device.rates slab }
    {
        self.rates.value(slab)
    }

    /// The hottest local slab.
    pub fn hottest(&self) -> Option<Slab>
        ensures slab { result
            ≡ rates.hottest self.now.device.sizes.hot self.now.device.remote.slabs
            self.now.device.rates }
        ensures within { IfSome result (λ slab. slab.0 < self.now.device.sizes.slabs) }
    {
        self.remote.keeps();
        self.rates.hottest(self.geometry.hot(), self.remote.slabs())
    }

    /// The copy at the front of the line leaves for the disk, with its bytes in `buf`.
    pub fn start(&mut self, buf: &mut [u8]) -> Option<(Page, EntryNo)>
        requires { length buf.old ≡ self.old.device.sizes.page_bytes }
        ensures answer { result ≡ started_answer (front self.old.device.queue) }
        ensures bytes { buf.new ≡ started_bytes (front self.old.device.queue) buf.old }
        ensures state { self.new
            ≡ record self.old
            { device = record self.old.device { queue = start self.old.device.queue } } }
    {
        self.queue.start(buf)
    }

    /// A write came back ok.
    pub fn wrote(&mut self, page: Page) -> EntryNo
        requires { IsSome (flying self.old.device.queue page) }
        ensures entry { IfSome (flying self.old.device.queue page)
            (λ (copy : Copy). result ≡ copy.entry) }
        ensures state { self.new
            ≡ record self.old
            { device = record self.old.device { queue = done_after self.old.device.queue page } } }
    {
        self.queue.done(page)
    }

    /// A write came back failed.
    pub fn write_failed(&mut self, page: Page) -> Failed
        requires flies { IsSome (flying self.old.device.queue page) }
        requires count { self.old.device.failed_writes + 1 < 2 ^ 64 }
        ensures answer { IfSome (flying self.old.device.queue page)
            (λ (copy : Copy). result
            ≡ failed_answer (next_copy self.old.device.queue page) copy.entry) }
        ensures state { self.new
            ≡ record self.old {
              device =
                  record self.old.device {
                    queue = failed_after self.old.device.queue page;
                    failed_writes = self.old.device.failed_writes + 1;
                  };
            } }
    {
        self.failed_writes += 1;
        self.queue.failed(page)
    }

    /// A read came back with its page.
    pub fn came(&mut self, caller: Caller, bytes: &[u8])
        requires caller { caller.0 < self.old.device.sizes.callers }
        requires waiting { is_waiting (state_of self.old.device.calls caller) ≡ true }
        requires bytes { length bytes.now ≡ self.old.device.sizes.page_bytes }
        ensures { self.new
            ≡ record self.old {
              device =
                  record self.old.device
                  { calls = came_after self.old.device.calls caller bytes.now };
            } }
    {
        self.calls.came(caller, bytes);
    }

    /// A read came back failed.
    pub fn read_failed(&mut self, caller: Caller)
        requires caller { caller.0 < self.old.device.sizes.callers }
        requires waiting { is_waiting (state_of self.old.device.calls caller) ≡ true }
        requires count { self.old.device.failed_reads + 1 < 2 ^ 64 }
        ensures { self.new
            ≡ record self.old {
              device =
                  record self.old.device {
                    calls = failed_call self.old.device.calls caller;
                    failed_reads = self.old.device.failed_reads + 1;
                  };
            } }
    {
        self.failed_reads += 1;
        self.calls.failed(caller);
    }

    /// Makes room for more entries.
    pub fn reserve(&mut self, n: u32) -> Result<(), ReserveRefused>
        ensures ok { OnOk result (self.new ≡ record self.old { spare = max self.old.spare n }) }
        ensures err { OnErr result (self.new ≡ self.old) }
        ensures too_many { (result ≡ Err ReserveRefused.TooMany)
            ↔ (MOST_ENTRIES < length self.old.device.history + n) }
    {
        self.entries.reserve(n)
    }

    pub fn geometry(&self) -> Geometry
        ensures { result ≡ self.now.device.sizes }
    {
        self.geometry
    }

    pub fn history(&self) -> &Record
        ensures history { result.now.history ≡ self.now.device.history }
        ensures page { result.now.page_bytes ≡ self.now.device.sizes.page_bytes }
        ensures spare { result.now.spare ≡ self.now.spare }
    {
        &self.entries
    }

    pub fn call(&self, caller: Caller) -> CallState
        requires { caller.0 < self.now.device.sizes.callers }
        ensures { result ≡ state_of self.now.device.calls caller }
    {
        self.calls.state(caller)
    }

    /// The page kept for a caller's call.
    pub fn kept(&self, caller: Caller) -> &[u8]
        requires caller { caller.0 < self.now.device.sizes.callers }
        requires kept { keeps_page (state_of self.now.device.calls caller) ≡ true }
        ensures kept { result.now ≡ (call_of self.now.device.calls caller).bytes }
        ensures len { length result.now ≡ self.now.device.sizes.page_bytes }
    {
        self.calls.bytes(caller)
    }

    /// The newest entry of a page, which its last page-out made.
    pub fn newest_entry(&self, page: Page) -> Option<EntryNo>
        requires { page.0 < pages_of self.now.device.sizes }
        ensures { result ≡ last self.now.device.history page }
    {
        self.newest[page.0 as usize]
    }

    /// The newest copy of a page in the queue, with its bytes in `buf`.
    pub fn newest_copy(&self, page: Page, buf: &mut [u8]) -> Option<EntryNo>
        requires page { page.0 < pages_of self.now.device.sizes }
        requires buf { length buf.old ≡ self.now.device.sizes.page_bytes }
        ensures entry { result
            ≡ option_map (λ (copy : Copy). copy.entry) (newest self.now.device.queue page) }
        ensures bytes { buf.new ≡ bytes_or (newest self.now.device.queue page) buf.old }
    {
        self.queue.newest(page, buf)
    }

    pub fn has_room(&self, page: Page) -> bool
        requires { page.0 < pages_of self.now.device.sizes }
        ensures { result ≡ has_room self.now.device.queue page }
    {
        self.queue.has_room(page)
    }

    pub fn copies(&self) -> u32
        ensures { result ≡ copies self.now.device.queue }
    {
        self.queue.copies()
    }

    /// What the queue keeps.
    pub fn keeps_queue(&self)
        ensures { IsQueue self.now.device.sizes self.now.device.queue }
    {
        self.queue.keeps();
    }

    /// How many disk writes failed.
    pub fn failed_writes(&self) -> u64
        ensures { result ≡ self.now.device.failed_writes }
    {
        self.failed_writes
    }

    /// How many disk reads failed.
    pub fn failed_reads(&self) -> u64
        ensures { result ≡ self.now.device.failed_reads }
    {
        self.failed_reads
    }

    /// The place of a page in its slab.
    pub fn place(&self, page: Page) -> u32
        requires { page.0 < pages_of self.now.device.sizes }
        ensures { result ≡ place_of self.now.device.sizes page.0 }
    {
        self.geometry.place_in_slab(page)
    }

    /// Where a page may be written now: the lender and the lease of its slab.
    pub fn target(&self, page: Page) -> Option<(Lender, Lease)>
        requires { page.0 < pages_of self.now.device.sizes }
        ensures { result ≡ remote.target self.now.device.sizes self.now.device.remote page }
    {
        self.remote.target(page)
    }

    /// Where remote memory can be read for a page now.
    pub fn source(&self, page: Page) -> Option<(Lender, Lease)>
        requires { page.0 < pages_of self.now.device.sizes }
        ensures { result ≡ source self.now.device page }
    {
        if self.remote.has_page(page) {
            self.remote.target(page)
        } else {
            None
        }
    }

    /// What slabs and links keep.
    pub fn keeps_remote(&self)
        ensures slabs { IsSlabs self.now.device.remote.slabs }
        ensures slabs_len { length self.now.device.remote.slabs ≡ self.now.device.sizes.slabs }
        ensures limits { IsWithin self.now.device.sizes }
    {
        self.remote.keeps();
        self.geometry.limits();
    }

    pub fn is_up(&self, lender: Lender) -> bool
        requires { lender.0 < MOST_LENDERS }
        ensures { result ≡ rings.is_up self.now.device.remote.links lender }
    {
        self.remote.is_up(lender)
    }

    /// Whether a slab may be borrowed from a lender.
    pub fn may_map(&self, slab: Slab, lender: Lender) -> bool
        requires slab { slab.0 < self.now.device.sizes.slabs }
        requires lender { lender.0 < MOST_LENDERS }
        ensures { result ≡ may_map self.now.device slab lender }
    {
        self.remote.is_local(slab) && self.remote.may_send(lender)
    }

    /// Whether a slab may be asked for: of a first lender, or of a second beside the first.
    pub fn may_ask(&self, slab: Slab, first: Option<Lender>, lender: Lender) -> bool
        requires slab { slab.0 < self.now.device.sizes.slabs }
        requires lender { lender.0 < MOST_LENDERS }
        ensures { result ≡ may_ask self.now.device slab first lender }
    {
        match first {
            None => self.may_map(slab, lender),
            Some(_) => self.remote.may_send(lender),
        }
    }

    /// The lenders that a word picks to be asked for a slab.
    pub fn to_ask(&self, word: u64) -> Asked
        ensures asked { result
            ≡ choice.two_asked word (remote.fresh_lenders self.now.device.remote)
            (remote.other_lenders self.now.device.remote) }
        ensures lenders { AreAsked result }
    {
        self.remote.to_ask(word)
    }

    /// Whether a reply of a lender about a slab is waited for.
    pub fn asks(&self, slab: Slab, lender: Lender) -> bool
        requires { slab.0 < self.now.device.sizes.slabs }
        ensures { result ≡ slabs.asks lender (slabs.state_of self.now.device.remote.slabs slab) }
    {
        self.remote.asks(slab, lender)
    }

    /// The slab that is mapped at a lender with this lease.
    pub fn mapped_by(&self, lender: Lender, lease: Lease) -> Option<Slab>
        requires { lender.0 < MOST_LENDERS }
        ensures slab { result ≡ remote.mapped_by self.now.device.remote.slabs lender lease }
        ensures within { IfSome result (λ slab. slab.0 < self.now.device.sizes.slabs) }
        ensures mapped { IfSome result
            (λ slab.
            IsTrue (slabs.is_mapped (slabs.state_of self.now.device.remote.slabs slab))) }
    {
        self.remote.mapped_by(lender, lease)
    }

    /// The request on a link that was sent first, of those that no answer came to.
    pub fn oldest(&self, lender: Lender) -> Option<Request>
        requires { lender.0 < MOST_LENDERS }
        ensures { result ≡ rings.oldest (rings.ring_of self.now.device.remote.links lender) }
    {
        self.remote.oldest(lender)
    }

    /// Whether a message names a page.
    pub fn names_page(&self, lender: Lender, page: Page, lease: Lease, place: u32) -> bool
        requires { page.0 < pages_of self.now.device.sizes }
        ensures { result
            ≡ remote.names_page self.now.device.sizes self.now.device.remote lender page lease
            place }
    {
        self.remote.names_page(lender, page, lease, place)
    }

    /// Whether a slab has this lease of the lender.
    pub fn is_leased(&self, lender: Lender, lease: Lease) -> bool
        requires { lender.0 < MOST_LENDERS }
        ensures { result ≡ is_some (slabs.by_lease self.now.device.remote.slabs lender lease) }
    {
        self.remote.is_leased(lender, lease)
    }

    /// How many slabs are mapped.
    pub fn mapped(&self) -> u32
        ensures { result ≡ slabs.mapped_count self.now.device.remote.slabs }
    {
        self.remote.mapped()
    }

    /// How many links were made.
    pub fn links_made(&self) -> u32
        ensures { result ≡ self.now.device.links_made }
    {
        self.links_made
    }

    /// A write of a page was sent to the lender of its slab.
    pub fn write_sent(&mut self, lender: Lender, page: Page, entry: EntryNo)
        requires page { page.0 < pages_of self.old.device.sizes }
        requires may { MayGo self.old.device.sizes self.old.device.remote page lender }
        ensures { self.new
            ≡ record self.old { device = write_sent self.old.device lender page entry } }
    {
        self.remote
            .sent_for(lender, page, Request::Write { page, entry });
    }

    /// A read of a page was sent to the lender of its slab.
    pub fn read_sent(&mut self, lender: Lender, caller: Caller, page: Page, newest: EntryNo)
        requires caller { caller.0 < self.old.device.sizes.callers }
        requires page { page.0 < pages_of self.old.device.sizes }
        requires may { MayGo self.old.device.sizes self.old.device.remote page lender }
        requires may_read { may_read (state_of self.old.device.calls caller) ≡ true }
        ensures { self.new
            ≡ record self.old { device = read_sent self.old.device lender caller page newest } }
    {
        let since = self.failed_reads;
        self.remote
            .sent_for(lender, page, Request::Read { caller, page });
        self.calls
            .begin_read(caller, page, newest, Via::Lender(lender), since);
    }

    /// A slab was asked for: of one lender, or of a second beside the first.
    pub fn query_sent(&mut self, slab: Slab, first: Option<Lender>, lender: Lender)
        requires slab { slab.0 < self.old.device.sizes.slabs }
        requires lender { lender.0 < MOST_LENDERS }
        requires state { MayAsk first lender (slabs.state_of self.old.device.remote.slabs slab) }
        requires room { length (rings.ring_of self.old.device.remote.links lender)
            < self.old.device.sizes.window }
        ensures { self.new
            ≡ record self.old {
              device =
                  record self.old.device
                  { remote = remote.query_sent self.old.device.remote slab first lender };
            } }
    {
        self.remote.query_sent(slab, first, lender);
    }

    /// A lender that was asked tells how many slots are free. The answer is the slab, with the
    /// lender that is chosen for it once no reply is waited for.
    pub fn told(&mut self, lender: Lender, slab: Slab, free: u32) -> Option<(Slab, Lender)>
        requires slab { slab.0 < self.old.device.sizes.slabs }
        requires lender { lender.0 < MOST_LENDERS }
        requires asks { IsTrue
            (slabs.asks lender (slabs.state_of self.old.device.remote.slabs slab)) }
        ensures state { self.new
            ≡ record self.old {
              device =
                  record self.old.device
                  { remote = remote.told_after self.old.device.remote lender slab free };
            } }
        ensures choice { result
            ≡ chosen_for slab
            (slabs.answer_choice (slabs.state_of self.old.device.remote.slabs slab) lender
            (Reply.Free free)) }
        ensures within { MayBorrow self.old.device.sizes result }
    {
        self.remote.keeps();
        chosen_for(slab, self.remote.told(lender, slab, free))
    }

    /// A lender that was asked is gone. The answer is as of `told`.
    pub fn gone(&mut self, lender: Lender, slab: Slab) -> Option<(Slab, Lender)>
        requires slab { slab.0 < self.old.device.sizes.slabs }
        requires asks { IsTrue
            (slabs.asks lender (slabs.state_of self.old.device.remote.slabs slab)) }
        ensures state { self.new
            ≡ record self.old {
              device =
                  record self.old.device
                  { remote = remote.gone_after self.old.device.remote lender slab };
            } }
        ensures choice { result
            ≡ chosen_for slab
            (slabs.answer_choice
            (slabs.state_of self.old.device.remote.slabs slab) lender Reply.Gone) }
        ensures within { MayBorrow self.old.device.sizes result }
    {
        self.remote.keeps();
        chosen_for(slab, self.remote.gone(lender, slab))
    }

    /// A slab was asked to be lent.
    pub fn borrow_sent(&mut self, slab: Slab, lender: Lender)
        requires slab { slab.0 < self.old.device.sizes.slabs }
        requires lender { lender.0 < MOST_LENDERS }
        requires may { may_map self.old.device slab lender ≡ true }
        ensures { self.new
            ≡ record self.old {
              device =
                  record self.old.device
                  { remote = remote.borrow_sent self.old.device.remote slab lender };
            } }
    {
        self.remote.borrow_sent(slab, lender);
    }

    /// A slab was lent: it is mapped.
    pub fn lent(&mut self, lender: Lender, slab: Slab, lease: Lease)
        requires slab { slab.0 < self.old.device.sizes.slabs }
        requires lender { lender.0 < MOST_LENDERS }
        requires borrowing { slabs.state_of self.old.device.remote.slabs slab
            ≡ SlabState.Borrowing lender }
        requires lease { slabs.by_lease self.old.device.remote.slabs lender lease ≡ None }
        ensures { self.new
            ≡ record self.old {
              device =
                  record self.old.device
                  { remote = remote.lent_after self.old.device.remote lender slab lease };
            } }
    {
        self.remote.lent(lender, slab, lease);
    }

    /// A slab wasn't lent: it is local.
    pub fn refused(&mut self, lender: Lender, slab: Slab)
        requires slab { slab.0 < self.old.device.sizes.slabs }
        requires lender { lender.0 < MOST_LENDERS }
        requires borrowing { slabs.state_of self.old.device.remote.slabs slab
            ≡ SlabState.Borrowing lender }
        ensures { self.new
            ≡ record self.old {
              device =
                  record self.old.device
                  { remote = remote.refused_after self.old.device.remote lender slab };
            } }
    {
        self.remote.refused(lender, slab);
    }

    /// A write came back from a lender: remote memory can be read where it was of the page's newest
    /// entry. The lease of its slab is given back where that was the last request to fly for a slab
    /// that drains.
    pub fn written(&mut self, lender: Lender, page: Page, entry: EntryNo) -> Option<Lease>
        requires page { page.0 < pages_of self.old.device.sizes }
        requires lender { lender.0 < MOST_LENDERS }
        requires flying { 0
            < slabs.flying_of
            (remote.state_for self.old.device.sizes self.old.device.remote.slabs page) }
        ensures state { self.new
            ≡ record self.old {
              device =
                  record self.old.device {
                    remote =
                        remote.written_after self.old.device.sizes self.old.device.remote
                        lender page
                        (is_newest (last self.old.device.history page) entry);
                  };
            } }
        ensures lease { result
            ≡ slabs.settled_lease
            (remote.state_for self.old.device.sizes self.old.device.remote.slabs page) }
    {
        let newest = is_newest(self.newest[page.0 as usize], entry);
        self.remote.written(lender, page, newest)
    }

    /// A page came from a lender. The lease of its slab is given back as in `written`.
    pub fn brought(
        &mut self,
        lender: Lender,
        caller: Caller,
        page: Page,
        bytes: &[u8],
    ) -> Option<Lease>
        requires caller { caller.0 < self.old.device.sizes.callers }
        requires page { page.0 < pages_of self.old.device.sizes }
        requires lender { lender.0 < MOST_LENDERS }
        requires bytes { length bytes.now ≡ self.old.device.sizes.page_bytes }
        requires waiting { is_waiting (state_of self.old.device.calls caller) ≡ true }
        requires flying { 0
            < slabs.flying_of
            (remote.state_for self.old.device.sizes self.old.device.remote.slabs page) }
        ensures state { self.new
            ≡ record self.old {
              device =
                  record self.old.device {
                    remote =
                        remote.settled_for self.old.device.sizes self.old.device.remote lender page;
                    calls = came_after self.old.device.calls caller bytes.now;
                  };
            } }
        ensures lease { result
            ≡ slabs.settled_lease
            (remote.state_for self.old.device.sizes self.old.device.remote.slabs page) }
    {
        self.calls.came(caller, bytes);
        self.remote.settled_for(lender, page)
    }

    /// A mapped slab is taken back: it drains. Its lease is given back where no request flies for
    /// it.
    pub fn evict(&mut self, slab: Slab) -> Option<Lease>
        requires slab { slab.0 < self.old.device.sizes.slabs }
        requires mapped { IsTrue
            (slabs.is_mapped (slabs.state_of self.old.device.remote.slabs slab)) }
        ensures state { self.new
            ≡ record self.old {
              device =
                  record self.old.device {
                    remote =
                        remote.evicted_after self.old.device.sizes self.old.device.remote slab;
                  };
            } }
        ensures lease { result
            ≡ slabs.evicted_lease (slabs.state_of self.old.device.remote.slabs slab) }
    {
        self.remote.evict(slab)
    }

    /// A link was lost: its slabs are local, and the calls that wait through it are lost. The slabs
    /// that asked its lender still wait.
    pub fn lost(&mut self, lender: Lender)
        requires { lender.0 < MOST_LENDERS }
        ensures { self.new ≡ record self.old { device = lost_after self.old.device lender } }
    {
        self.remote.lost(lender);
        self.calls.lost(lender);
    }

    /// A link was made.
    pub fn raised(&mut self, lender: Lender)
        requires lender { lender.0 < MOST_LENDERS }
        requires links { self.old.device.links_made + 1 < 2 ^ 32 }
        ensures { self.new ≡ record self.old { device = raised_after self.old.device lender } }
    {
        self.remote.raised(lender);
        self.links_made += 1;
    }
}

// The slab and the lender of a choice that is due.
fn chosen_for(slab: Slab, choice: Option<Chosen>) -> Option<(Slab, Lender)>
    ensures { result ≡ chosen_for slab choice }
{
    match choice {
        Some(Chosen::Lender(lender)) => Some((slab, lender)),
        _ => None,
    }
}

// Whether an entry is the newest of its page.
fn is_newest(newest: Option<EntryNo>, entry: EntryNo) -> bool
    ensures { result ≡ is_newest newest entry }
{
    match newest {
        None => false,
        Some(newest) => newest.0 == entry.0,
    }
}
