ghost use Rattle.std.specs.Prelude.{◌≡◌, ◌<◌, ◌+◌, ◌-◌, ◌^◌, length, true, false, replicate, is_some, Some, None};
ghost use Rattle.swap_base.specs.Sizes.{pages_of, zeros};
ghost use Rattle.swap_record.specs.History.{next_name};
ghost use Rattle.swap_queue.specs.Queue.{has_room};
ghost use Rattle.swap_disk.specs.Port.{IsFree};
ghost use Rattle.swap_base.specs.declared.Via.TheVariants as via;
ghost use Rattle.swap_base.specs.declared.DiskWhich.TheVariants as DiskWhich;
ghost use Rattle.swap_base.specs.declared.CallKind.TheVariants as CallKind;
ghost use Rattle.swap_calls.specs.declared.CallState.TheVariants as CallState;
ghost use Rattle.swap_table.specs.declared.InStep.TheVariants as InStep;
ghost use Rattle.swap_table.specs.declared.Step.TheVariants as Step;
ghost use Rattle.swap_calls.specs.Calls.{call_of, state_of, is_idle, may_read};
ghost use Rattle.swap_rings.specs.Rings as rings;
ghost use Rattle.swap_remote.specs.Remote as remote;
ghost use Rattle.swap_wire.specs.Fabric.{parcel_of};
ghost use Rattle.swap_table.specs.Ports.{answering};
ghost use Rattle.swap_disk.specs.Disk.{bytes_given};
ghost use Rattle.swap_table.specs.Device.{out, put_program, read, finish, disk_start, disk_take, took_after, write_to, accept_program, read_disk, read_at, route, routed_again, finish_out, give, fault, origin_of};
ghost use Rattle.swap_device.specs.State.{Agree, IsReady, LeavesRest, Went, KeepsRoom, MayGoTo, GivesIn, GivesStep, IsOutStep, CameFor, FailedFor, WritesBack, ReadsBack, Waits, EndsInOut};

use crate::machine::Machine;
use crate::state::State;
use swap_base::{Caller, DiskWhich, EntryNo, Lease, Lender, Origin, Page, Via};
use swap_calls::{Arrived, CallState};
use swap_disk::{DiskDone, DiskPort};
use swap_queue::Failed;
use swap_table::{DiskStep, InStep, OutStep, Step};
use swap_wire::{Fabric, Msg, Sent};

impl<D: DiskPort, F: Fabric> Machine<D, F> {
    // A page goes to the lender of its slab, where there is one that takes it now.
    fn send_write(
        &mut self,
        page: Page,
        entry: EntryNo,
        bytes: &[u8],
        target: Option<(Lender, Lease)>,
    ) -> Option<Lender>
        requires page { page.0 < pages_of self.old.device.sizes }
        requires target { MayGoTo self.old.device.sizes self.old.device.remote
            self.old.device.lenders page target }
        requires bytes { length bytes.now ≡ self.old.device.sizes.page_bytes }
        requires ready { IsReady F.Fabric self.old }
        ensures moved { Went D.moves F.moves
            (λ d. write_to d page entry bytes.now target) self.old self.new result }
        ensures spare { self.new.spare ≡ self.old.spare }
        ensures history { self.new.device.history ≡ self.old.device.history }
    {
        let (lender, lease) = target?;
        let place = self.state.place(page);
        match self.send(lender, &Msg::Write { lease, place }, bytes) {
            Sent::Sent => {
                self.state.write_sent(lender, page, entry);
                Some(lender)
            }
            Sent::Down => {
                self.lose(lender);
                None
            }
        }
    }

    /// A page-out is accepted.
    pub fn accept(&mut self, caller: Caller, page: Page, bytes: &[u8]) -> (EntryNo, Option<Lender>)
        requires caller { caller.0 < self.old.device.sizes.callers }
        requires page { page.0 < pages_of self.old.device.sizes }
        requires bytes { length bytes.now ≡ self.old.device.sizes.page_bytes }
        requires room { has_room self.old.device.queue page ≡ true }
        requires spare { 0 < self.old.spare }
        requires agree { Agree D.DiskPort F.Fabric self.old }
        ensures moved { Went D.moves F.moves
            (λ d. accept_program d caller page bytes.now) self.old self.new result.1 }
        ensures name { result.0 ≡ next_name self.old.device.history }
        ensures room { KeepsRoom self.old self.new }
        ensures out { EndsInOut self.new.device.history }
    {
        self.state.keeps_remote();
        let target = self.state.target(page);
        let entry = self.state.enter(caller, page, bytes);
        let sent = self.send_write(page, entry, bytes, target);
        (entry, sent)
    }

    // A read of the disk begins.
    fn read_disk(&mut self, caller: Caller, page: Page, newest: EntryNo) -> InStep
        requires caller { caller.0 < self.old.device.sizes.callers }
        requires page { page.0 < pages_of self.old.device.sizes }
        requires may_read { may_read (state_of self.old.device.calls caller) ≡ true }
        requires sizes { (D.means self.old.disk).sizes ≡ self.old.device.sizes }
        requires free { IsFree (D.means self.old.disk).flights (DiskWhich.Read caller) }
        ensures moved { Went D.moves F.moves
            (λ d. read_disk d caller page newest) self.old self.new result }
        ensures spare { self.new.spare ≡ self.old.spare }
        ensures history { self.new.device.history ≡ self.old.device.history }
        ensures waits { result ≡ InStep.Wait via.Disk }
    {
        self.disk.start_read(caller, page);
        self.state.wait_for_disk(caller, page, newest);
        InStep::Wait { via: Via::Disk }
    }

    // A read of the lender that has the page begins, or one of the disk.
    fn read_at(
        &mut self,
        caller: Caller,
        page: Page,
        newest: EntryNo,
        source: Option<(Lender, Lease)>,
    ) -> InStep
        requires caller { caller.0 < self.old.device.sizes.callers }
        requires page { page.0 < pages_of self.old.device.sizes }
        requires may_read { may_read (state_of self.old.device.calls caller) ≡ true }
        requires sizes { (D.means self.old.disk).sizes ≡ self.old.device.sizes }
        requires free { IsFree (D.means self.old.disk).flights (DiskWhich.Read caller) }
        requires source { MayGoTo self.old.device.sizes self.old.device.remote
            self.old.device.lenders page source }
        requires ready { IsReady F.Fabric self.old }
        ensures moved { Went D.moves F.moves
            (λ d. read_at d caller page newest source) self.old self.new result }
        ensures spare { self.new.spare ≡ self.old.spare }
        ensures history { self.new.device.history ≡ self.old.device.history }
        ensures waits { Waits result }
    {
        let Some((lender, lease)) = source else {
            return self.read_disk(caller, page, newest);
        };
        let place = self.state.place(page);
        match self.send(lender, &Msg::Read { lease, place }, &[]) {
            Sent::Sent => {
                self.state.read_sent(lender, caller, page, newest);
                InStep::Wait {
                    via: Via::Lender(lender),
                }
            }
            Sent::Down => {
                self.lose(lender);
                self.read_disk(caller, page, newest)
            }
        }
    }

    // A page-out is accepted, or kept for its caller until there is room.
    fn put(&mut self, caller: Caller, page: Page, bytes: &[u8]) -> OutStep
        requires caller { caller.0 < self.old.device.sizes.callers }
        requires page { page.0 < pages_of self.old.device.sizes }
        requires bytes { length bytes.now ≡ self.old.device.sizes.page_bytes }
        requires idle { is_idle (state_of self.old.device.calls caller) ≡ true }
        requires spare { 0 < self.old.spare }
        requires agree { Agree D.DiskPort F.Fabric self.old }
        ensures moved { Went D.moves F.moves
            (λ d. put_program d caller page bytes.now) self.old self.new result }
        ensures room { KeepsRoom self.old self.new }
    {
        if self.state.has_room(page) {
            let (entry, sent) = self.accept(caller, page, bytes);
            OutStep::Done { entry, sent }
        } else {
            self.state.wait_for_room(caller, page, bytes);
            OutStep::Room
        }
    }

    /// A page-out's first step: its slab is hit, and it is accepted, or kept for its caller until
    /// there is room.
    pub fn out(&mut self, caller: Caller, page: Page, bytes: &[u8]) -> OutStep
        requires caller { caller.0 < self.old.device.sizes.callers }
        requires page { page.0 < pages_of self.old.device.sizes }
        requires bytes { length bytes.now ≡ self.old.device.sizes.page_bytes }
        requires idle { is_idle (state_of self.old.device.calls caller) ≡ true }
        requires spare { 0 < self.old.spare }
        requires agree { Agree D.DiskPort F.Fabric self.old }
        ensures moved { Went D.moves F.moves
            (λ d. out d caller page bytes.now) self.old self.new result }
        ensures room { KeepsRoom self.old self.new }
    {
        self.state.hit(page);
        self.put(caller, page, bytes)
    }

    /// A page is read where it is: nowhere, in the queue, in remote memory, or on the disk.
    pub fn route(&mut self, caller: Caller, page: Page, buf: &mut [u8]) -> InStep
        requires caller { caller.0 < self.old.device.sizes.callers }
        requires page { page.0 < pages_of self.old.device.sizes }
        requires buf { length buf.old ≡ self.old.device.sizes.page_bytes }
        requires may_read { may_read (state_of self.old.device.calls caller) ≡ true }
        requires spare { 0 < self.old.spare }
        requires agree { Agree D.DiskPort F.Fabric self.old }
        ensures moved { Went D.moves F.moves (λ d. route d caller page) self.old self.new result }
        ensures room { KeepsRoom self.old self.new }
        ensures gives { GivesIn result self.new.device.history buf.old buf.new }
    {
        let Some(newest) = self.state.newest_entry(page) else {
            clear(buf);
            let entry = self.state.give(caller, page, None, Origin::Zero, buf);
            return InStep::Done { entry };
        };
        if self.state.newest_copy(page, buf).is_some() {
            let entry = self
                .state
                .give(caller, page, Some(newest), Origin::Queue, buf);
            return InStep::Done { entry };
        }
        self.state.keeps_remote();
        let source = self.state.source(page);
        self.read_at(caller, page, newest, source)
    }

    /// A page-in's first step: its slab is hit, and the page is read where it is.
    pub fn read(&mut self, caller: Caller, page: Page, buf: &mut [u8]) -> InStep
        requires caller { caller.0 < self.old.device.sizes.callers }
        requires page { page.0 < pages_of self.old.device.sizes }
        requires buf { length buf.old ≡ self.old.device.sizes.page_bytes }
        requires may_read { may_read (state_of self.old.device.calls caller) ≡ true }
        requires spare { 0 < self.old.spare }
        requires agree { Agree D.DiskPort F.Fabric self.old }
        ensures moved { Went D.moves F.moves (λ d. read d caller page) self.old self.new result }
        ensures room { KeepsRoom self.old self.new }
        ensures gives { GivesIn result self.new.device.history buf.old buf.new }
    {
        self.state.hit(page);
        self.route(caller, page, buf)
    }

    /// A page-in is routed again.
    pub fn route_again(&mut self, caller: Caller, page: Page, buf: &mut [u8]) -> Step
        requires caller { caller.0 < self.old.device.sizes.callers }
        requires page { page.0 < pages_of self.old.device.sizes }
        requires buf { length buf.old ≡ self.old.device.sizes.page_bytes }
        requires may_read { may_read (state_of self.old.device.calls caller) ≡ true }
        requires spare { 0 < self.old.spare }
        requires agree { Agree D.DiskPort F.Fabric self.old }
        ensures moved { Went D.moves F.moves
            (λ d. answering routed_again (route d caller page)) self.old self.new result }
        ensures room { KeepsRoom self.old self.new }
        ensures gives { GivesStep result self.new.device.history buf.old buf.new }
    {
        match self.route(caller, page, buf) {
            InStep::Done { entry } => Step::Done { entry, sent: None },
            InStep::Wait { via } => Step::Again { via },
        }
    }

    /// A page-out that waits for room: it is accepted where there is some, and fails where a disk
    /// write failed since its first step. Its page is kept in `kept` on its way.
    pub fn finish_out(&mut self, caller: Caller, page: Page, since: u64, kept: &mut [u8]) -> Step
        requires caller { caller.0 < self.old.device.sizes.callers }
        requires page { page.0 < pages_of self.old.device.sizes }
        requires kept { length kept.old ≡ self.old.device.sizes.page_bytes }
        requires call { state_of self.old.device.calls caller ≡ CallState.Room page since }
        requires spare { 0 < self.old.spare }
        requires agree { Agree D.DiskPort F.Fabric self.old }
        ensures moved { Went D.moves F.moves
            (λ d. finish_out d caller page since (call_of self.old.device.calls caller).bytes)
            self.old self.new result }
        ensures room { KeepsRoom self.old self.new }
        ensures out { IsOutStep result self.new.device.history }
    {
        if self.state.has_room(page) {
            kept.copy_from_slice(self.state.kept(caller));
            let (entry, sent) = self.accept(caller, page, kept);
            return Step::Done { entry, sent };
        }
        let at = self.state.failed_writes();
        if since < at {
            let entry = self.state.fault_out(caller, page, since);
            return Step::Fault { entry, since, at };
        }
        Step::Room
    }

    /// A later step of a call. A page that waited for room is kept in `kept` on its way.
    pub fn finish(&mut self, caller: Caller, buf: &mut [u8], kept: &mut [u8]) -> Step
        requires caller { caller.0 < self.old.device.sizes.callers }
        requires buf { length buf.old ≡ self.old.device.sizes.page_bytes }
        requires kept { length kept.old ≡ self.old.device.sizes.page_bytes }
        requires busy { is_idle (state_of self.old.device.calls caller) ≡ false }
        requires spare { 0 < self.old.spare }
        requires agree { Agree D.DiskPort F.Fabric self.old }
        ensures moved { Went D.moves F.moves (λ d. finish d caller) self.old self.new result }
        ensures room { KeepsRoom self.old self.new }
        ensures gives { GivesStep result self.new.device.history buf.old buf.new }
    {
        match self.state.call(caller) {
            CallState::Idle => Step::Room,
            CallState::Room { page, since } => { self.finish_out(caller, page, since, kept) }
            CallState::Reading {
                page,
                newest,
                via,
                arrived,
                newer,
                since,
            } => match (arrived, newer) {
                (Arrived::Waiting, _) => Step::Wait { via },
                (Arrived::Came, false) => finish_in(
                    &mut self.state,
                    caller,
                    page,
                    newest,
                    via,
                    buf,
                ),
                (Arrived::Failed, false) => fault_in(&mut self.state, caller, page, since, kept),
                _ => self.route_again(caller, page, buf),
            },
        }
    }

    /// The copy at the front of the line goes to the disk, with its page in `page` on its way.
    pub fn disk_start(&mut self, page: &mut [u8]) -> Option<(Page, EntryNo)>
        requires page { length page.old ≡ self.old.device.sizes.page_bytes }
        requires agree { Agree D.DiskPort F.Fabric self.old }
        ensures moved { Went D.moves F.moves (λ d. disk_start d) self.old self.new result }
        ensures room { KeepsRoom self.old self.new }
    {
        let (of, entry) = self.state.start(page)?;
        self.state.keeps_queue();
        self.disk.start_write(of, page);
        Some((of, entry))
    }

    /// Takes an operation that the disk has finished, with its page in `page` on its way.
    pub fn disk_take(&mut self, page: &mut [u8]) -> DiskStep
        requires page { length page.old ≡ self.old.device.sizes.page_bytes }
        requires writes { self.old.device.failed_writes + 1 < 2 ^ 64 }
        requires reads { self.old.device.failed_reads + 1 < 2 ^ 64 }
        requires agree { Agree D.DiskPort F.Fabric self.old }
        ensures moved { Went D.moves F.moves (λ d. disk_take d) self.old self.new result }
        ensures room { KeepsRoom self.old self.new }
    {
        match self.disk.take(page) {
            None => DiskStep::Nothing,
            Some(done) => take_back(&mut self.state, done, page),
        }
    }
}

/// A page-in whose page came.
pub fn finish_in(
    state: &mut State,
    caller: Caller,
    page: Page,
    newest: EntryNo,
    via: Via,
    buf: &mut [u8],
) -> Step
    requires caller { caller.0 < state.old.device.sizes.callers }
    requires buf { length buf.old ≡ state.old.device.sizes.page_bytes }
    requires call { CameFor page newest via (state_of state.old.device.calls caller) }
    requires spare { 0 < state.old.spare }
    ensures device { state.new.device
        ≡ give state.old.device caller page (Some newest) (origin_of via)
        (call_of state.old.device.calls caller).bytes }
    ensures result { result ≡ Step.Done (next_name state.old.device.history) None }
    ensures spare { state.new.spare ≡ state.old.spare - 1 }
    ensures gives { buf.new ≡ (call_of state.old.device.calls caller).bytes }
{
    buf.copy_from_slice(state.kept(caller));
    let origin = origin_of(via);
    let entry = state.give(caller, page, Some(newest), origin, buf);
    Step::Done { entry, sent: None }
}

/// A page-in whose own read failed; its entry keeps zeros.
pub fn fault_in(state: &mut State, caller: Caller, page: Page, since: u64, blank: &mut [u8]) -> Step
    requires caller { caller.0 < state.old.device.sizes.callers }
    requires blank { length blank.old ≡ state.old.device.sizes.page_bytes }
    requires call { FailedFor page since (state_of state.old.device.calls caller) }
    requires spare { 0 < state.old.spare }
    ensures device { state.new.device
        ≡ fault state.old.device caller page CallKind.PageIn since state.old.device.failed_reads
        (zeros state.old.device.sizes) }
    ensures result { result
        ≡ Step.Fault (next_name state.old.device.history) since state.old.device.failed_reads }
    ensures spare { state.new.spare ≡ state.old.spare - 1 }
{
    clear(blank);
    let at = state.failed_reads();
    let entry = state.fault_in(caller, page, since, blank);
    Step::Fault { entry, since, at }
}

// What the disk gave back: a write ends its copy's flight, and a read its caller's wait.
fn take_back(state: &mut State, done: DiskDone, bytes: &[u8]) -> DiskStep
    requires write { WritesBack state.old.device.queue done.which done.page }
    requires read { ReadsBack state.old.device done.which }
    requires bytes { length bytes.now ≡ state.old.device.sizes.page_bytes }
    requires writes { state.old.device.failed_writes + 1 < 2 ^ 64 }
    requires reads { state.old.device.failed_reads + 1 < 2 ^ 64 }
    ensures took { (state.new.device, result)
        ≡ took_after state.old.device done.which done.page done.ok
        (bytes_given done.which done.ok bytes.now) }
    ensures spare { state.new.spare ≡ state.old.spare }
    ensures history { state.new.device.history ≡ state.old.device.history }
{
    let page = done.page;
    match (done.which, done.ok) {
        (DiskWhich::Write(_), true) => {
            let entry = state.wrote(page);
            DiskStep::Written { page, entry }
        }
        (DiskWhich::Write(_), false) => match state.write_failed(page) {
            Failed::Kept(entry) => DiskStep::Kept { page, entry },
            Failed::Dropped(entry) => DiskStep::Dropped { page, entry },
        },
        (DiskWhich::Read(caller), true) => {
            state.came(caller, bytes);
            DiskStep::Came { caller, page }
        }
        (DiskWhich::Read(caller), false) => {
            state.read_failed(caller);
            DiskStep::Failed { caller, page }
        }
    }
}

// Where a page came from that was read by this way.
fn origin_of(via: Via) -> Origin
    ensures { result ≡ origin_of via }
{
    match via {
        Via::Disk => Origin::Disk,
        Via::Lender(lender) => Origin::Lender(lender),
    }
}

// Zeros in place of a page's bytes.
fn clear(page: &mut [u8])
    ensures { page.new ≡ replicate (length page.old) 0 }
{
    page.fill(0);
}
