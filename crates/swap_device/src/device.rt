ghost use Rattle.std.specs.Prelude.{◌≡◌, ◌<◌, ◌≤◌, ◌+◌, ◌^◌, ◌↔◌, max, length, IfOk, OnOk, OnErr, false, true, replicate, is_some, Some, None};
ghost use Rattle.swap_base.specs.Sizes.{pages_of};
ghost use Rattle.swap_queue.specs.Queue.{copies};
ghost use Rattle.swap_disk.specs.Disk.{bytes_given};
ghost use Rattle.swap_disk.specs.Port.{LetFinish};
ghost use Rattle.swap_wire.specs.Fabric.{parcel_of, Give, Cut, Crash, Host, FabricOf};
ghost use Rattle.swap_calls.specs.Calls.{call_of, state_of, is_idle, keeps_page};
ghost use Rattle.swap_slabs.specs.Slabs as slabs;
ghost use Rattle.swap_base.specs.declared.TheConstants.{MOST_LENDERS};
ghost use Rattle.swap_rings.specs.Rings as rings;
ghost use Rattle.swap_table.specs.Device.{device_at_start, out, read, finish, disk_start, disk_take, took_after, link_take, tick, map, connect};
ghost use Rattle.swap_table.specs.Fits.{IsBlank};
ghost use Rattle.swap_device.specs.State.{Agree, Went, KeepsRoom, GivesIn, GivesStep, WritesBack, ReadsBack};
ghost use Rattle.swap_record.specs.declared.TheConstants.{MOST_ENTRIES};

use crate::machine::Machine;
use crate::state::State;
use std::alloc::Global;
use std::marker::Model;
use swap_base::{
    Caller, DiskWhich, EntryNo, Geometry, Lender, Link, MOST_LENDERS, NoMemory, Page, Slab,
};
use swap_calls::{Arrived, CallState};
use swap_disk::{DiskDone, DiskPort};
use swap_queue::Failed;
use swap_record::{Record, ReserveRefused};
use swap_table::{DiskStep, InStep, LinkStep, OutStep, Placed, Step, calls_keep, ports_promise};
use swap_wire::{Fabric, Gave, Hosted};

/// A paging device over its disk and its lenders' links.
#[derive(Drop)]
pub struct DeviceCore<D: DiskPort, F: Fabric> {
    machine: Machine<D, F>,
    page: Vec<u8>,
}

impl<D: DiskPort, F: Fabric> Model for DeviceCore<D, F> {
    ghost use Rattle.swap_table.specs.Device.{Core};
    ghost use Rattle.swap_device.specs.State.{IsDevice};

    ghost Value = { Core D F };

    ghost view = { λ d. d.machine };

    ghost invariant = { λ d. IsDevice D.DiskPort F.Fabric d.machine d.page.items };
}

impl<D: DiskPort, F: Fabric> DeviceCore<D, F> {
    /// A page-out's first step; its slab is hit. It answers `Room` exactly where the queue has no
    /// room for the page. `Done` names the lender that the page was sent to.
    pub fn out(&mut self, caller: Caller, page: Page, bytes: &[u8]) -> OutStep
        requires caller { caller.0 < self.old.device.sizes.callers }
        requires page { page.0 < pages_of self.old.device.sizes }
        requires bytes { length bytes.now ≡ self.old.device.sizes.page_bytes }
        requires idle { is_idle (state_of self.old.device.calls caller) ≡ true }
        requires spare { 0 < self.old.spare }
        ensures moved { Went D.moves F.moves
            (λ d. out d caller page bytes.now) self.old self.new result }
        ensures room { KeepsRoom self.old self.new }
    {
        self.page_out(caller, page, bytes)
    }

    // Accepts a page-out, or keeps it for its caller until there is room.
    fn page_out(&mut self, caller: Caller, page: Page, bytes: &[u8]) -> OutStep
        requires caller { caller.0 < self.old.device.sizes.callers }
        requires page { page.0 < pages_of self.old.device.sizes }
        requires bytes { length bytes.now ≡ self.old.device.sizes.page_bytes }
        requires idle { is_idle (state_of self.old.device.calls caller) ≡ true }
        requires spare { 0 < self.old.spare }
        ensures moved { Went D.moves F.moves
            (λ d. out d caller page bytes.now) self.old self.new result }
        ensures room { KeepsRoom self.old self.new }
    {
        calls_keep::<D, F>();
        self.machine.out(caller, page, bytes)
    }

    /// A page-in's first step; its slab is hit. It answers `Wait` exactly where it started a read:
    /// where the page has a newest entry and the queue has no copy of it. The read goes to the
    /// lender that has the page, where its link takes one more request, and else to the disk. After
    /// `Done` the buffer holds the page.
    pub fn read(&mut self, caller: Caller, page: Page, buf: &mut [u8]) -> InStep
        requires caller { caller.0 < self.old.device.sizes.callers }
        requires page { page.0 < pages_of self.old.device.sizes }
        requires buf { length buf.old ≡ self.old.device.sizes.page_bytes }
        requires idle { is_idle (state_of self.old.device.calls caller) ≡ true }
        requires spare { 0 < self.old.spare }
        ensures moved { Went D.moves F.moves (λ d. read d caller page) self.old self.new result }
        ensures room { KeepsRoom self.old self.new }
        ensures gives { GivesIn result self.new.device.history buf.old buf.new }
    {
        calls_keep::<D, F>();
        self.machine.read(caller, page, buf)
    }

    /// A later step of a call. A page-out that waits answers `Room` exactly where the queue still
    /// has no room and no disk write failed since its first step, and `Fault` where one did. A
    /// page-in answers `Wait` exactly where its read hasn't come back, `Again` exactly where it
    /// started another because a page-out of the page was accepted since the last start or because
    /// the link was lost, and `Fault` exactly where its own read of the disk came back failed and
    /// no page-out of the page was accepted since.
    /// After a page-in's `Done` the buffer holds the page.
    pub fn finish(&mut self, caller: Caller, buf: &mut [u8]) -> Step
        requires caller { caller.0 < self.old.device.sizes.callers }
        requires buf { length buf.old ≡ self.old.device.sizes.page_bytes }
        requires busy { is_idle (state_of self.old.device.calls caller) ≡ false }
        requires spare { 0 < self.old.spare }
        ensures moved { Went D.moves F.moves (λ d. finish d caller) self.old self.new result }
        ensures room { KeepsRoom self.old self.new }
        ensures gives { GivesStep result self.new.device.history buf.old buf.new }
    {
        calls_keep::<D, F>();
        self.machine.finish(caller, buf, &mut self.page)
    }

    /// The copy at the front of the line goes to the disk. None exactly where the line is empty.
    pub fn disk_start(&mut self) -> Option<(Page, EntryNo)>
        ensures moved { Went D.moves F.moves disk_start self.old self.new result }
        ensures room { KeepsRoom self.old self.new }
    {
        calls_keep::<D, F>();
        self.machine.disk_start(&mut self.page)
    }

    /// Takes an operation that the disk has finished. `Nothing` comes exactly where the disk gave
    /// none.
    pub fn disk_take(&mut self) -> DiskStep
        requires writes { self.old.device.failed_writes + 1 < 2 ^ 64 }
        requires reads { self.old.device.failed_reads + 1 < 2 ^ 64 }
        ensures moved { Went D.moves F.moves disk_take self.old self.new result }
        ensures room { KeepsRoom self.old self.new }
    {
        calls_keep::<D, F>();
        self.machine.disk_take(&mut self.page)
    }

    /// Lets an operation of a disk in memory finish: the disk's answer, and nothing else of the
    /// device changes.
    pub fn disk_finish(&mut self, which: DiskWhich, ok: bool) -> bool
        ensures device { self.new.device ≡ self.old.device }
        ensures fabric { self.new.fabric ≡ self.old.fabric }
        ensures moved { D.moves self.old.disk (LetFinish which ok) result self.new.disk }
        ensures spare { self.new.spare ≡ self.old.spare }
    {
        calls_keep::<D, F>();
        self.machine.let_finish(which, ok)
    }

    /// Takes a message from a lender's link. `Nothing` comes exactly where the link is down or the
    /// fabric gave nothing,
    /// `Lost` where the fabric said that the link is lost, and `Lied` exactly where the message is
    /// none that the device allows: it neither answers the oldest request of the link, nor asks for
    /// the rate of a slab that is mapped there, nor takes such a slab back. The link is then ended.
    pub fn link_take(&mut self, lender: Lender) -> LinkStep
        requires { lender.0 < self.old.device.lenders }
        ensures moved { Went D.moves F.moves (λ d. link_take d lender) self.old self.new result }
        ensures room { KeepsRoom self.old self.new }
    {
        calls_keep::<D, F>();
        self.machine.link_take(lender, &mut self.page)
    }

    /// Each slab's period ends, and the hottest local slab is asked for, of two lenders whose link
    /// is up that the word picks. None exactly where nobody was asked.
    pub fn tick(&mut self, word: u64) -> Option<Placed>
        ensures moved { Went D.moves F.moves (λ d. tick d word) self.old self.new result }
        ensures room { KeepsRoom self.old self.new }
    {
        calls_keep::<D, F>();
        self.machine.tick(word)
    }

    /// Asks a lender to lend a slab. False exactly where the slab isn't local or the link takes no
    /// request now; then nothing changes.
    pub fn map(&mut self, slab: Slab, lender: Lender) -> bool
        requires slab { slab.0 < self.old.device.sizes.slabs }
        requires lender { lender.0 < self.old.device.lenders }
        ensures moved { Went D.moves F.moves (λ d. map d slab lender) self.old self.new result }
        ensures room { KeepsRoom self.old self.new }
    {
        calls_keep::<D, F>();
        self.machine.map(slab, lender)
    }

    /// Makes a link to a lender, in place of the one that is up, and greets it. None exactly where
    /// 4,294,967,295 links were made; then nothing changes.
    pub fn connect(&mut self, lender: Lender) -> Option<Link>
        requires { lender.0 < self.old.device.lenders }
        ensures moved { Went D.moves F.moves (λ d. connect d lender) self.old self.new result }
        ensures room { KeepsRoom self.old self.new }
    {
        calls_keep::<D, F>();
        self.machine.connect(lender)
    }

    /// Lets a lender take the next message of its link: the fabric's answer, and nothing else of
    /// the device changes.
    pub fn give(&mut self, lender: Lender) -> Gave
        requires { lender.0 < self.old.device.lenders }
        ensures device { self.new.device ≡ self.old.device }
        ensures disk { self.new.disk ≡ self.old.disk }
        ensures moved { F.moves self.old.fabric (Give lender) result self.new.fabric }
        ensures spare { self.new.spare ≡ self.old.spare }
    {
        calls_keep::<D, F>();
        self.machine.give(lender)
    }

    /// Cuts a link in memory: the fabric's answer, and nothing else of the device changes.
    pub fn cut(&mut self, lender: Lender, to_lender: u32, to_device: u32) -> bool
        requires { lender.0 < self.old.device.lenders }
        ensures device { self.new.device ≡ self.old.device }
        ensures disk { self.new.disk ≡ self.old.disk }
        ensures moved { F.moves self.old.fabric
            (Cut lender to_lender to_device) result self.new.fabric }
        ensures spare { self.new.spare ≡ self.old.spare }
    {
        calls_keep::<D, F>();
        self.machine.cut(lender, to_lender, to_device)
    }

    /// Makes a lender in memory start anew: the fabric's answer, and nothing else of the device
    /// changes.
    pub fn crash(&mut self, lender: Lender) -> bool
        requires { lender.0 < self.old.device.lenders }
        ensures device { self.new.device ≡ self.old.device }
        ensures disk { self.new.disk ≡ self.old.disk }
        ensures moved { F.moves self.old.fabric (Crash lender) result self.new.fabric }
        ensures spare { self.new.spare ≡ self.old.spare }
    {
        calls_keep::<D, F>();
        self.machine.crash(lender)
    }

    /// Tells a lender in memory how much its host uses: the fabric's answer, and nothing else of
    /// the device changes.
    pub fn host(&mut self, lender: Lender, used: u32, word: u64) -> Option<Hosted>
        requires { lender.0 < self.old.device.lenders }
        ensures device { self.new.device ≡ self.old.device }
        ensures disk { self.new.disk ≡ self.old.disk }
        ensures moved { F.moves self.old.fabric (Host lender used word) result self.new.fabric }
        ensures spare { self.new.spare ≡ self.old.spare }
    {
        calls_keep::<D, F>();
        self.machine.host(lender, used, word)
    }

    /// Makes room for `calls` more entries; after a refusal all is as before.
    pub fn reserve(&mut self, calls: u32) -> Result<(), ReserveRefused>
        ensures ok { OnOk result (self.new ≡ record self.old { spare = max self.old.spare calls }) }
        ensures err { OnErr result (self.new ≡ self.old) }
        ensures too_many { (result ≡ Err ReserveRefused.TooMany)
            ↔ (MOST_ENTRIES < length self.old.device.history + calls) }
    {
        self.machine.state.reserve(calls)
    }

    /// The device's geometry.
    pub fn geometry(&self) -> Geometry
        ensures { result ≡ self.now.device.sizes }
    {
        self.machine.state.geometry()
    }

    /// The history of the answered calls.
    pub fn history(&self) -> &Record
        ensures history { result.now.history ≡ self.now.device.history }
        ensures page { result.now.page_bytes ≡ self.now.device.sizes.page_bytes }
        ensures spare { result.now.spare ≡ self.now.spare }
    {
        self.machine.state.history()
    }

    /// The caller's call.
    pub fn state(&self, caller: Caller) -> CallState
        requires { caller.0 < self.now.device.sizes.callers }
        ensures { result ≡ state_of self.now.device.calls caller }
    {
        self.machine.state.call(caller)
    }

    /// The page kept for a caller's call: the one that waits for room, or the one that came.
    pub fn kept(&self, caller: Caller) -> &[u8]
        requires caller { caller.0 < self.now.device.sizes.callers }
        requires kept { keeps_page (state_of self.now.device.calls caller) ≡ true }
        ensures { result.now ≡ (call_of self.now.device.calls caller).bytes }
    {
        self.machine.state.kept(caller)
    }

    /// How many copies the write-behind queue has, of both kinds.
    pub fn copies(&self) -> u32
        ensures { result ≡ copies self.now.device.queue }
    {
        self.machine.state.copies()
    }

    /// How many slabs are mapped.
    pub fn mapped(&self) -> u32
        ensures { result ≡ slabs.mapped_count self.now.device.remote.slabs }
    {
        self.machine.state.mapped()
    }

    /// The disk, for reading.
    pub fn disk(&self) -> &D
        ensures { result.now ≡ self.now.disk }
    {
        &self.machine.disk
    }

    /// The fabric, for reading.
    pub fn fabric(&self) -> &F
        ensures { result.now ≡ self.now.fabric }
    {
        &self.machine.fabric
    }

    /// What the device, its disk and its fabric agree on.
    pub fn agrees(&self)
        ensures { Agree D.DiskPort F.Fabric self.now }
    {
        let _page = &self.page;
    }
}

impl<D: DiskPort + Drop, F: Fabric + Drop> DeviceCore<D, F> {
    /// A device that nothing happened to, over a disk of its geometry that nothing was asked of,
    /// and a fabric that is as made for its geometry and so many lenders.
    pub fn make(
        alloc: Global,
        geometry: Geometry,
        lenders: u32,
        disk: D,
        fabric: F,
    ) -> Result<DeviceCore<D, F>, NoMemory>
        requires disk { IsBlank geometry (D.means disk) }
        requires lenders { lenders ≤ MOST_LENDERS }
        requires fabric { F.fresh fabric (record { sizes = geometry; lenders = lenders }) }
        ensures { IfOk result
            (λ core. core
            ≡ record {
              device = device_at_start geometry lenders;
              disk = disk;
              fabric = fabric;
              spare = 0;
            }) }
    {
        calls_keep::<D, F>();
        ports_promise::<D, F>();
        let state = State::make(alloc, geometry, lenders)?;
        let Ok(page) = vec![in alloc; 0; geometry.page_bytes() as usize] else {
            return Err(NoMemory);
        };
        let machine = Machine {
            state,
            disk,
            fabric,
        };
        Ok(DeviceCore { machine, page })
    }

    /// Gives up the ports, as they are.
    pub fn ports(self) -> (D, F)
        ensures { result ≡ (self.disk, self.fabric) }
    {
        (self.machine.disk, self.machine.fabric)
    }
}
