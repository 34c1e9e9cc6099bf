ghost use Rattle.std.specs.Prelude.{◌≡◌, ◌+◌, ◌<◌, ◌≤◌, ◌^◌, ◌↔◌, length, max, IfOk, OnOk, OnErr, false, true, [], slice_get, Some, Err, vec_len, vec_capacity};
ghost use Rattle.swap_base.specs.declared.Caller.{Caller};
ghost use Rattle.swap_wire.specs.Input.{IsInRange};
ghost use Rattle.swap_calls.specs.Calls.{state_of, is_idle};
ghost use Rattle.swap_table.specs.Device.{of_device, device_at_start};
ghost use Rattle.swap_table.specs.Happens.{see_out, see_in, see_step, see_start, see_disk, see_tick, see_map, see_link, see_gave, see_cut, see_crash, see_host, see_take};
ghost use Rattle.swap_table.specs.Fits.{IsBlank};
ghost use Rattle.swap_device.specs.State.{KeepsRoom};
ghost use Rattle.swap_base.specs.declared.TheConstants.{MOST_LENDERS};
ghost use Rattle.swap_world.specs.Runs.{has_effect, event_of, logged_if, logged_polled, IsReached, IsPolled, HasSpare, Steps, Adds, IsLogged, GivesPage, StaysIdle, GrowsByCalls};
ghost use Rattle.swap_record.specs.declared.TheConstants.{MOST_ENTRIES};

use crate::events::happen;
use std::alloc::Global;
use std::marker::Model;
use swap_base::{DiskWhich, EntryNo, Geometry, Link, MOST_LENDERS, NoMemory, Page};
use swap_device::DeviceCore;
use swap_disk::DiskPort;
use swap_record::ReserveRefused;
use swap_table::{DiskStep, InStep, LinkStep, OutStep, Placed, Step, ports_promise};
use swap_wire::{Event, Fabric, Gave, Hosted, Seen};

/// The machine: a device over its disk and its lenders' links, with the log of its events.
#[derive(Drop)]
pub struct World<D: DiskPort, F: Fabric> {
    device: DeviceCore<D, F>,
    lenders: u32,
    log: Vec<(Event, Seen)>,
}

impl<D: DiskPort, F: Fabric> Model for World<D, F> {
    ghost use Rattle.std.specs.Prelude.{◌-◌, length, vec_capacity};
    ghost use Rattle.swap_world.specs.Runs.{WorldView, IsMachine};

    ghost Value = { WorldView D F };

    ghost view = { λ w.
        record {
          core = w.device;
          log = w.log.items;
          log_spare = vec_capacity w.log - length w.log.items;
        } };

    ghost invariant = { λ w. IsMachine D.DiskPort F.Fabric w.device w.lenders w.log.items };
}

impl<D: DiskPort, F: Fabric> World<D, F> {
    /// Makes room for so many more entries and logged events. `TooMany` comes exactly where the
    /// history would pass its limit; nothing but the room changes.
    pub fn reserve(&mut self, calls: u32, events: usize) -> Result<(), ReserveRefused>
        ensures device { self.new.core.device ≡ self.old.core.device }
        ensures disk { self.new.core.disk ≡ self.old.core.disk }
        ensures fabric { self.new.core.fabric ≡ self.old.core.fabric }
        ensures log { self.new.log ≡ self.old.log }
        ensures no_less { self.old.core.spare ≤ self.new.core.spare }
        ensures no_less_log { self.old.log_spare ≤ self.new.log_spare }
        ensures spare { OnOk result (self.new.core.spare ≡ max self.old.core.spare calls) }
        ensures log_spare { OnOk result (events ≤ self.new.log_spare) }
        ensures too_many { (result ≡ Err ReserveRefused.TooMany)
            ↔ (MOST_ENTRIES < length self.old.core.device.history + calls) }
    {
        self.device.reserve(calls)?;
        if self.log.reserve(events).is_err() {
            return Err(ReserveRefused::NoMemory);
        }
        Ok(())
    }

    /// Makes one event. A page-out's page is handed in; after a page-in's `Done` the buffer holds
    /// the page, and else it is as it was. An event with an effect is logged; one without leaves
    /// the device as it was.
    pub fn step(&mut self, event: &Event, page: &mut [u8]) -> Seen
        requires range { IsInRange self.old.core.device.sizes self.old.core.device.lenders
            event.now }
        requires page { length page.old ≡ self.old.core.device.sizes.page_bytes }
        requires spare { HasSpare self.old.core.device event.now self.old.core.spare }
        requires log_spare { 0 < self.old.log_spare }
        ensures step { Steps D.moves F.moves
            (record { event = event.now; page = page.old }) self.old.core self.new.core result }
        ensures adds { Adds self.old.core.device
            (record { event = event.now; page = page.old }) result self.new.core.device.history }
        ensures log { IsLogged event.now result self.old self.new }
        ensures room { KeepsRoom self.old.core self.new.core }
        ensures grows { GrowsByCalls event.now self.old.core.device self.new.core.device }
        ensures idle { StaysIdle self.old.core.device event.now self.new.core.device }
        ensures of { of_device self.new.core.device ≡ of_device self.old.core.device }
        ensures page { GivesPage event.now result self.new.core.device.history page.old page.new }
        ensures unchanged { has_effect event.now result ≡ false
            → self.new.core.device ≡ self.old.core.device }
    {
        ports_promise::<D, F>();
        let _len = self.log.len();
        let _capacity = self.log.capacity();
        let seen = happen(&mut self.device, self.lenders, event, page);
        note(&mut self.log, event, seen);
        seen
    }

    /// Takes one operation that the disk ended by itself, and logs it as the event of its end.
    /// `Nothing` comes exactly where the disk had none.
    pub fn poll_disk(&mut self) -> Seen
        requires log_spare { 0 < self.old.log_spare }
        ensures polled { IsPolled D.moves self.old.core.device self.old.core.disk self.old.log
            result
            self.new.core.device self.new.core.disk self.new.log }
        ensures fabric { self.new.core.fabric ≡ self.old.core.fabric }
        ensures history { self.new.core.device.history ≡ self.old.core.device.history }
        ensures spare { self.new.core.spare ≡ self.old.core.spare }
        ensures log_room { length self.new.log + self.new.log_spare
            ≡ length self.old.log + self.old.log_spare }
        ensures of { of_device self.new.core.device ≡ of_device self.old.core.device }
        ensures idle { (c : Caller)
            → is_idle (state_of self.new.core.device.calls c)
            ≡ is_idle (state_of self.old.core.device.calls c) }
    {
        ports_promise::<D, F>();
        let _len = self.log.len();
        let _capacity = self.log.capacity();
        let step = self.device.disk_take();
        note_end(&mut self.log, step);
        see_disk(step)
    }

    /// For how many more entries there is room.
    pub fn spare(&self) -> u32
        ensures { result ≡ self.now.core.spare }
    {
        self.device.history().spare()
    }

    /// For how many more events the log has room.
    pub fn log_spare(&self) -> usize
        ensures { result ≡ self.now.log_spare }
    {
        self.log.capacity() - self.log.len()
    }

    /// How the world was reached: by the events of its log, from a device that nothing had happened
    /// to, over a disk that was blank and a fabric as it is made. So every law over any ports holds
    /// of it.
    pub fn reached(&self)
        ensures { IsReached D.DiskPort F.Fabric self.now.core self.now.log }
    {
        let _len = self.log.len();
    }

    /// How many lenders there are.
    pub fn lenders(&self) -> u32
        ensures { result ≡ self.now.core.device.lenders }
    {
        self.lenders
    }

    /// The device.
    pub fn device(&self) -> &DeviceCore<D, F>
        ensures { result.now ≡ self.now.core }
    {
        &self.device
    }

    /// How many events were logged.
    pub fn log_len(&self) -> usize
        ensures { result ≡ length self.now.log }
    {
        self.log.len()
    }

    /// A logged event, and what was seen of it.
    pub fn logged(&self, i: usize) -> (Event, Seen)
        requires { i < length self.now.log }
        ensures { slice_get self.now.log i ≡ Some result }
    {
        self.log[i]
    }
}

impl<D: DiskPort + Drop, F: Fabric + Drop> World<D, F> {
    /// A world that nothing happened in, over a disk of its geometry that nothing was asked of, and
    /// a fabric as it is made for so many lenders.
    pub fn make(
        alloc: Global,
        geometry: Geometry,
        lenders: u32,
        disk: D,
        fabric: F,
    ) -> Result<World<D, F>, NoMemory>
        requires disk { IsBlank geometry (D.means disk) }
        requires lenders { lenders ≤ MOST_LENDERS }
        requires fabric { F.fresh fabric (record { sizes = geometry; lenders = lenders }) }
        ensures core { IfOk result
            (λ w. w.core
            ≡ record {
              device = device_at_start geometry lenders;
              disk = disk;
              fabric = fabric;
              spare = 0;
            }) }
        ensures log { IfOk result (λ w. w.log ≡ []) }
    {
        Ok(World {
            device: DeviceCore::make(alloc, geometry, lenders, disk, fabric)?,
            lenders,
            log: Vec::new(alloc),
        })
    }

    /// Gives up the ports, as they are.
    pub fn ports(self) -> (D, F)
        ensures { result ≡ (self.core.disk, self.core.fabric) }
    {
        self.device.ports()
    }
}

// An event with an effect is logged.
fn note(log: &mut Vec<(Event, Seen)>, event: &Event, seen: Seen)
    requires { vec_len log.old < vec_capacity log.old }
    ensures items { log.new.items
        ≡ logged_if (has_effect event.now seen) log.old.items event.now seen }
    ensures capacity { vec_capacity log.new ≡ vec_capacity log.old }
{
    if has_effect(event, &seen) {
        log.push_reserved((*event, seen));
    }
}

// The event of an operation that the disk ended by itself.
fn event_of(step: DiskStep) -> Option<Event>
    ensures { result ≡ event_of step }
{
    let (which, ok) = match step {
        DiskStep::Nothing => return None,
        DiskStep::Written { page, .. } => (DiskWhich::Write(page), true),
        DiskStep::Kept { page, .. } | DiskStep::Dropped { page, .. } => {
            (DiskWhich::Write(page), false)
        }
        DiskStep::Came { caller, .. } => (DiskWhich::Read(caller), true),
        DiskStep::Failed { caller, .. } => (DiskWhich::Read(caller), false),
    };
    Some(Event::Disk { which, ok })
}

// The end of an operation is logged.
fn note_end(log: &mut Vec<(Event, Seen)>, step: DiskStep)
    requires { vec_len log.old < vec_capacity log.old }
    ensures items { log.new.items ≡ logged_polled step log.old.items }
    ensures capacity { vec_capacity log.new ≡ vec_capacity log.old }
{
    if let Some(event) = event_of(step) {
        log.push_reserved((event, see_disk(step)));
    }
}

// What is seen of a page-out's first step.
pub(crate) fn see_out(step: OutStep) -> Seen
    ensures { result ≡ see_out step }
{
    match step {
        OutStep::Done { entry, sent } => Seen::Done { entry, sent },
        OutStep::Room => Seen::Room,
    }
}

// What is seen of a page-in's first step.
pub(crate) fn see_in(step: InStep) -> Seen
    ensures { result ≡ see_in step }
{
    match step {
        InStep::Done { entry } => Seen::Done { entry, sent: None },
        InStep::Wait { via } => Seen::Wait { via },
    }
}

// What is seen of a later step.
pub(crate) fn see_step(step: Step) -> Seen
    ensures { result ≡ see_step step }
{
    match step {
        Step::Done { entry, sent } => Seen::Done { entry, sent },
        Step::Room => Seen::Room,
        Step::Wait { via } => Seen::Wait { via },
        Step::Again { via } => Seen::Again { via },
        Step::Fault { entry, .. } => Seen::Fault { entry },
    }
}

// What is seen of a copy that leaves for the disk.
pub(crate) fn see_start(started: Option<(Page, EntryNo)>) -> Seen
    ensures { result ≡ see_start started }
{
    match started {
        None => Seen::Nothing,
        Some((page, entry)) => Seen::Started { page, entry },
    }
}

// What is seen of an operation that the disk gave back.
pub(crate) fn see_disk(step: DiskStep) -> Seen
    ensures { result ≡ see_disk step }
{
    match step {
        DiskStep::Nothing => Seen::Nothing,
        DiskStep::Written { entry, .. } => Seen::Written { entry },
        DiskStep::Kept { entry, .. } => Seen::WriteKept { entry },
        DiskStep::Dropped { entry, .. } => Seen::WriteDropped { entry },
        DiskStep::Came { page, .. } => Seen::ReadCame { page },
        DiskStep::Failed { page, .. } => Seen::ReadFailed { page },
    }
}

// What is seen of a period's end: the slab that was asked for, where one was.
pub(crate) fn see_tick(placed: Option<Placed>) -> Seen
    ensures { result ≡ see_tick placed }
{
    match placed {
        None => Seen::Ticked,
        Some(
            Placed {
                slab,
                first,
                second,
            },
        ) => Seen::Asked {
            slab,
            first,
            second,
        },
    }
}

// What is seen of a slab that is to be mapped.
pub(crate) fn see_map(asked: bool) -> Seen
    ensures { result ≡ see_map asked }
{
    if asked {
        Seen::Borrowing
    } else {
        Seen::Nothing
    }
}

// What is seen of a link that is to be made.
pub(crate) fn see_link(link: Option<Link>) -> Seen
    ensures { result ≡ see_link link }
{
    match link {
        None => Seen::Nothing,
        Some(link) => Seen::Linked { link },
    }
}

// What is seen of a lender's turn.
pub(crate) fn see_gave(gave: Gave) -> Seen
    ensures { result ≡ see_gave gave }
{
    match gave {
        Gave::Nothing => Seen::Nothing,
        Gave::End => Seen::GaveEnd,
        Gave::Got {
            msg,
            reply,
            evicted,
        } => Seen::Gave {
            msg,
            reply,
            evicted,
        },
        Gave::Ended { msg } => Seen::GaveEnded { msg },
    }
}

// What is seen of a link that is to be cut.
pub(crate) fn see_cut(cut: bool) -> Seen
    ensures { result ≡ see_cut cut }
{
    if cut { Seen::Cut } else { Seen::Nothing }
}

// What is seen of a lender that is to start anew.
pub(crate) fn see_crash(crashed: bool) -> Seen
    ensures { result ≡ see_crash crashed }
{
    if crashed {
        Seen::Crashed
    } else {
        Seen::Nothing
    }
}

// What is seen of what a lender's host uses.
pub(crate) fn see_host(hosted: Option<Hosted>) -> Seen
    ensures { result ≡ see_host hosted }
{
    match hosted {
        None => Seen::Nothing,
        Some(Hosted { mean, asked }) => Seen::Hosted { mean, asked },
    }
}

// What is seen of what a link brought.
pub(crate) fn see_take(step: LinkStep) -> Seen
    ensures { result ≡ see_take step }
{
    match step {
        LinkStep::Nothing => Seen::Nothing,
        LinkStep::Got(msg) => Seen::Took { msg },
        LinkStep::Lost => Seen::Lost,
        LinkStep::Lied => Seen::Lied,
    }
}

// Whether an event had an effect, by what was seen of it.
pub(crate) fn has_effect(event: &Event, seen: &Seen) -> bool
    ensures { result ≡ has_effect event.now seen.now }
{
    match seen {
        Seen::Nothing | Seen::Busy | Seen::Idle => false,
        Seen::Wait { .. } | Seen::Room => !matches!(event, Event::Finish { .. }),
        _ => true,
    }
}
