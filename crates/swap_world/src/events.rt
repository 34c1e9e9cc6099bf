ghost use Rattle.std.specs.Prelude.{◌≡◌, ◌+◌, ◌<◌, ◌≤◌, ◌^◌, length, true, false, []};
ghost use Rattle.swap_base.specs.Sizes.{pages_of};
ghost use Rattle.swap_calls.specs.Calls.{is_idle, state_of};
ghost use Rattle.swap_table.specs.Happens.{happens};
ghost use Rattle.swap_device.specs.State.{KeepsRoom, Went};
ghost use Rattle.swap_wire.specs.Input.{IsInRange};
ghost use Rattle.swap_base.specs.declared.TheConstants.{MOST_LENDERS};
ghost use Rattle.swap_world.specs.Runs.{has_effect, HasSpare, GivesPage, Steps};

use crate::rounds::round;
use crate::world::{
    see_crash, see_cut, see_disk, see_gave, see_host, see_in, see_link, see_map, see_out,
    see_start, see_step, see_take, see_tick,
};
use swap_base::{Caller, DiskWhich, Lender, Page};
use swap_calls::CallState;
use swap_device::DeviceCore;
use swap_disk::DiskPort;
use swap_wire::{Event, Fabric, Seen};

fn is_idle(state: CallState) -> bool
    ensures { result ≡ is_idle state }
{
    match state {
        CallState::Idle => true,
        CallState::Room { .. } | CallState::Reading { .. } => false,
    }
}

fn page_out<D: DiskPort, F: Fabric>(
    device: &mut DeviceCore<D, F>,
    caller: Caller,
    page: Page,
    bytes: &[u8],
) -> Seen
    requires caller { caller.0 < device.old.device.sizes.callers }
    requires page { page.0 < pages_of device.old.device.sizes }
    requires bytes { length bytes.now ≡ device.old.device.sizes.page_bytes }
    requires spare { is_idle (state_of device.old.device.calls caller) ≡ true
        → 0 < device.old.spare }
    ensures step { Went D.moves F.moves
        (λ d. happens d bytes.now (Event.PageOut caller page)) device.old device.new result }
    ensures room { KeepsRoom device.old device.new }
{
    if !is_idle(device.state(caller)) {
        return Seen::Busy;
    }
    see_out(device.out(caller, page, bytes))
}

fn page_in<D: DiskPort, F: Fabric>(
    device: &mut DeviceCore<D, F>,
    caller: Caller,
    page: Page,
    buf: &mut [u8],
) -> Seen
    requires caller { caller.0 < device.old.device.sizes.callers }
    requires page { page.0 < pages_of device.old.device.sizes }
    requires buf { length buf.old ≡ device.old.device.sizes.page_bytes }
    requires spare { is_idle (state_of device.old.device.calls caller) ≡ true
        → 0 < device.old.spare }
    ensures step { Went D.moves F.moves
        (λ d. happens d buf.old (Event.PageIn caller page)) device.old device.new result }
    ensures room { KeepsRoom device.old device.new }
    ensures gives { GivesPage
        (Event.PageIn caller page) result device.new.device.history buf.old buf.new }
{
    if !is_idle(device.state(caller)) {
        return Seen::Busy;
    }
    see_in(device.read(caller, page, buf))
}

fn finish<D: DiskPort, F: Fabric>(
    device: &mut DeviceCore<D, F>,
    caller: Caller,
    buf: &mut [u8],
) -> Seen
    requires caller { caller.0 < device.old.device.sizes.callers }
    requires buf { length buf.old ≡ device.old.device.sizes.page_bytes }
    requires spare { is_idle (state_of device.old.device.calls caller) ≡ false
        → 0 < device.old.spare }
    ensures step { Went D.moves F.moves
        (λ d. happens d buf.old (Event.Finish caller)) device.old device.new result }
    ensures room { KeepsRoom device.old device.new }
    ensures gives { GivesPage
        (Event.Finish caller) result device.new.device.history buf.old buf.new }
{
    if is_idle(device.state(caller)) {
        return Seen::Idle;
    }
    see_step(device.finish(caller, buf))
}

fn disk_event<D: DiskPort, F: Fabric>(
    device: &mut DeviceCore<D, F>,
    which: DiskWhich,
    ok: bool,
    page: &[u8],
) -> Seen
    requires writes { device.old.device.failed_writes + 1 < 2 ^ 64 }
    requires reads { device.old.device.failed_reads + 1 < 2 ^ 64 }
    ensures step { Went D.moves F.moves
        (λ d. happens d page.now (Event.Disk which ok)) device.old device.new result }
    ensures room { KeepsRoom device.old device.new }
{
    if !device.disk_finish(which, ok) {
        return Seen::Nothing;
    }
    see_disk(device.disk_take())
}

pub(crate) fn give_event<D: DiskPort, F: Fabric>(
    device: &mut DeviceCore<D, F>,
    lender: Lender,
) -> Seen
    requires { lender.0 < device.old.device.lenders }
    ensures step { Went D.moves F.moves
        (λ d. happens d [] (Event.Give lender)) device.old device.new result }
    ensures room { KeepsRoom device.old device.new }
{
    see_gave(device.give(lender))
}

pub(crate) fn take_event<D: DiskPort, F: Fabric>(
    device: &mut DeviceCore<D, F>,
    lender: Lender,
) -> Seen
    requires { lender.0 < device.old.device.lenders }
    ensures step { Went D.moves F.moves
        (λ d. happens d [] (Event.Take lender)) device.old device.new result }
    ensures room { KeepsRoom device.old device.new }
{
    see_take(device.link_take(lender))
}

pub(crate) fn tick_event<D: DiskPort, F: Fabric>(device: &mut DeviceCore<D, F>, word: u64) -> Seen
    ensures step { Went D.moves F.moves
        (λ d. happens d [] (Event.Tick word)) device.old device.new result }
    ensures room { KeepsRoom device.old device.new }
    ensures acts { has_effect (Event.Tick word) result ≡ true }
{
    see_tick(device.tick(word))
}

fn cut_event<D: DiskPort, F: Fabric>(
    device: &mut DeviceCore<D, F>,
    lender: Lender,
    to_lender: u32,
    to_device: u32,
) -> Seen
    requires { lender.0 < device.old.device.lenders }
    ensures step { Went D.moves F.moves
        (λ d. happens d [] (Event.Cut lender to_lender to_device)) device.old device.new result }
    ensures room { KeepsRoom device.old device.new }
{
    see_cut(device.cut(lender, to_lender, to_device))
}

fn crash_event<D: DiskPort, F: Fabric>(device: &mut DeviceCore<D, F>, lender: Lender) -> Seen
    requires { lender.0 < device.old.device.lenders }
    ensures step { Went D.moves F.moves
        (λ d. happens d [] (Event.Crash lender)) device.old device.new result }
    ensures room { KeepsRoom device.old device.new }
{
    see_crash(device.crash(lender))
}

fn host_event<D: DiskPort, F: Fabric>(
    device: &mut DeviceCore<D, F>,
    lender: Lender,
    used: u32,
    word: u64,
) -> Seen
    requires { lender.0 < device.old.device.lenders }
    ensures step { Went D.moves F.moves
        (λ d. happens d [] (Event.Host lender used word)) device.old device.new result }
    ensures room { KeepsRoom device.old device.new }
{
    see_host(device.host(lender, used, word))
}

/// What an event does to a device over its ports.
pub fn happen<D: DiskPort, F: Fabric>(
    device: &mut DeviceCore<D, F>,
    lenders: u32,
    event: &Event,
    page: &mut [u8],
) -> Seen
    requires lenders { lenders ≡ device.old.device.lenders }
    requires few { lenders ≤ MOST_LENDERS }
    requires range { IsInRange device.old.device.sizes device.old.device.lenders event.now }
    requires page { length page.old ≡ device.old.device.sizes.page_bytes }
    requires spare { HasSpare device.old.device event.now device.old.spare }
    requires writes { device.old.device.failed_writes + 1 < 2 ^ 64 }
    requires reads { device.old.device.failed_reads + 1 < 2 ^ 64 }
    ensures step { Steps D.moves F.moves
        (record { event = event.now; page = page.old }) device.old device.new result }
    ensures room { KeepsRoom device.old device.new }
    ensures gives { GivesPage event.now result device.new.device.history page.old page.new }
{
    match *event {
        Event::PageOut { caller, page: of } => page_out(device, caller, of, page),
        Event::PageIn { caller, page: of } => page_in(device, caller, of, page),
        Event::Finish { caller } => finish(device, caller, page),
        Event::Start => see_start(device.disk_start()),
        Event::Disk { which, ok } => disk_event(device, which, ok, page),
        Event::Map { slab, lender } => see_map(device.map(slab, lender)),
        Event::Connect { lender } => see_link(device.connect(lender)),
        Event::Give { lender } => give_event(device, lender),
        Event::Take { lender } => take_event(device, lender),
        Event::Cut {
            lender,
            to_lender,
            to_device,
        } => cut_event(device, lender, to_lender, to_device),
        Event::Crash { lender } => crash_event(device, lender),
        Event::Host { lender, used, word } => host_event(device, lender, used, word),
        Event::Tick { word } => tick_event(device, word),
        Event::Round { word } => round(device, lenders, word),
    }
}
