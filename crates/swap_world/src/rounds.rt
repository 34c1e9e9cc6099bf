//! A Round: every slab's period ends, and then each lender's messages come twice.
ghost use Rattle.std.specs.Prelude.{◌≡◌, ◌+◌, ◌*◌, ◌<◌, ◌≤◌, []};
ghost use Rattle.swap_table.specs.Device.{of_device};
ghost use Rattle.swap_device.specs.State.{KeepsRoom};
ghost use Rattle.swap_base.specs.declared.TheConstants.{MOST_LENDERS};
ghost use Rattle.swap_world.specs.Rounds.{plan_again, each_lender, Plan, Continues};
ghost use Rattle.swap_world.specs.Runs.{Steps};

use crate::events::{give_event, take_event, tick_event};
use crate::world::has_effect;
use swap_base::Lender;
use swap_device::DeviceCore;
use swap_disk::DiskPort;
use swap_wire::{Event, Fabric, Seen};

// A lender takes messages until there is none, so many at most: how many it took.
fn give_all<D: DiskPort, F: Fabric>(
    device: &mut DeviceCore<D, F>,
    lender: Lender,
    times: u32,
) -> u32
    requires { lender.0 < device.old.device.lenders }
    ensures goes { (rest : Plan)
        → Continues D.moves F.moves
        (plan_again times (Event.Give lender) rest) rest device.old device.new result }
    ensures room { KeepsRoom device.old device.new }
    ensures of { of_device device.new.device ≡ of_device device.old.device }
    ensures most { result ≤ times }
{
    let mut effects = 0;
    'messages: while effects < times {
        let seen = give_event(device, lender);
        if !has_effect(&Event::Give { lender }, &seen) {
            break 'messages;
        }
        effects += 1;
    }
    effects
}

// So many messages of a lender's link are taken at most, until there is none: how many there were.
fn take_all<D: DiskPort, F: Fabric>(
    device: &mut DeviceCore<D, F>,
    lender: Lender,
    times: u32,
) -> u32
    requires { lender.0 < device.old.device.lenders }
    ensures goes { (rest : Plan)
        → Continues D.moves F.moves
        (plan_again times (Event.Take lender) rest) rest device.old device.new result }
    ensures room { KeepsRoom device.old device.new }
    ensures of { of_device device.new.device ≡ of_device device.old.device }
    ensures most { result ≤ times }
{
    let mut effects = 0;
    'messages: while effects < times {
        let seen = take_event(device, lender);
        if !has_effect(&Event::Take { lender }, &seen) {
            break 'messages;
        }
        effects += 1;
    }
    effects
}

// Each lender, ascending, takes its messages, and then its link's are taken: how many there were in
// all.
fn hear_all<D: DiskPort, F: Fabric>(device: &mut DeviceCore<D, F>, lenders: u32, times: u32) -> u32
    requires lenders { lenders ≡ device.old.device.lenders }
    requires few { lenders ≤ MOST_LENDERS }
    requires times { times ≤ 130 }
    ensures goes { (rest : Plan)
        → Continues D.moves F.moves
        (each_lender times lenders 0 rest) rest device.old device.new result }
    ensures room { KeepsRoom device.old device.new }
    ensures of { of_device device.new.device ≡ of_device device.old.device }
    ensures most { result ≤ 2_080 }
{
    let mut effects = 0;
    'each: for number in 0..lenders {
        effects += give_all(device, Lender(number), times);
        effects += take_all(device, Lender(number), times);
    }
    effects
}

/// Makes a Round: a tick, and then twice the messages of each lender. How many of these events had
/// an effect, and how many slabs are mapped after them.
pub fn round<D: DiskPort, F: Fabric>(device: &mut DeviceCore<D, F>, lenders: u32, word: u64) -> Seen
    requires lenders { lenders ≡ device.old.device.lenders }
    requires few { lenders ≤ MOST_LENDERS }
    ensures step { Steps D.moves F.moves
        (record { event = Event.Round word; page = [] }) device.old device.new result }
    ensures room { KeepsRoom device.old device.new }
{
    let times = device.geometry().window() + 66;
    tick_event(device, word);
    let first = hear_all(device, lenders, times);
    let second = hear_all(device, lenders, times);
    Seen::Rounded {
        effects: 1 + first + second,
        mapped: device.mapped(),
    }
}
