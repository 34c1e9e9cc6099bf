// What a board makes of its world besides the steps of calls.
ghost use Rattle.std.specs.Prelude.{◌≡◌, ◌≤◌, ◌<◌, ◌+◌, length, IfSome, IfNone};
ghost use Rattle.swap_wire.specs.Input.{IsInRange};
ghost use Rattle.swap_board.specs.Works.{IsCallless, IsPoint, Stepped, MakesAs, Ended, Polls, PumpsAs, known_operation, moved_between, IsSame, Paced};

use rand_core::utils::NextWord;
use rand_pcg::Lcg64Xsh32;
use swap_base::{DiskWhich, Geometry, Lender};
use swap_disk::DiskPort;
use swap_wire::{Event, Fabric};
use swap_world::World;

/// How many calls are begun with no Round between them, at most.
pub const PACE: u32 = 256;

/// Where a pump stands.
#[derive(Clone, Copy, Debug, PartialEq, Eq)]
pub enum Point {
    Disk,
    Give(Lender),
    Take(Lender),
}

/// What a point of a pump did.
#[derive(Clone, Copy, Debug, PartialEq, Eq)]
pub enum Moved {
    Did,
    Nothing,
    NoMemory,
}

// Whether the log grew.
fn what_moved(before: usize, now: usize) -> Moved
    ensures { result ≡ moved_between before now }
{
    if before < now {
        Moved::Did
    } else {
        Moved::Nothing
    }
}

// An operation that the geometry knows.
fn known(geometry: Geometry, oldest: Option<DiskWhich>) -> Option<DiskWhich>
    ensures { result ≡ known_operation geometry oldest }
{
    let which = oldest?;
    let is_known = match which {
        DiskWhich::Write(page) => page.0 < geometry.pages(),
        DiskWhich::Read(caller) => caller.0 < geometry.callers(),
    };
    if is_known { Some(which) } else { None }
}

// Makes an event that is no step of a call, in room that there is.
fn step<D: DiskPort, F: Fabric>(world: &mut World<D, F>, page: &mut Vec<u8>, event: &Event)
    requires page { length page.old.items ≡ world.old.core.device.sizes.page_bytes }
    requires range { IsInRange world.old.core.device.sizes world.old.core.device.lenders event.now }
    requires callless { IsCallless event.now }
    requires room { 0 < world.old.log_spare }
    ensures page { length page.new.items ≡ length page.old.items }
    ensures made { Stepped D.moves F.moves event.now world.old world.new }
    ensures room { world.old.log_spare ≤ world.new.log_spare + 1 }
{
    world.step(event, page.as_mut_slice());
}

/// Makes an event that is no step of a call.
pub(crate) fn make<D: DiskPort, F: Fabric>(
    world: &mut World<D, F>,
    page: &mut Vec<u8>,
    event: &Event,
) -> Moved
    requires page { length page.old.items ≡ world.old.core.device.sizes.page_bytes }
    requires range { IsInRange world.old.core.device.sizes world.old.core.device.lenders event.now }
    requires callless { IsCallless event.now }
    ensures page { length page.new.items ≡ length page.old.items }
    ensures made { MakesAs D.moves F.moves event.now result world.old world.new }
{
    if world.reserve(0, 1).is_err() {
        return Moved::NoMemory;
    }
    let before = world.log_len();
    step(world, page, event);
    what_moved(before, world.log_len())
}

// Lets the oldest operation of a disk in memory finish.
fn end_oldest<D: DiskPort, F: Fabric>(world: &mut World<D, F>, page: &mut Vec<u8>)
    requires page { length page.old.items ≡ world.old.core.device.sizes.page_bytes }
    requires room { 0 < world.old.log_spare }
    ensures page { length page.new.items ≡ length page.old.items }
    ensures ended { Ended D.moves F.moves D.means world.old world.new }
    ensures room { world.old.log_spare ≤ world.new.log_spare + 1 }
{
    let oldest = world.device().disk().oldest();
    if let Some(which) = known(world.device().geometry(), oldest) {
        step(world, page, &Event::Disk { which, ok: true });
    }
}

// Takes what the disk ended by itself.
fn poll<D: DiskPort, F: Fabric>(world: &mut World<D, F>)
    requires { 0 < world.old.log_spare }
    ensures { Polls D.moves F.moves world.old world.new }
{
    world.poll_disk();
}

// Works at the disk: a copy leaves for it, the oldest operation of a disk in memory finishes, and
// what finished by itself is taken.
fn work_disk<D: DiskPort, F: Fabric>(world: &mut World<D, F>, page: &mut Vec<u8>) -> Moved
    requires page { length page.old.items ≡ world.old.core.device.sizes.page_bytes }
    ensures page { length page.new.items ≡ length page.old.items }
    ensures pumps { PumpsAs D.moves F.moves D.means Point.Disk result world.old world.new }
{
    if world.reserve(0, 3).is_err() {
        return Moved::NoMemory;
    }
    let before = world.log_len();
    step(world, page, &Event::Start);
    end_oldest(world, page);
    poll(world);
    what_moved(before, world.log_len())
}

/// Works at a point.
pub(crate) fn pump<D: DiskPort, F: Fabric>(
    world: &mut World<D, F>,
    page: &mut Vec<u8>,
    point: Point,
) -> Moved
    requires page { length page.old.items ≡ world.old.core.device.sizes.page_bytes }
    requires point { IsPoint world.old.core.device.lenders point }
    ensures page { length page.new.items ≡ length page.old.items }
    ensures pumps { PumpsAs D.moves F.moves D.means point result world.old world.new }
{
    match point {
        Point::Disk => work_disk(world, page),
        Point::Give(lender) => make(world, page, &Event::Give { lender }),
        Point::Take(lender) => make(world, page, &Event::Take { lender }),
    }
}

/// Makes room for a call, and the Round that is due. None where there is no memory for it.
pub(crate) fn pace<D: DiskPort, F: Fabric>(
    world: &mut World<D, F>,
    since: u32,
    words: &mut Lcg64Xsh32,
    page: &mut Vec<u8>,
) -> Option<u32>
    requires page { length page.old.items ≡ world.old.core.device.sizes.page_bytes }
    ensures page { length page.new.items ≡ length page.old.items }
    ensures paced { IfSome result
        (λ n. Paced D.moves F.moves since words.old world.old n words.new world.new) }
    ensures none { IfNone result (IsSame world.old world.new × (words.new ≡ words.old)) }
{
    if world.reserve(0, 2).is_err() {
        return None;
    }
    if since < PACE {
        return Some(since);
    }
    let word = u64::from(words.next_word());
    world.step(&Event::Round { word }, page.as_mut_slice());
    Some(0)
}
