//! The steps of a drill: what each makes of the machine.
ghost use Rattle.std.specs.Prelude.{◌≡◌, ◌+◌, ◌<◌, ◌≤◌, ◌∷◌, [], length};
ghost use Rattle.swap_wire.specs.Input.{IsInRange};
ghost use Rattle.swap_world.specs.World.{next};
ghost use Rattle.swap_world.specs.Runs.{is_new_call};
ghost use Rattle.swap_drill.specs.Drill.{after, call, calling, connects, crashes_at, drill_sizes, all_heard, following, give_and_take, hosts_at, is_round_step, oldest_write_ends, plain_input, rounds_at, seen_of_call, step, turn, turns, waits};
ghost use Rattle.swap_drill.specs.Steps.{world_in, IsReady, Spends};

use swap_base::{CallKind, Caller, DiskWhich, Lender};
use swap_calls::CallState;
use swap_disk::MemDisk;
use swap_link::Harbor;
use swap_trace::Draw;
use swap_wire::{Event, Seen};
use swap_world::{World, steps_are_next};

/// How many callers the drill has.
pub(crate) const CALLERS: u32 = 4;

/// How many bytes a page of the drill has.
pub(crate) const PAGE_BYTES: usize = 64;

/// Makes an event of any kind; a page-out's page is handed in.
fn happen(world: &mut World<MemDisk, Harbor>, event: Event, page: &mut [u8]) -> Seen
    requires ready { IsReady (is_new_call event) 1 world.old }
    requires range { IsInRange drill_sizes 3 event }
    requires page { length page.old ≡ PAGE_BYTES }
    ensures next { next (world_in world.old) (record { event = event; page = page.old })
        ≡ record { world = world_in world.new; seen = result } }
    ensures spends { Spends (is_new_call event) 1 world.old world.new }
{
    steps_are_next();
    world.step(&event, page)
}

/// Makes an event that is no call.
fn make(world: &mut World<MemDisk, Harbor>, event: Event, page: &mut [u8])
    requires no_call { is_new_call event ≡ 0 }
    requires ready { IsReady 0 1 world.old }
    requires range { IsInRange drill_sizes 3 event }
    requires page { length page.old ≡ PAGE_BYTES }
    ensures reach { world_in world.new ≡ after (world_in world.old) (plain_input event ∷ []) }
    ensures spends { Spends 0 1 world.old world.new }
{
    happen(world, event, page);
}

/// A lender takes a message, and one is taken of its link.
fn hear(world: &mut World<MemDisk, Harbor>, lender: Lender, page: &mut [u8])
    requires lender { lender.0 < 3 }
    requires ready { IsReady 0 2 world.old }
    requires page { length page.old ≡ PAGE_BYTES }
    ensures reach { world_in world.new ≡ after (world_in world.old) (give_and_take lender.0) }
    ensures spends { Spends 0 2 world.old world.new }
{
    make(world, Event::Give { lender }, page);
    make(world, Event::Take { lender }, page);
}

/// Hears the three lenders in turn.
fn hear_all(world: &mut World<MemDisk, Harbor>, page: &mut [u8])
    requires ready { IsReady 0 6 world.old }
    requires page { length page.old ≡ PAGE_BYTES }
    ensures reach { world_in world.new ≡ after (world_in world.old) all_heard }
    ensures spends { Spends 0 6 world.old world.new }
{
    hear(world, Lender(0), page);
    hear(world, Lender(1), page);
    hear(world, Lender(2), page);
}

/// A caller that waits: its read comes from the disk, the lenders are heard, and its call goes on.
fn take_turn(world: &mut World<MemDisk, Harbor>, caller: Caller, page: &mut [u8])
    requires caller { caller.0 < 4 }
    requires ready { IsReady 0 8 world.old }
    requires page { length page.old ≡ PAGE_BYTES }
    ensures reach { world_in world.new ≡ after (world_in world.old) (turn caller) }
    ensures spends { Spends 0 8 world.old world.new }
{
    let which = DiskWhich::Read(caller);
    make(world, Event::Disk { which, ok: true }, page);
    hear_all(world, page);
    make(world, Event::Finish { caller }, page);
}

// Whether a call of the caller waits.
pub(crate) fn waits(world: &World<MemDisk, Harbor>, caller: Caller) -> bool
    requires caller { caller.0 < 4 }
    requires sizes { world.now.core.device.sizes ≡ drill_sizes }
    ensures { result ≡ waits (world_in world.now) caller }
{
    match world.device().state(caller) {
        CallState::Idle => false,
        CallState::Room { .. } | CallState::Reading { .. } => true,
    }
}

/// Takes turns while the caller waits, four at most.
fn take_turns(world: &mut World<MemDisk, Harbor>, caller: Caller, page: &mut [u8])
    requires caller { caller.0 < 4 }
    requires ready { IsReady 0 32 world.old }
    requires page { length page.old ≡ PAGE_BYTES }
    ensures reach { world_in world.new
        ≡ after (world_in world.old) (turns 4 caller (world_in world.old)) }
    ensures spends { Spends 0 32 world.old world.new }
{
    let mut taken: u32 = 0;
    'turns: while taken < 4 && waits(world, caller) {
        take_turn(world, caller, page);
        taken += 1;
    }
}

/// Makes the drawn call.
fn make_call(world: &mut World<MemDisk, Harbor>, draw: Draw, page: &mut [u8]) -> Seen
    requires caller { draw.caller.0 < 4 }
    requires page_no { draw.page.0 < 1_024 }
    requires ready { IsReady 1 1 world.old }
    requires page { length page.old ≡ PAGE_BYTES }
    ensures next { next (world_in world.old) (call draw)
        ≡ record { world = world_in world.new; seen = result } }
    ensures spends { Spends 1 1 world.old world.new }
{
    let Draw {
        caller,
        page: number,
        kind,
        byte,
        ..
    } = draw;
    match kind {
        CallKind::PageOut => {
            page.fill(byte);
            happen(
                world,
                Event::PageOut {
                    caller,
                    page: number,
                },
                page,
            )
        }
        CallKind::PageIn => happen(
            world,
            Event::PageIn {
                caller,
                page: number,
            },
            page,
        ),
    }
}

/// The caller's turns, its call, and a copy that leaves for the disk. What is seen of the call.
fn call_by(world: &mut World<MemDisk, Harbor>, draw: Draw, page: &mut [u8]) -> Seen
    requires caller { draw.caller.0 < 4 }
    requires page_no { draw.page.0 < 1_024 }
    requires ready { IsReady 1 34 world.old }
    requires page { length page.old ≡ PAGE_BYTES }
    ensures reach { world_in world.new
        ≡ after (world_in world.old) (calling draw (world_in world.old)) }
    ensures seen { result ≡ seen_of_call draw (world_in world.old) }
    ensures spends { Spends 1 34 world.old world.new }
{
    take_turns(world, draw.caller, page);
    let seen = make_call(world, draw, page);
    make(world, Event::Start, page);
    seen
}

/// Where more than three writes are in flight, the one that was started first comes to its end.
fn end_oldest_write(world: &mut World<MemDisk, Harbor>, page: &mut [u8])
    requires ready { IsReady 0 1 world.old }
    requires page { length page.old ≡ PAGE_BYTES }
    ensures reach { world_in world.new
        ≡ after (world_in world.old) (oldest_write_ends world.old.core.disk.disk.flights) }
    ensures spends { Spends 0 1 world.old world.new }
{
    world.device().agrees();
    let disk = world.device().disk();
    if disk.writes_in_flight() > 3 {
        if let Some(oldest) = disk.oldest_write() {
            let which = DiskWhich::Write(oldest);
            make(world, Event::Disk { which, ok: true }, page);
        }
    }
}

/// Whether this step makes a Round, as every 128th does.
pub(crate) fn is_round_step(i: u32) -> bool
    ensures { result ≡ is_round_step i }
{
    i % 128 == 127
}

/// Makes a Round where this step has one.
fn make_round(world: &mut World<MemDisk, Harbor>, i: u32, word: u64, page: &mut [u8])
    requires ready { IsReady 0 1 world.old }
    requires page { length page.old ≡ PAGE_BYTES }
    ensures reach { world_in world.new ≡ after (world_in world.old) (rounds_at i word) }
    ensures spends { Spends 0 1 world.old world.new }
{
    if is_round_step(i) {
        make(world, Event::Round { word }, page);
    }
}

/// Every 500th step, a host uses up to eleven slots' worth of its memory.
fn use_host(world: &mut World<MemDisk, Harbor>, i: u32, word: u64, page: &mut [u8])
    requires ready { IsReady 0 1 world.old }
    requires page { length page.old ≡ PAGE_BYTES }
    ensures reach { world_in world.new ≡ after (world_in world.old) (hosts_at i word) }
    ensures spends { Spends 0 1 world.old world.new }
{
    if i % 500 == 499 {
        let lender = Lender(i / 500 % 3);
        let used = (word % 12) as u32;
        make(world, Event::Host { lender, used, word }, page);
    }
}

/// Every 10,000th step, a lender crashes and is linked anew.
fn crash(world: &mut World<MemDisk, Harbor>, i: u32, page: &mut [u8])
    requires ready { IsReady 0 2 world.old }
    requires page { length page.old ≡ PAGE_BYTES }
    ensures reach { world_in world.new ≡ after (world_in world.old) (crashes_at i) }
    ensures spends { Spends 0 2 world.old world.new }
{
    if i % 10_000 == 9_999 {
        let lender = Lender(i / 10_000 % 3);
        make(world, Event::Crash { lender }, page);
        make(world, Event::Connect { lender }, page);
    }
}

/// What follows a call.
fn follow(world: &mut World<MemDisk, Harbor>, i: u32, draw: Draw, page: &mut [u8])
    requires ready { IsReady 0 11 world.old }
    requires page { length page.old ≡ PAGE_BYTES }
    ensures reach { world_in world.new
        ≡ after (world_in world.old) (following i draw (world_in world.old)) }
    ensures spends { Spends 0 11 world.old world.new }
{
    end_oldest_write(world, page);
    hear_all(world, page);
    make_round(world, i, draw.word, page);
    use_host(world, i, draw.word, page);
    crash(world, i, page);
}

/// Makes step `i`, by this draw. What is seen of its call.
pub(crate) fn make_step(
    world: &mut World<MemDisk, Harbor>,
    i: u32,
    draw: Draw,
    page: &mut [u8],
) -> Seen
    requires caller { draw.caller.0 < 4 }
    requires page_no { draw.page.0 < 1_024 }
    requires ready { IsReady 1 45 world.old }
    requires page { length page.old ≡ PAGE_BYTES }
    ensures reach { world_in world.new
        ≡ after (world_in world.old) (step i draw (world_in world.old)) }
    ensures seen { result ≡ seen_of_call draw (world_in world.old) }
    ensures spends { Spends 1 45 world.old world.new }
{
    let seen = call_by(world, draw, page);
    follow(world, i, draw, page);
    seen
}

/// Makes the links to the three lenders.
pub(crate) fn connect_all(world: &mut World<MemDisk, Harbor>, page: &mut [u8])
    requires ready { IsReady 0 3 world.old }
    requires page { length page.old ≡ PAGE_BYTES }
    ensures reach { world_in world.new ≡ after (world_in world.old) connects }
    ensures spends { Spends 0 3 world.old world.new }
{
    make(world, Event::Connect { lender: Lender(0) }, page);
    make(world, Event::Connect { lender: Lender(1) }, page);
    make(world, Event::Connect { lender: Lender(2) }, page);
}
