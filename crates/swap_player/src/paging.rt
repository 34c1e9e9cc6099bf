// The steps of a paging call, each in a turn of its own.
ghost use Rattle.std.specs.Prelude.{◌≡◌, ◌<◌, ◌+◌, ◌⊎◌, length, true, false};
ghost use Rattle.swap_wire.specs.Input.{IsInRange};
ghost use Rattle.swap_calls.specs.Calls.{call_of, is_idle};
ghost use Rattle.swap_world.specs.Runs.{StandsIn};
ghost use Rattle.swap_board.specs.Boards.{IsCall, IsOfIdle};
ghost use Rattle.swap_board.specs.Works.{IsPoint};
ghost use Rattle.swap_turn.specs.PassView.{IsFreeOf};
ghost use Rattle.swap_player.specs.Seen.{IsWell};
ghost use Rattle.swap_player.specs.Turns.{ended_of, IsEnded, IsOpen, IsSpentAs, caller_of, Ends, Turns, Gives};

use crate::points::OpenPoints;
use std::sync::Wait;
use swap_base::{Caller, EntryNo, Lender, NoMemory};
use swap_board::{Begun, Board, Naming, Point};
use swap_calls::CallState;
use swap_device::DeviceCore;
use swap_disk::DiskPort;
use swap_record::{Entry, Op, Record};
use swap_table::ports_promise;
use swap_turn::{Pass, TurnLock};
use swap_wire::{Event, Fabric, Seen};
use swap_world::over_any_ports;

/// Why a paging call gives no page, or took none.
#[derive(Clone, Copy, Debug, PartialEq, Eq)]
pub enum SwapFault {
    /// The disk failed during the call: the entry and its two counts.
    Disk { entry: EntryNo, since: u64, at: u64 },
    /// All calls were begun before.
    Spent,
    NoMemory,
}

/// How a paging call ended, with the count of its caller's earlier calls.
#[derive(Clone, Copy, Debug, PartialEq, Eq)]
pub struct Ended {
    pub answer: Result<EntryNo, SwapFault>,
    pub number: u32,
}

impl Ended {
    // A call that ended without an entry.
    fn without(why: SwapFault) -> Ended
        ensures { result ≡ record { answer = Err why; number = 0 } }
    {
        Ended {
            answer: Err(why),
            number: 0,
        }
    }
}

// How a call ended, by its entry.
fn ended_by(entry: EntryNo, of: Entry) -> Ended
    ensures { result ≡ ended_of entry of }
{
    let answer = match of.op {
        Op::PageOut | Op::PageIn { .. } => Ok(entry),
        Op::Failed { since, at, .. } => Err(SwapFault::Disk { entry, since, at }),
    };
    Ended {
        answer,
        number: of.number,
    }
}

// How a call ended, where its step ended it.
fn end_of(history: &Record, seen: &Seen) -> Option<Ended>
    requires { StandsIn history.now.history seen.now }
    ensures { IsEnded history.now.history seen.now result }
{
    match seen {
        Seen::Done { entry, .. } | Seen::Fault { entry } => {
            Some(ended_by(*entry, history.entry(*entry)))
        }
        _ => None,
    }
}

fn is_idle(state: CallState) -> bool
    ensures { result ≡ is_idle state }
{
    match state {
        CallState::Idle => true,
        CallState::Room { .. } | CallState::Reading { .. } => false,
    }
}

// The caller of a call.
fn caller_of(event: &Event) -> Caller
    requires { IsCall event.now }
    ensures { result ≡ caller_of event.now }
{
    match *event {
        Event::PageOut { caller, .. } | Event::PageIn { caller, .. } => caller,
        _ => unreachable!(),
    }
}

// Whether the call that waits is this one.
fn is_open<D: DiskPort, F: Fabric>(device: &DeviceCore<D, F>, event: &Event, page: &[u8]) -> bool
    requires call { IsCall event.now }
    requires caller { (caller_of event.now).0 < device.now.device.sizes.callers }
    ensures { result ≡ true
        → IsOpen event.now page.now (call_of device.now.device.calls (caller_of event.now)) }
{
    let caller = caller_of(event);
    match (*event, device.state(caller)) {
        (Event::PageOut { page: of, .. }, CallState::Room { page: waits, .. }) => {
            of.0 == waits.0 && device.kept(caller) == page
        }
        (Event::PageIn { page: of, .. }, CallState::Reading { page: waits, .. }) => {
            of.0 == waits.0
        }
        _ => false,
    }
}

// All calls were begun before: each but those under way has its entry.
fn spent<D: DiskPort, F: Fabric, N: Naming<D, F>>(board: &Board<D, F, N>) -> Ended
    ensures { IsSpentAs N.named.calls N.named.sizes.callers board.now.world.core.device.history
        result }
{
    board.is_named();
    let device = board.world().device();
    let entries = u64::from(device.history().len());
    let callers = u64::from(device.geometry().callers());
    if u64::from(board.calls()) < entries + callers {
        Ended::without(SwapFault::Spent)
    } else {
        Ended::without(SwapFault::NoMemory)
    }
}

// The first step of a call. Where its caller isn't idle, the answer is `NoMemory`.
fn begin<D: DiskPort, F: Fabric, N: Naming<D, F>>(
    board: &mut Board<D, F, N>,
    event: &Event,
    page: &mut [u8],
) -> Option<Ended>
    requires call { IsCall event.now }
    requires range { IsInRange N.named.sizes N.named.lenders event.now }
    requires page { length page.old ≡ N.named.sizes.page_bytes }
    ensures ends { Ends N.named.calls N.named.sizes.callers event.now page.old result
        board.old.world.core.device.history board.new.world.core.device.history }
    ensures gives { Gives result board.new.world.core.device.history page.old page.new }
{
    board.is_named();
    if !is_idle(board.world().device().state(caller_of(event))) {
        return Some(Ended::without(SwapFault::NoMemory));
    }
    match board.begin(event, page) {
        Begun::Made(seen) => end_of(board.world().device().history(), &seen),
        Begun::Spent => Some(spent(board)),
        Begun::NoMemory => Some(Ended::without(SwapFault::NoMemory)),
    }
}

// A later step of a call. Where its caller's call is another one, which no other code makes, the
// answer is `NoMemory`.
fn go_on<D: DiskPort, F: Fabric, N: Naming<D, F>>(
    board: &mut Board<D, F, N>,
    event: &Event,
    page: &mut [u8],
) -> Option<Ended>
    requires call { IsCall event.now }
    requires range { IsInRange N.named.sizes N.named.lenders event.now }
    requires page { length page.old ≡ N.named.sizes.page_bytes }
    ensures ends { Ends N.named.calls N.named.sizes.callers event.now page.old result
        board.old.world.core.device.history board.new.world.core.device.history }
    ensures gives { Gives result board.new.world.core.device.history page.old page.new }
{
    board.is_named();
    if !is_open(board.world().device(), event, page) {
        return Some(Ended::without(SwapFault::NoMemory));
    }
    match board.finish(caller_of(event), page) {
        Ok(seen) => end_of(board.world().device().history(), &seen),
        Err(NoMemory) => Some(Ended::without(SwapFault::NoMemory)),
    }
}

// Works at a point, where it is one of these.
fn work_at<D: DiskPort, F: Fabric, N: Naming<D, F>>(
    board: &mut Board<D, F, N>,
    points: OpenPoints,
    point: Point,
)
    requires { IsPoint N.named.lenders point }
    ensures { board.new.world.core.device.history ≡ board.old.world.core.device.history }
{
    if points.has(point) {
        let _ = board.pump(point);
    }
}

// Works at these points: first at the disk, then at each link.
fn work_at_all<D: DiskPort, F: Fabric, N: Naming<D, F>>(
    board: &mut Board<D, F, N>,
    points: OpenPoints,
)
    ensures { board.new.world.core.device.history ≡ board.old.world.core.device.history }
{
    board.is_named();
    let lenders = board.world().lenders();
    work_at(board, points, Point::Disk);
    'links: for lender in 0..lenders {
        work_at(board, points, Point::Give(Lender(lender)));
        work_at(board, points, Point::Take(Lender(lender)));
    }
}

// A step of a call, behind the work at these points.
fn take_step<D: DiskPort, F: Fabric, N: Naming<D, F>>(
    board: &mut Board<D, F, N>,
    points: OpenPoints,
    is_first: bool,
    event: &Event,
    page: &mut [u8],
) -> Option<Ended>
    requires call { IsCall event.now }
    requires range { IsInRange N.named.sizes N.named.lenders event.now }
    requires page { length page.old ≡ N.named.sizes.page_bytes }
    ensures ends { Ends N.named.calls N.named.sizes.callers event.now page.old result
        board.old.world.core.device.history board.new.world.core.device.history }
    ensures gives { Gives result board.new.world.core.device.history page.old page.new }
{
    work_at_all(board, points);
    if is_first {
        begin(board, event, page)
    } else {
        go_on(board, event, page)
    }
}

// The history of a board is ordered, and legal as far as its ports tell.
fn holds<D: DiskPort, F: Fabric, N: Naming<D, F>>(board: &Board<D, F, N>)
    ensures { IsWell D.DiskPort F.Fabric N.named.sizes board.now.world.core.device.history }
{
    board.is_named();
    board.world().reached();
    ports_promise::<D, F>();
    over_any_ports::<D, F>();
}

// A step of a call, with what is known of the history after it.
fn step_well<D: DiskPort, F: Fabric, N: Naming<D, F>>(
    board: &mut Board<D, F, N>,
    points: OpenPoints,
    is_first: bool,
    event: &Event,
    page: &mut [u8],
) -> Option<Ended>
    requires call { IsCall event.now }
    requires range { IsInRange N.named.sizes N.named.lenders event.now }
    requires page { length page.old ≡ N.named.sizes.page_bytes }
    ensures ends { Ends N.named.calls N.named.sizes.callers event.now page.old result
        board.old.world.core.device.history board.new.world.core.device.history }
    ensures gives { Gives result board.new.world.core.device.history page.old page.new }
    ensures well { IsWell D.DiskPort F.Fabric N.named.sizes board.new.world.core.device.history }
{
    let ended = take_step(board, points, is_first, event, page);
    holds(board);
    ended
}

/// One turn of a call.
pub(crate) fn turn<D: DiskPort + Drop, F: Fabric + Drop, N: Naming<D, F>, R: Wait>(
    rt: &R,
    lock: &TurnLock<Board<D, F, N>>,
    pass: &mut Pass,
    points: OpenPoints,
    is_first: bool,
    event: &Event,
    page: &mut [u8],
) -> Option<Ended>
    requires pass { IsFreeOf lock.now pass.old }
    requires call { IsCall event.now }
    requires own { (caller_of event.now).0 ≡ pass.old.number }
    requires range { IsInRange N.named.sizes N.named.lenders event.now }
    requires page { length page.old ≡ N.named.sizes.page_bytes }
    ensures pass { IsFreeOf lock.now pass.new × (pass.new.number ≡ pass.old.number) }
    ensures turns { Turns N.named.calls N.named.sizes.callers event.now page.old result pass.old
        pass.new }
    ensures gives { Gives result pass.new.seen page.old page.new }
    ensures well { IsWell D.DiskPort F.Fabric N.named.sizes pass.new.seen }
{
    let mut taken = lock.take(rt, pass);
    let ended = step_well(taken.value(), points, is_first, event, page);
    lock.give(pass, taken);
    ended
}
