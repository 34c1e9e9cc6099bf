// What each thread does with its pass: a caller's calls, the operator's events, or a pump's work.
ghost use Rattle.std.specs.Prelude.{◌≡◌, ◌+◌, ◌<◌, ℕ, All, IfOk, IfSome, OnOk, length, map, true, vec_len, slice_index_or};
ghost use Rattle.swap_wire.specs.Input.{IsInRange};
ghost use Rattle.swap_script.specs.Reading.{is_call_of};
ghost use Rattle.swap_trace.specs.Traces.{calls_in};
ghost use Rattle.swap_board.specs.Works.{IsPoint};
ghost use Rattle.swap_turn.specs.PassView.{IsFreeOf};
ghost use Rattle.swap_play.specs.Callers.{AreCallsOf, IsOver, Plays, PlaysOne, caller, is_answer};

use std::alloc::Global;
use std::sync::Wait;
use std::sync::atomic::{AtomicU32, Ordering};
use std::thread;
use std::thread::Threads;
use swap_base::{Caller, EntryNo, Lender, NoMemory};
use swap_board::{Naming, Operated, Point};
use swap_disk::DiskPort;
use swap_player::{Gate, Pumped, Swap, SwapFault};
use swap_trace::{CallerWalk, Trace};
use swap_turn::Pass;
use swap_wire::{Event, Fabric};

fn is_answer(answer: Result<EntryNo, SwapFault>) -> bool
    ensures { result ≡ is_answer answer }
{
    match answer {
        Ok(_) | Err(SwapFault::Disk { .. }) => true,
        Err(SwapFault::Spent | SwapFault::NoMemory) => false,
    }
}

// A call of the pass's own; whether it was answered.
fn play_call<D: DiskPort + Drop, F: Fabric + Drop, N: Naming<D, F>, G: Gate, R: Wait>(
    rt: &R,
    alloc: Global,
    swap: &Swap<D, F, N>,
    pass: &mut Pass,
    event: &Event,
    page: &mut [u8],
    gate: &G,
) -> bool
    requires pass { IsFreeOf swap.now pass.old }
    requires caller { pass.old.number < N.named.sizes.callers }
    requires own { is_call_of (caller pass.old.number) event.now ≡ true }
    requires range { IsInRange N.named.sizes N.named.lenders event.now }
    requires page { length page.old ≡ N.named.sizes.page_bytes }
    ensures pass { IsFreeOf swap.now pass.new × (pass.new.number ≡ pass.old.number) }
    ensures plays { result ≡ true → PlaysOne event.now page.old pass.old.mine pass.new.mine }
{
    match *event {
        Event::PageOut { page: of, .. } => {
            is_answer(swap.page_out(rt, alloc, pass, of, page, gate))
        }
        Event::PageIn { page: of, .. } => is_answer(swap.page_in(rt, pass, of, page, gate)),
        _ => unreachable!(),
    }
}

// A caller's calls, in order; whether each was answered.
fn play_calls<D: DiskPort + Drop, F: Fabric + Drop, N: Naming<D, F>, G: Gate, R: Wait>(
    rt: &R,
    alloc: Global,
    swap: &Swap<D, F, N>,
    pass: &mut Pass,
    calls: CallerWalk<'_>,
    page: &mut [u8],
    gate: &G,
) -> bool
    requires pass { IsFreeOf swap.now pass.old }
    requires caller { pass.old.number < N.named.sizes.callers }
    requires calls { AreCallsOf N.named.sizes N.named.lenders (caller pass.old.number) calls }
    requires page { length page.old ≡ N.named.sizes.page_bytes }
    ensures pass { IsFreeOf swap.now pass.new × (pass.new.number ≡ pass.old.number) }
    ensures plays { result ≡ true → Plays calls.entry.inputs pass.old.mine pass.new.mine }
{
    let mut left = calls;
    'calls: while let Some(event) = left.next(page) {
        if !play_call(rt, alloc, swap, pass, &event, page, gate) {
            return false;
        }
    }
    true
}

// A caller's thread: its calls; whether each was answered.
fn play_caller<D: DiskPort + Drop, F: Fabric + Drop, N: Naming<D, F>, G: Gate, R: Wait>(
    rt: &R,
    alloc: Global,
    swap: &Swap<D, F, N>,
    trace: &Trace<'_>,
    pass: &mut Pass,
    gate: &G,
) -> bool
    requires sizes { trace.now.sizes ≡ N.named.sizes }
    requires lenders { length trace.now.lenders ≡ N.named.lenders }
    requires pass { IsFreeOf swap.now pass.old }
    requires caller { pass.old.number < N.named.sizes.callers }
    ensures pass { IsFreeOf swap.now pass.new × (pass.new.number ≡ pass.old.number) }
    ensures plays { result ≡ true
        → Plays (calls_in (caller pass.old.number) trace.now).inputs pass.old.mine pass.new.mine }
{
    let page_bytes = trace.script().geometry().page_bytes();
    let Ok(mut page) = vec![in alloc; 0u8; page_bytes as usize] else {
        return false;
    };
    let calls = trace.caller(Caller(pass.number()));
    play_calls(rt, alloc, swap, pass, calls, page.as_mut_slice(), gate)
}

// The operator's thread: each event of its list. Whether all were made.
fn operate_all<D: DiskPort + Drop, F: Fabric + Drop, N: Naming<D, F>, R: Wait>(
    rt: &R,
    swap: &Swap<D, F, N>,
    pass: &mut Pass,
) -> bool
    requires pass { IsFreeOf swap.now pass.old }
    ensures pass { IsFreeOf swap.now pass.new × (pass.new.number ≡ pass.old.number) }
{
    'events: for _ in rt.forever() {
        match swap.operate(rt, pass) {
            Operated::Made | Operated::Nothing => {}
            Operated::Ended => return true,
            Operated::NoMemory => return false,
        }
    }
    unreachable!()
}

// After so many rounds without an effect a pump leaves. Each step of a call works at every point
// itself, so none waits for a pump; and where threads can't be made, seats may stand behind the
// pump in its own thread, and begin only when it has left.
const PATIENCE: u32 = 64;

// For how many rounds a pump has found nothing to do, after one more.
fn idle_after<T>(idle: u32, first: &Pumped<T>, second: &Pumped<T>) -> u32 {
    if matches!(first, Pumped::Did) || matches!(second, Pumped::Did) {
        0
    } else {
        idle.saturating_add(1)
    }
}

// A pump's thread at the disk, or at a lender's link: it works until no caller, and no operator, is
// busy, or until it has found nothing to do for so long that it isn't needed.
fn pump_while_busy<D: DiskPort + Drop, F: Fabric + Drop, N: Naming<D, F>, G: Gate, R: Wait>(
    rt: &R,
    swap: &Swap<D, F, N>,
    pass: &mut Pass,
    points: (Point, Point),
    busy: &AtomicU32,
    gate: &G,
)
    requires pass { IsFreeOf swap.now pass.old }
    requires points { IsPoint N.named.lenders points.0 × IsPoint N.named.lenders points.1 }
    ensures pass { IsFreeOf swap.now pass.new × (pass.new.number ≡ pass.old.number) }
{
    let mut idle: u32 = 0;
    'turns: for _ in rt.forever() {
        if busy.load(Ordering::SeqCst) == 0 || idle >= PATIENCE {
            return;
        }
        let first = swap.pump(rt, pass, points.0, gate);
        let second = swap.pump(rt, pass, points.1, gate);
        idle = idle_after(idle, &first, &second);
        thread::yield_now();
    }
    unreachable!()
}

// Where the pump of a seat stands: the first behind the callers and the operator at the disk, and
// the others at a lender's link.
fn points_of(seat: u32) -> (Point, Point)
    ensures { (lenders : ℕ) → seat < lenders + 1
        → IsPoint lenders result.0 × IsPoint lenders result.1 }
{
    if seat == 0 {
        (Point::Disk, Point::Disk)
    } else {
        let lender = Lender(seat - 1);
        (Point::Give(lender), Point::Take(lender))
    }
}

// A seat's thread. The seats of the callers come first, then the operator's, the disk's and each
// lender's. The answer tells whether all that the seat is for was made.
fn play_seat<D: DiskPort + Drop, F: Fabric + Drop, N: Naming<D, F>, G: Gate, R: Wait>(
    rt: &R,
    alloc: Global,
    swap: &Swap<D, F, N>,
    trace: &Trace<'_>,
    mut pass: Pass,
    busy: &AtomicU32,
    gate: &G,
) -> (Pass, bool)
    requires sizes { trace.now.sizes ≡ N.named.sizes }
    requires lenders { length trace.now.lenders ≡ N.named.lenders }
    requires pass { IsFreeOf swap.now pass }
    requires seat { pass.number < N.named.sizes.callers + N.named.lenders + 2 }
    ensures { IsOver swap.now trace.now pass result }
{
    let callers = trace.script().geometry().callers();
    let number = pass.number();
    if number < callers {
        let done = play_caller(rt, alloc, swap, trace, &mut pass, gate);
        return (pass, done);
    }
    if number == callers {
        let done = operate_all(rt, swap, &mut pass);
        return (pass, done);
    }
    pump_while_busy(
        rt,
        swap,
        &mut pass,
        points_of(number - callers - 1),
        busy,
        gate,
    );
    (pass, true)
}

// What a seat counts as while it is under way to its thread, and there: busy, where it is a
// caller's or the operator's. So a pump waits for no seat that is let go for want of memory.
struct Ticket<'a> {
    busy: Option<&'a AtomicU32>,
}

impl Drop for Ticket<'_> {
    fn drop(self) {
        let Ticket { busy } = self;
        if let Some(busy) = busy {
            busy.fetch_sub(1, Ordering::SeqCst);
        }
    }
}

// A ticket for each pass, of the callers and of the operator behind them.
fn tickets_of<'a>(
    alloc: Global,
    passes: Vec<Pass>,
    callers: u32,
    busy: &'a AtomicU32,
) -> Result<Vec<(Pass, Ticket<'a>)>, NoMemory>
    ensures { IfOk result (λ v. map (λ s. s.0) v.items ≡ passes.items) }
{
    let mut seats = Vec::new(alloc);
    'passes: for pass in passes {
        let is_busy = pass.number() <= callers;
        let ticket = Ticket {
            busy: if is_busy { Some(busy) } else { None },
        };
        if seats.push((pass, ticket)).is_err() {
            return Err(NoMemory);
        }
    }
    Ok(seats)
}

/// Each seat in a thread of its own, as far as threads can be made: what each leaves, in order.
pub(crate) fn play_seats<
    D: DiskPort + Drop + Send,
    F: Fabric + Drop + Send,
    N: Naming<D, F> + Send + Sync,
    G: Gate,
    R: Threads + Wait + Sync,
>(
    rt: &R,
    alloc: Global,
    swap: &Swap<D, F, N>,
    trace: &Trace<'_>,
    passes: Vec<Pass>,
    gate: &G,
) -> Option<Vec<(Pass, bool)>>
    requires sizes { trace.now.sizes ≡ N.named.sizes }
    requires lenders { length trace.now.lenders ≡ N.named.lenders }
    requires passes { All
        (λ p. IsFreeOf swap.now p × (p.number < N.named.sizes.callers + N.named.lenders + 2))
        passes.items }
    ensures len { IfSome result (λ v. vec_len v ≡ vec_len passes) }
    ensures each { IfSome result
        (λ v. (i : ℕ) (d : _) (e : _) → i < vec_len passes
        → IsOver swap.now trace.now (slice_index_or passes.items i e)
        (slice_index_or v.items i d)) }
{
    let callers = trace.script().geometry().callers();
    let busy = AtomicU32::new(callers + 1);
    let Ok(seats) = tickets_of(alloc, passes, callers, &busy) else {
        return None;
    };
    let Ok(overs) = thread::map_vec(
        rt,
        seats,
        &|seat: (Pass, Ticket<'_>)| -> (Pass, bool)
            requires { IsFreeOf swap.now seat.0
                × (seat.0.number < N.named.sizes.callers + N.named.lenders + 2)
                × (trace.now.sizes ≡ N.named.sizes)
                × (length trace.now.lenders ≡ N.named.lenders) }
            ensures { IsOver swap.entry.now trace.entry.now seat.entry.0 result }
        {
            let (pass, ticket) = seat;
            let over = play_seat(rt, alloc, swap, trace, pass, &busy, gate);
            drop(ticket);
            over
        },
    ) else {
        return None;
    };
    Some(overs)
}

/// The passes that the threads left. None where one of them couldn't make all that it was for.
pub(crate) fn passes_of(alloc: Global, overs: Vec<(Pass, bool)>) -> Result<Vec<Pass>, NoMemory>
    ensures passes { IfOk result (λ v. v.items ≡ map (λ o. o.0) overs.items) }
    ensures done { OnOk result (All (λ o. o.1 ≡ true) overs.items) }
{
    let mut passes = Vec::new(alloc);
    'overs: for (pass, done) in overs {
        if !done || passes.push(pass).is_err() {
            return Err(NoMemory);
        }
    }
    Ok(passes)
}
