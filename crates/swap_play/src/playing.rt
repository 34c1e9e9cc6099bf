// A trace from its first link to its last copy.
ghost use Rattle.std.specs.Prelude.{◌≡◌, [], IfOk, Some, length, true};
ghost use Rattle.swap_calls.specs.Calls.{is_idle};
ghost use Rattle.swap_script.specs.Reading.{calls_of};
ghost use Rattle.swap_trace.specs.Traces.{operators_in};
ghost use Rattle.swap_world.specs.Runs.{busy_callers};
ghost use Rattle.swap_board.specs.Boards.{AreOperators};
ghost use Rattle.swap_play.specs.Callers.{AreSeats, HavePlayed, events_of};
ghost use Rattle.swap_play.specs.Playing.{AreIdle, IsCarriedOut, IsEnded, IsNew, IsPlayedOut, IsTrace, LogTells};

use crate::callers::{passes_of, play_seats};
use crate::connects::connect_all;
use crate::settles::settle;
use std::alloc::Global;
use std::marker::Brand;
use std::sync::Wait;
use std::thread::Threads;
use swap_base::{Caller, NoMemory};
use swap_board::{Board, Naming, Operated};
use swap_calls::CallState;
use swap_disk::DiskPort;
use swap_player::{Gate, Swap};
use swap_table::ports_promise;
use swap_trace::{Trace, traces_are_whole};
use swap_turn::Pass;
use swap_wire::{Event, Fabric};
use swap_world::{World, over_any_ports};

/// Why a trace wasn't played to its end.
#[derive(Clone, Copy, Debug, PartialEq, Eq)]
pub enum PlayFault {
    NoMemory,
}

// The operator's events of a trace, in order.
fn operators_of(alloc: Global, trace: &Trace<'_>, page: &mut [u8]) -> Result<Vec<Event>, NoMemory>
    requires trace { IsTrace trace.now }
    requires page { length page.old ≡ trace.now.sizes.page_bytes }
    ensures events { IfOk result (λ v. v.items ≡ events_of (operators_in trace.now).inputs) }
    ensures theirs { IfOk result
        (λ v. AreOperators trace.now.sizes (length trace.now.lenders) v.items) }
{
    traces_are_whole();
    let mut walk = trace.operator();
    let mut events = Vec::new(alloc);
    'events: while let Some(event) = walk.next(page) {
        if events.push(event).is_err() {
            return Err(NoMemory);
        }
    }
    Ok(events)
}

fn is_idle(state: CallState) -> bool
    ensures { result ≡ is_idle state }
{
    match state {
        CallState::Idle => true,
        CallState::Room { .. } | CallState::Reading { .. } => false,
    }
}

// Whether every caller is idle.
fn are_idle<D: DiskPort, F: Fabric>(world: &World<D, F>) -> bool
    ensures { result ≡ true → AreIdle world.now }
{
    let device = world.device();
    'callers: for caller in 0..device.geometry().callers() {
        if !is_idle(device.state(Caller(caller))) {
            return false;
        }
    }
    true
}

// The log has of each idle caller the calls that its entries answer.
fn log_tells<D: DiskPort, F: Fabric>(world: &World<D, F>)
    ensures { LogTells world.now }
{
    world.reached();
    ports_promise::<D, F>();
    over_any_ports::<D, F>();
}

// Whether all of the operator's events were made; else the next is made.
fn has_ended<D: DiskPort, F: Fabric, N: Naming<D, F>>(board: &mut Board<D, F, N>) -> bool
    ensures ended { result ≡ true
        → (board.old.made ≡ length N.named.operator) × (board.new ≡ board.old) }
    ensures history { board.new.world.core.device.history ≡ board.old.world.core.device.history }
{
    match board.operate() {
        Operated::Ended => true,
        Operated::Made | Operated::Nothing | Operated::NoMemory => false,
    }
}

// Ends a board whose threads have all come back. Where something is left that had to be made, which
// no code leads to, that counts as want of memory.
fn end_board<D: DiskPort + Drop, F: Fabric + Drop, N: Naming<D, F>, R: Wait>(
    rt: &R,
    mut board: Board<D, F, N>,
) -> Result<World<D, F>, NoMemory>
    ensures history { IfOk result (λ w. w.core.device.history ≡ board.world.core.device.history) }
    ensures ended { IfOk result (IsEnded D.moves F.moves N.named) }
    ensures tells { IfOk result LogTells }
{
    if !has_ended(&mut board) {
        return Err(NoMemory);
    }
    settle(rt, &mut board)?;
    if !are_idle(board.world()) {
        return Err(NoMemory);
    }
    log_tells(board.world());
    Ok(board.into_world())
}

// Runs all seats, and gives the board that they leave.
fn run_seats<
    D: DiskPort + Drop + Send,
    F: Fabric + Drop + Send,
    N: Naming<D, F> + Send + Sync,
    G: Gate,
    R: Threads + Wait + Sync,
>(
    rt: &R,
    alloc: Global,
    swap: Swap<D, F, N>,
    passes: Vec<Pass>,
    trace: &Trace<'_>,
    gate: &G,
) -> Result<Board<D, F, N>, NoMemory>
    requires sizes { trace.now.sizes ≡ N.named.sizes }
    requires lenders { length trace.now.lenders ≡ N.named.lenders }
    requires passes { AreSeats swap N.named.sizes N.named.lenders passes.items }
    ensures { IfOk result (λ b. HavePlayed trace.now b.world.core.device.history) }
{
    let Some(overs) = play_seats(rt, alloc, &swap, trace, passes, gate) else {
        return Err(NoMemory);
    };
    let passes = passes_of(alloc, overs)?;
    let Ok(board) = swap.into_board(passes) else {
        return Err(NoMemory);
    };
    Ok(board)
}

// Plays a trace in a world whose links were made, by the names of its board.
fn play_named<
    D: DiskPort + Drop + Send,
    F: Fabric + Drop + Send,
    N: Naming<D, F> + Send + Sync,
    G: Gate,
    R: Threads + Wait + Sync,
>(
    rt: &R,
    alloc: Global,
    world: World<D, F>,
    operator: Vec<Event>,
    trace: &Trace<'_>,
    number: u64,
    gate: &G,
) -> Result<World<D, F>, NoMemory>
    requires named { N.named
        ≡ record {
          opening = Some world;
          sizes = world.core.device.sizes;
          lenders = world.core.device.lenders;
          operator = operator.items;
          calls = calls_of trace.now.inputs;
          number = number;
        } }
    requires idle { busy_callers world.core.device ≡ 0 }
    requires empty { world.core.device.history ≡ [] }
    requires sizes { world.core.device.sizes ≡ trace.now.sizes }
    requires lenders { world.core.device.lenders ≡ length trace.now.lenders }
    requires events { operator.items ≡ events_of (operators_in trace.now).inputs }
    requires theirs { AreOperators trace.now.sizes (length trace.now.lenders) operator.items }
    ensures { IfOk result (IsCarriedOut D.moves F.moves trace.now number world) }
{
    let script = trace.script();
    let calls = script.calls();
    let callers = script.geometry().callers();
    script.geometry().limits();
    let seats = callers + script.lenders() + 2;
    let (swap, passes) = Swap::<D, F, N>::make(alloc, world, operator, calls, seats, number)?;
    let board = run_seats(rt, alloc, swap, passes, trace, gate)?;
    end_board(rt, board)
}

/// Plays a trace in a world that nothing happened in. Each lender is connected; then each caller
/// runs in a thread of its own, beside a pump at the disk, one at each lender's link and the
/// operator, as far as threads can be made; and at last the queue and the links are emptied, or a
/// disk write failed. The Rounds that pace the calls are drawn from `number`.
///
/// It waits: its promise holds if it returns.
pub fn play<D: DiskPort + Drop + Send, F: Fabric + Drop + Send, G: Gate, R: Threads + Wait + Sync>(
    rt: &R,
    alloc: Global,
    mut world: World<D, F>,
    trace: &Trace<'_>,
    number: u64,
    gate: &G,
) -> Result<World<D, F>, PlayFault>
    requires trace { IsTrace trace.now }
    requires new { IsNew trace.now world }
    ensures { IfOk result (IsPlayedOut D.moves F.moves trace.now number world) }
{
    let page_bytes = trace.script().geometry().page_bytes();
    let Ok(mut page) = vec![in alloc; 0u8; page_bytes as usize] else {
        return Err(PlayFault::NoMemory);
    };
    let Ok(operator) = operators_of(alloc, trace, page.as_mut_slice()) else {
        return Err(PlayFault::NoMemory);
    };
    if connect_all(&mut world, page.as_mut_slice()).is_err() {
        return Err(PlayFault::NoMemory);
    }
    match play_named::<D, F, Brand, G, R>(rt, alloc, world, operator, trace, number, gate) {
        Ok(world) => Ok(world),
        Err(NoMemory) => Err(PlayFault::NoMemory),
    }
}
