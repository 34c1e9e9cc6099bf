// How a trace ends, when its threads have: what is left in the queue and on the links goes where it
// has to.
ghost use Rattle.std.specs.Prelude.{◌≡◌, ◌<◌, Ok, OnOk, false, true};
ghost use Rattle.swap_board.specs.Boards.{BoardView};
ghost use Rattle.swap_board.specs.Works.{IsPoint, PumpsAs};
ghost use Rattle.swap_board.specs.declared.works.Moved.TheVariants as moved;
ghost use Rattle.swap_world.specs.Failures.{is_write_failed};
ghost use Rattle.swap_play.specs.Settles.{KeepsHistory, LinkIsQuiet, LinksAreQuiet, Settles, WriteFailed};

use std::sync::Wait;
use std::thread;
use swap_base::{Lender, NoMemory};
use swap_board::{Board, Moved, Naming, Point};
use swap_disk::DiskPort;
use swap_wire::{Fabric, Seen};
use swap_world::World;

fn is_write_failed(seen: Seen) -> bool
    ensures { result ≡ is_write_failed seen }
{
    match seen {
        Seen::WriteKept { .. } | Seen::WriteDropped { .. } => true,
        _ => false,
    }
}

// Whether a disk write was seen to fail, from a line of the log on.
fn has_failed_write<D: DiskPort, F: Fabric>(world: &World<D, F>, from: usize) -> bool
    ensures { result ≡ true → WriteFailed world.now.log }
{
    'lines: for i in from..world.log_len() {
        let (_, seen) = world.logged(i);
        if is_write_failed(seen) {
            return true;
        }
    }
    false
}

// Works at a point; whether anything had an effect.
fn work<D: DiskPort, F: Fabric, N: Naming<D, F>>(
    board: &mut Board<D, F, N>,
    point: Point,
) -> Result<bool, NoMemory>
    requires { IsPoint N.named.lenders point }
    ensures keeps { KeepsHistory board.old board.new }
    ensures nothing { result ≡ Ok false
        → PumpsAs D.moves F.moves D.means point Moved.Nothing board.old.world board.new.world }
{
    match board.pump(point) {
        Moved::Did => Ok(true),
        Moved::Nothing => Ok(false),
        Moved::NoMemory => Err(NoMemory),
    }
}

// A Give and a Take of a lender; whether neither had an effect.
fn is_quiet_at<D: DiskPort, F: Fabric, N: Naming<D, F>>(
    board: &mut Board<D, F, N>,
    lender: Lender,
) -> Result<bool, NoMemory>
    requires { lender.0 < N.named.lenders }
    ensures keeps { KeepsHistory board.old board.new }
    ensures quiet { result ≡ Ok true
        → LinkIsQuiet D.moves F.moves lender.0 board.old.world board.new.world }
{
    let gave = work(board, Point::Give(lender))?;
    let took = work(board, Point::Take(lender))?;
    Ok(!gave && !took)
}

// A Give and a Take of each lender; whether none had an effect.
fn are_quiet<D: DiskPort, F: Fabric, N: Naming<D, F>>(
    board: &mut Board<D, F, N>,
) -> Result<bool, NoMemory>
    ensures keeps { KeepsHistory board.old board.new }
    ensures quiet { result ≡ Ok true
        → LinksAreQuiet D.moves F.moves N.named.lenders board.new.world }
{
    board.is_named();
    let lenders = board.world().lenders();
    let mut quiet = true;
    'links: for lender in 0..lenders {
        let here = is_quiet_at(board, Lender(lender))?;
        quiet = quiet && here;
    }
    Ok(quiet)
}

/// Works at the disk and at each link until the queue is empty and the links are quiet, or a disk
/// write failed.
pub(crate) fn settle<D: DiskPort, F: Fabric, N: Naming<D, F>, R: Wait>(
    rt: &R,
    board: &mut Board<D, F, N>,
) -> Result<(), NoMemory>
    ensures keeps { KeepsHistory board.old board.new }
    ensures settles { OnOk result (Settles D.moves F.moves N.named.lenders board.new.world) }
{
    let mut from = 0;
    'turns: for _ in rt.forever() {
        if has_failed_write(board.world(), from) {
            return Ok(());
        }
        from = board.world().log_len();
        let _ = work(board, Point::Disk)?;
        if are_quiet(board)? && board.world().device().copies() == 0 {
            return Ok(());
        }
        thread::yield_now();
    }
    unreachable!()
}
