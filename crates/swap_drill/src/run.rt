//! The drill of a number.
ghost use Rattle.std.specs.Prelude.{◌≡◌, ◌+◌, ◌*◌, ◌≤◌, length, IfOk};
ghost use Rattle.swap_drill.specs.Drill.{drill_lender, drill_sizes, drill_start, drill_world, rounds_at};
ghost use Rattle.swap_drill.specs.Steps.{world_in, IsReady, Spends};
ghost use Rattle.swap_drill.specs.Summary.{busy_of, is_busy, rounds_of, summary_of};

use crate::MOST_CALLS;
use crate::steps::{PAGE_BYTES, connect_all, is_round_step, make_step};
use crate::summary::{DrillSummary, summary};
use std::alloc::Global;
use swap_base::{Geometry, LenderSpec, NoMemory};
use swap_disk::MemDisk;
use swap_link::Harbor;
use swap_trace::{DrillDraws, draws_are_in_range};
use swap_wire::Seen;
use swap_world::World;

// The drill's sizes.
fn geometry() -> Geometry
    ensures { result ≡ drill_sizes }
{
    Geometry::checked(64, 16, 64, 32, 4, 8, 20).unwrap()
}

// What each lender lends.
fn lender() -> LenderSpec
    ensures { result ≡ drill_lender }
{
    LenderSpec::checked(8, 2, 1).unwrap()
}

/// The world before its first event, with room for so many calls. All memory of the drill is taken
/// here.
fn make_world(alloc: Global, calls: u32) -> Result<World<MemDisk, Harbor>, NoMemory>
    requires { calls ≤ MOST_CALLS }
    ensures world { IfOk result (λ w. world_in w ≡ drill_start) }
    ensures ready { IfOk result (λ w. IsReady calls (45 * calls + 3) w) }
{
    let geometry = geometry();
    let lenders = [lender(); 3];
    let disk = MemDisk::make(alloc, &geometry)?;
    let harbor = Harbor::make(alloc, &geometry, &lenders)?;
    let mut world = World::make(alloc, geometry, 3, disk, harbor)?;
    let events = 45 * calls as usize + 3;
    if world.reserve(calls, events).is_err() {
        return Err(NoMemory);
    }
    Ok(world)
}

// Whether a call was answered Busy.
fn is_busy(seen: Seen) -> bool
    ensures { result ≡ is_busy seen }
{
    matches!(seen, Seen::Busy)
}

/// How many calls were answered Busy, and how many Rounds were made.
#[derive(Clone, Copy)]
struct Counts {
    busy: u32,
    rounds: u32,
}

/// Makes all events of a drill.
fn make_events(
    world: &mut World<MemDisk, Harbor>,
    number: u64,
    calls: u32,
    page: &mut [u8],
) -> Counts
    requires start { world_in world.old ≡ drill_start }
    requires ready { IsReady calls (45 * calls + 3) world.old }
    requires page { length page.old ≡ PAGE_BYTES }
    ensures world { world_in world.new ≡ drill_world number calls }
    ensures sizes { world.new.core.device.sizes ≡ drill_sizes }
    ensures busy { result.busy ≡ busy_of number calls }
    ensures rounds { result.rounds ≡ rounds_of number calls }
{
    draws_are_in_range();
    connect_all(world, page);
    let mut draws = DrillDraws::make(number);
    let mut busy = 0;
    let mut rounds = 0;
    'steps: for i in 0..calls {
        let seen = make_step(world, i, draws.next(), page);
        busy += u32::from(is_busy(seen));
        rounds += u32::from(is_round_step(i));
    }
    Counts { busy, rounds }
}

/// Runs the drill of a number, with so many drawn calls against three lenders in memory. The same
/// number gives the same summary. All memory is taken before its first event.
pub fn drill(alloc: Global, number: u64, calls: u32) -> Result<DrillSummary, NoMemory>
    requires { calls ≤ MOST_CALLS }
    ensures { IfOk result (λ summary. summary ≡ summary_of number calls) }
{
    let mut world = make_world(alloc, calls)?;
    let mut page = [0; PAGE_BYTES];
    let Counts { busy, rounds } = make_events(&mut world, number, calls, &mut page);
    Ok(summary(&world, busy, rounds))
}
