//! What a drill tells at its end.
ghost use Rattle.std.specs.Prelude.{◌≡◌};
ghost use Rattle.swap_world.specs.Runs.{busy_callers};
ghost use Rattle.swap_drill.specs.Drill.{drill_sizes};
ghost use Rattle.swap_drill.specs.Steps.{world_in};
ghost use Rattle.swap_drill.specs.Summary.{summary_in};

use crate::steps::{CALLERS, waits};
use crate::tally::{Tally, count_entries};
use swap_base::Caller;
use swap_disk::MemDisk;
use swap_link::Harbor;
use swap_world::World;

/// A drill's entries by kind, its page-ins by where their page came from, how many calls were
/// answered Busy, how many callers wait at the end, how many Rounds were made, and how many slabs
/// are mapped.
#[derive(Clone, Copy, Debug, PartialEq, Eq)]
pub struct DrillSummary {
    pub entries: u32,
    pub outs: u32,
    pub ins: u32,
    pub faults: u32,
    pub zero: u32,
    pub queue: u32,
    pub disk: u32,
    pub lender: u32,
    pub busy: u32,
    pub waiting: u32,
    pub rounds: u32,
    pub mapped: u32,
}

/// How many callers wait.
fn waiting(world: &World<MemDisk, Harbor>) -> u32
    requires { world.now.core.device.sizes ≡ drill_sizes }
    ensures { result ≡ busy_callers world.now.core.device }
{
    world.device().agrees();
    let mut waiting = 0;
    'callers: for number in 0..CALLERS {
        if waits(world, Caller(number)) {
            waiting += 1;
        }
    }
    waiting
}

/// What is told of a world, of so many busy calls and so many Rounds.
pub(crate) fn summary(world: &World<MemDisk, Harbor>, busy: u32, rounds: u32) -> DrillSummary
    requires { world.now.core.device.sizes ≡ drill_sizes }
    ensures { result ≡ summary_in (world_in world.now) busy rounds }
{
    let Tally {
        outs,
        ins,
        faults,
        zero,
        queue,
        disk,
        lender,
    } = count_entries(world.device().history());
    DrillSummary {
        entries: world.device().history().len(),
        outs,
        ins,
        faults,
        zero,
        queue,
        disk,
        lender,
        busy,
        waiting: waiting(world),
        rounds,
        mapped: world.device().mapped(),
    }
}
