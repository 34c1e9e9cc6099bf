//! What no clause says: that the calls end, what they answer with ample memory, and what a gate
//! hears.
ghost use Rattle.std.specs.Prelude.{◌≡◌, [], IfOk};
ghost use Rattle.swap_base.specs.Sizes.{pages_of};
ghost use Rattle.swap_table.specs.Device.{device_at_start};
ghost use Rattle.swap_turn.specs.PassView.{IsFreeOf};

use std::alloc::Global;
use std::marker::Brand;
use std::process::Abort;
use std::sync::Wait;
use std::test::Fail;
use swap_base::{Caller, EntryNo, Geometry, NoMemory, Page};
use swap_board::{Naming, Operated, Point};
use swap_disk::MemDisk;
use swap_link::Harbor;
use swap_player::{Gate, Pumped, Swap, SwapFault};
use swap_turn::Pass;
use swap_world::World;

/// A gate that every pump passes.
struct Open;

impl Gate for Open {
    type No = ();

    fn may_pass(&self, _point: Point) -> Result<(), ()> {
        Ok(())
    }

    fn answered(&self, _caller: Caller, _number: u32) {}
}

fn close_both<N: Naming<MemDisk, Harbor>, R: Abort>(
    rt: &R,
    swap: Swap<MemDisk, Harbor, N>,
    mut passes: Vec<Pass>,
    first: Pass,
    second: Pass,
) -> Result<World<MemDisk, Harbor>, Fail>
    requires none { passes.items ≡ [] }
    requires free { IsFreeOf swap first × IsFreeOf swap second }
{
    passes.push(first)?;
    passes.push(second)?;
    let Ok(world) = swap.close(passes) else {
        panic!(rt; "both passes left it open")
    };
    Ok(world)
}

/// One call over a disk alone: it is answered at once, its copy goes to the disk, and then all
/// calls are spent.
fn call_once<N: Naming<MemDisk, Harbor>, R: Wait + Abort>(
    rt: &R,
    alloc: Global,
    world: World<MemDisk, Harbor>,
) -> Result<(), Fail>
    requires named { N.named
        ≡ record {
          opening = Some world;
          sizes = world.core.device.sizes;
          lenders = world.core.device.lenders;
          operator = [];
          calls = 1;
          number = 1;
        } }
    requires fresh { world.core.device ≡ device_at_start world.core.device.sizes 0 }
    requires sizes { (world.core.device.sizes.callers ≡ 2)
        × (world.core.device.sizes.page_bytes ≡ 8) × (pages_of world.core.device.sizes ≡ 8) }
{
    let made = Swap::<MemDisk, Harbor, N>::make(alloc, world, Vec::new(alloc), 1, 2, 1);
    let (swap, mut passes) = made.map_err(|_| "memory")?;
    let second = passes.pop().ok_or("the second pass")?;
    let mut first = passes.pop().ok_or("the first pass")?;
    let page = [0xaau8; 8];
    let out = swap.page_out(rt, alloc, &mut first, Page(3), &page, &Open);
    assert_eq!(rt; out, Ok(EntryNo(0)));
    assert!(rt; matches!(swap.pump(rt, &mut first, Point::Disk, &Open), Pumped::Did));
    assert!(rt;
        matches!(
            swap.pump(rt, &mut first, Point::Disk, &Open),
            Pumped::Nothing
        )
    );
    let more = swap.page_out(rt, alloc, &mut first, Page(3), &page, &Open);
    assert_eq!(rt; more, Err(SwapFault::Spent));
    assert_eq!(rt; swap.operate(rt, &mut first), Operated::Ended);
    let world = close_both(rt, swap, passes, first, second)?;
    assert_eq!(rt; world.device().copies(), 0);
    Ok(())
}

/// A world of two callers and eight pages over a disk alone.
fn world_alone(alloc: Global, geometry: Geometry) -> Result<World<MemDisk, Harbor>, NoMemory>
    ensures { IfOk result (λ w. w.core.device ≡ device_at_start geometry 0) }
{
    let disk = MemDisk::make(alloc, &geometry)?;
    let harbor = Harbor::make(alloc, &geometry, &[])?;
    World::make(alloc, geometry, 0, disk, harbor)
}

fn run_alone<R: Wait + Abort>(rt: &R, alloc: Global) -> Result<(), Fail> {
    let Ok(geometry) = Geometry::checked(8, 4, 2, 4, 2, 4, 20) else {
        panic!(rt; "geometry")
    };
    let Ok(world) = world_alone(alloc, geometry) else {
        panic!(rt; "memory")
    };
    call_once::<Brand, _>(rt, alloc, world)
}

#[test]
fn a_swap_without_lenders(rt: HostRuntime) -> Result<(), Fail> {
    run_alone(&rt, rt.alloc())
}
