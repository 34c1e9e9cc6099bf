//! A device over a disk that is silent, one that swaps pages, and links that lie.

ghost use Rattle.std.specs.Prelude.{◌≡◌, length, IfOk};
ghost use Rattle.swap_wire.specs.Input.{IsInRange};
ghost use Rattle.swap_table.specs.Device.{of_device};
ghost use Rattle.swap_table.specs.Fits.{IsBlank};

use std::alloc::Global;
use std::process::Abort;
use std::test::Fail;
use swap_base::{EntryNo, Lease, Lender, NoMemory, Page, Slab, Via};
use swap_disk::{DiskPort, MemDisk};
use swap_hostile::{LyingFabric, SilentDisk, SwappingDisk};
use swap_link::Harbor;
use swap_run::lenders_of;
use swap_script::{Script, read_script};
use swap_wire::{Event, Fabric, Msg, Seen};
use swap_world::World;

/// Makes one event. Where it names an operation that the disk ends by itself, the disk is polled.
fn happen<D: DiskPort, F: Fabric>(
    rt: &impl Abort,
    world: &mut World<D, F>,
    event: &Event,
    page: &mut [u8],
) -> Seen
    requires range { IsInRange world.old.core.device.sizes world.old.core.device.lenders event.now }
    requires page { length page.old ≡ world.old.core.device.sizes.page_bytes }
    ensures { of_device world.new.core.device ≡ of_device world.old.core.device }
{
    assert!(rt; 0 < world.spare());
    assert!(rt; 0 < world.log_spare());
    let seen = world.step(event, page);
    if seen == Seen::Nothing && matches!(event, Event::Disk { .. }) {
        assert!(rt; 0 < world.log_spare());
        return world.poll_disk();
    }
    seen
}

/// A world over these ports, with room for the few events of a script here.
fn world_over<D: DiskPort + Drop, F: Fabric + Drop>(
    alloc: Global,
    script: &Script<'_>,
    disk: D,
    fabric: F,
) -> Result<World<D, F>, NoMemory>
    requires disk { IsBlank script.now.sizes (D.means disk) }
    requires fabric { F.fresh fabric
        (record { sizes = script.now.sizes; lenders = length script.now.lenders }) }
    ensures sizes { IfOk result (λ w. w.core.device.sizes ≡ script.now.sizes) }
    ensures lenders { IfOk result (λ w. w.core.device.lenders ≡ length script.now.lenders) }
{
    let mut world = World::make(alloc, script.geometry(), script.lenders(), disk, fabric)?;
    if world.reserve(100, 100).is_err() {
        return Err(NoMemory);
    }
    Ok(world)
}

/// What is seen of each event of a script over these ports, with the first byte of the page after
/// it.
fn run_over<D: DiskPort + Drop, F: Fabric + Drop>(
    rt: &impl Abort,
    alloc: Global,
    script: &Script<'_>,
    disk: D,
    fabric: F,
) -> Result<Vec<(Seen, u8)>, Fail>
    requires disk { IsBlank script.now.sizes (D.means disk) }
    requires fabric { F.fresh fabric
        (record { sizes = script.now.sizes; lenders = length script.now.lenders }) }
{
    let mut world = world_over(alloc, script, disk, fabric)?;
    let mut page = vec![in alloc; 0u8; script.geometry().page_bytes() as usize]?;
    let mut walk = script.walk();
    let mut told = Vec::new(alloc);
    for _ in 0..script.events() {
        let Some(event) = walk.next(&mut page) else {
            break;
        };
        let seen = happen(rt, &mut world, &event, &mut page);
        told.push((seen, page.first().copied().unwrap_or(0)))?;
    }
    Ok(told)
}

/// The last of what was seen is this.
fn ends(rt: &impl Abort, told: &[(Seen, u8)], want: &[Seen], name: &str) {
    assert!(rt; want.len() <= told.len(), "{name}");
    let from = told.len() - want.len();
    for i in 0..want.len() {
        assert_eq!(rt; told[from + i].0, want[i], "event {i} of {name}");
    }
}

/// The first byte of the page after an event.
fn byte_after(rt: &impl Abort, told: &[(Seen, u8)], event: usize) -> u8 {
    assert!(rt; event < told.len());
    told[event].1
}

/// A page comes in from zeros, goes out, and comes in from the queue, and from the disk.
const PAGED: &str = "geometry 8 4 2 4 2 4 20\nin 0 3\nout 0 3 aa\nin 0 3\nstart\ndisk write 3 ok\n\
    in 0 3\ndisk read 0 ok\nfinish 0\n";

const THIRD: Seen = Seen::Done {
    entry: EntryNo(3),
    sent: None,
};

const WRITTEN: Seen = Seen::Written { entry: EntryNo(1) };

const KEPT: Seen = Seen::WriteKept { entry: EntryNo(1) };

const CAME: Seen = Seen::ReadCame { page: Page(3) };

const FAILED: Seen = Seen::ReadFailed { page: Page(3) };

const FAULT: Seen = Seen::Fault { entry: EntryNo(3) };

const FROM_DISK: Seen = Seen::Wait { via: Via::Disk };

/// What is seen over a silent disk of which this operation fails.
fn run_silent(rt: &impl Abort, alloc: Global, failing: u32) -> Result<Vec<(Seen, u8)>, Fail> {
    let script = read_script(PAGED.as_bytes()).map_err(|_| "script")?;
    let geometry = script.geometry();
    let disk = SilentDisk::make(alloc, &geometry, vec![in alloc; failing]?)?;
    let harbor = Harbor::make(alloc, &geometry, &[])?;
    assert!(rt; script.lenders() == 0);
    run_over(rt, alloc, &script, disk, harbor)
}

#[test]
fn a_silent_disk_gives_what_was_stored(rt: HostRuntime) -> Result<(), Fail> {
    let told = run_silent(&rt, rt.alloc(), 2)?;
    ends(&rt, &told, &[WRITTEN, FROM_DISK, CAME, THIRD], "no failure");
    assert_eq!(rt; byte_after(&rt, &told, 7), 0xaa);
    Ok(())
}

#[test]
fn a_silent_disk_fails_a_write(rt: HostRuntime) -> Result<(), Fail> {
    let told = run_silent(&rt, rt.alloc(), 0)?;
    ends(
        &rt,
        &told,
        &[KEPT, THIRD, Seen::Nothing, Seen::Idle],
        "a failed write",
    );
    Ok(())
}

#[test]
fn a_silent_disk_fails_a_read(rt: HostRuntime) -> Result<(), Fail> {
    let told = run_silent(&rt, rt.alloc(), 1)?;
    ends(
        &rt,
        &told,
        &[WRITTEN, FROM_DISK, FAILED, FAULT],
        "a failed read",
    );
    Ok(())
}

/// What is seen over a disk that gives another page than was stored.
fn run_swapping(rt: &impl Abort, alloc: Global) -> Result<Vec<(Seen, u8)>, Fail> {
    let script = read_script(PAGED.as_bytes()).map_err(|_| "script")?;
    let geometry = script.geometry();
    let disk = SwappingDisk::make(alloc, &geometry)?;
    let harbor = Harbor::make(alloc, &geometry, &[])?;
    assert!(rt; script.lenders() == 0);
    run_over(rt, alloc, &script, disk, harbor)
}

#[test]
fn a_swapping_disk_is_seen_by_its_reads_alone(rt: HostRuntime) -> Result<(), Fail> {
    let told = run_swapping(&rt, rt.alloc())?;
    ends(&rt, &told, &[WRITTEN, FROM_DISK, CAME, THIRD], "swapped");
    for (event, byte) in [(0, 0), (2, 0xaa), (7, 0x55)] {
        assert_eq!(rt; byte_after(&rt, &told, event), byte, "event {event}");
    }
    Ok(())
}

/// A page goes to a lender and to the disk, and the lender is asked for it; then the disk.
const LENT: &str =
    "geometry 8 4 2 4 2 4 20\nlender 4 1 1\nconnect 0\nmap 0 0\ngive 0\ngive 0\ntake 0\n\
    out 0 3 aa\ngive 0\ntake 0\nstart\ndisk write 3 ok\nin 0 3\ngive 0\ntake 0\nfinish 0\n\
    disk read 0 ok\nfinish 0\n";

const LEASE: Lease = Lease(0);

const SLAB: Slab = Slab(0);

const REPLY: Msg = Msg::PageIs {
    lease: LEASE,
    place: 3,
};

/// The notices, which may stand in the reply's place beside it.
const NOTICES: [Msg; 2] = [Msg::AskRates { lease: LEASE }, Msg::Evict { lease: LEASE }];

/// Those that may not: what a device sends, what answers another request, and a page of another
/// place or lease.
const LIES: [Msg; 13] = [
    Msg::Hello {
        version: 1,
        page_bytes: 8,
        pages_per_slab: 4,
    },
    Msg::Query { slab: SLAB },
    Msg::Borrow { slab: SLAB },
    Msg::Write {
        lease: LEASE,
        place: 3,
    },
    Msg::Read {
        lease: LEASE,
        place: 3,
    },
    Msg::Rates {
        lease: LEASE,
        value: 0,
    },
    Msg::Done { lease: LEASE },
    Msg::Room {
        slab: SLAB,
        free: 1,
    },
    Msg::Lent {
        slab: SLAB,
        lease: LEASE,
    },
    Msg::Refused { slab: SLAB },
    Msg::Wrote {
        lease: LEASE,
        place: 3,
    },
    Msg::PageIs {
        lease: LEASE,
        place: 2,
    },
    Msg::PageIs {
        lease: Lease(1),
        place: 3,
    },
];

/// What is seen over links that say this in place of the third message, the reply.
fn run_lying(rt: &impl Abort, alloc: Global, says: Msg) -> Result<Vec<(Seen, u8)>, Fail> {
    let script = read_script(LENT.as_bytes()).map_err(|_| "script")?;
    let lenders = lenders_of(alloc, &script)?;
    let disk = MemDisk::make(alloc, &script.geometry())?;
    let harbor = Harbor::make(alloc, &script.geometry(), &lenders)?;
    let fabric = LyingFabric::make(harbor, says, 2);
    run_over(rt, alloc, &script, disk, fabric)
}

/// The page-in is answered by the disk, or by the reply.
const ANSWERED: Seen = Seen::Done {
    entry: EntryNo(1),
    sent: None,
};

const AGAIN: Seen = Seen::Again { via: Via::Disk };

const WAIT: Seen = Seen::Wait {
    via: Via::Lender(Lender(0)),
};

/// A lie is named, and the page comes from the disk.
fn judge_lie(rt: &impl Abort, alloc: Global, says: Msg) -> Result<(), Fail> {
    let told = run_lying(rt, alloc, says)?;
    ends(rt, &told, &[Seen::Lied, AGAIN, CAME, ANSWERED], "a lie");
    assert_eq!(rt; byte_after(rt, &told, 15), 0xaa);
    Ok(())
}

#[test]
fn a_lie_sends_the_read_to_the_disk(rt: HostRuntime) -> Result<(), Fail> {
    for says in LIES {
        judge_lie(&rt, rt.alloc(), says)?;
    }
    Ok(())
}

#[test]
fn a_page_of_the_right_place_is_taken(rt: HostRuntime) -> Result<(), Fail> {
    let told = run_lying(&rt, rt.alloc(), REPLY)?;
    let took = Seen::Took { msg: REPLY };
    ends(
        &rt,
        &told,
        &[took, ANSWERED, Seen::Nothing, Seen::Idle],
        "the reply",
    );
    assert_eq!(rt; byte_after(&rt, &told, 13), 255);
    Ok(())
}

/// A notice is taken, and the read goes on waiting.
fn judge_notice(rt: &impl Abort, alloc: Global, says: Msg) -> Result<(), Fail> {
    let told = run_lying(rt, alloc, says)?;
    let took = Seen::Took { msg: says };
    ends(rt, &told, &[took, WAIT, Seen::Nothing, WAIT], "a notice");
    Ok(())
}

#[test]
fn a_notice_is_taken(rt: HostRuntime) -> Result<(), Fail> {
    for says in NOTICES {
        judge_notice(&rt, rt.alloc(), says)?;
    }
    Ok(())
}
