ghost use Rattle.std.specs.Prelude.{◌≡◌, IfOk};
ghost use Rattle.swap_calls.specs.Calls.{all_idle};

use std::test::Fail;
use swap_base::{Caller, EntryNo, Geometry, Lender, Page, Via};
use swap_calls::{Arrived, CallState, Calls};

fn two_callers(alloc: std::alloc::Global) -> Result<Calls, Fail>
    ensures { IfOk result (λ t. t ≡ record { calls = all_idle 2; page_bytes = 8 }) }
{
    let geometry = Geometry::checked(8, 4, 2, 4, 2, 4, 20)?;
    Ok(Calls::make(alloc, &geometry)?)
}

#[test]
fn a_page_out_that_waits_keeps_its_page(rt: HostRuntime) -> Result<(), Fail> {
    let mut calls = two_callers(rt.alloc())?;
    calls.begin_room(Caller(1), Page(2), 5, &[0xbb; 8]);
    let waits = CallState::Room {
        page: Page(2),
        since: 5,
    };
    assert_eq!(rt; calls.state(Caller(1)), waits);
    assert_eq!(rt; calls.bytes(Caller(1)), [0xbb; 8].as_slice());
    assert_eq!(rt; calls.state(Caller(0)), CallState::Idle);
    assert_eq!(rt; calls.bytes(Caller(0)).len(), 0);
    calls.end(Caller(1));
    assert_eq!(rt; calls.state(Caller(1)), CallState::Idle);
    assert_eq!(rt; calls.bytes(Caller(1)).len(), 0);
    Ok(())
}

fn reading(via: Via, arrived: Arrived, newer: bool) -> CallState {
    CallState::Reading {
        page: Page(3),
        newest: EntryNo(0),
        via,
        arrived,
        newer,
        since: 7,
    }
}

#[test]
fn a_read_is_lost_and_starts_again_at_the_disk(rt: HostRuntime) -> Result<(), Fail> {
    let mut calls = two_callers(rt.alloc())?;
    let via = Via::Lender(Lender(1));
    calls.begin_read(Caller(0), Page(3), EntryNo(0), via, 7);
    calls.lost(Lender(0));
    calls.paged_out(Page(2));
    assert_eq!(rt;
        calls.state(Caller(0)),
        reading(via, Arrived::Waiting, false)
    );
    calls.paged_out(Page(3));
    calls.lost(Lender(1));
    assert_eq!(rt; calls.state(Caller(0)), reading(via, Arrived::Lost, true));
    calls.begin_read(Caller(0), Page(3), EntryNo(0), Via::Disk, 7);
    calls.came(Caller(0), &[0xaa; 8]);
    assert_eq!(rt;
        calls.state(Caller(0)),
        reading(Via::Disk, Arrived::Came, false)
    );
    assert_eq!(rt; calls.bytes(Caller(0)), [0xaa; 8].as_slice());
    calls.begin_read(Caller(0), Page(3), EntryNo(0), Via::Disk, 7);
    calls.failed(Caller(0));
    assert_eq!(rt;
        calls.state(Caller(0)),
        reading(Via::Disk, Arrived::Failed, false)
    );
    assert_eq!(rt; calls.bytes(Caller(0)).len(), 0);
    Ok(())
}
