use std::test::Fail;
use swap_ends::{Bell, End};

#[test]
fn items_come_in_order_and_a_full_queue_refuses(rt: HostRuntime) -> Result<(), Fail> {
    let (mut giving, mut taking) = End::pair(rt.alloc(), 2)?;
    assert_eq!(rt; taking.pop(&rt), None);
    assert_eq!(rt; giving.push(&rt, 7_u32), Ok(()));
    assert_eq!(rt; giving.push(&rt, 8), Ok(()));
    assert_eq!(rt; giving.push(&rt, 9), Err(9));
    assert_eq!(rt; taking.pop(&rt), Some(7));
    assert_eq!(rt; giving.push(&rt, 10), Ok(()));
    assert_eq!(rt; taking.pop(&rt), Some(8));
    assert_eq!(rt; taking.pop(&rt), Some(10));
    Ok(())
}

#[test]
fn a_ring_before_the_wait_is_kept(rt: HostRuntime) -> Result<(), Fail> {
    let (mine, theirs) = Bell::pair(rt.alloc())?;
    theirs.ring();
    mine.wait(&rt);
    assert!(rt; !mine.has_stopped());
    theirs.stop();
    mine.wait(&rt);
    assert!(rt; mine.has_stopped());
    Ok(())
}
