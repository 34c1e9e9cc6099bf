ghost use Rattle.std.specs.Prelude.{◌≡◌};

use std::process::Abort;
use std::test::Fail;
use swap_base::{EntryNo, Geometry, Page};
use swap_queue::{Behind, Failed};

fn put(rt: &impl Abort, queue: &mut Behind, sizes: &Geometry, page: Page, entry: u32, byte: u8)
    requires { queue.old.sizes ≡ sizes.now }
    ensures { queue.new.sizes ≡ sizes.now }
{
    assert!(rt; page.0 < sizes.pages());
    assert!(rt; sizes.page_bytes() == 8);
    assert!(rt; queue.has_room(page), "room for entry {entry}");
    queue.put(page, EntryNo(entry), &[byte; 8]);
}

fn newest(rt: &impl Abort, queue: &Behind, sizes: &Geometry, page: Page) -> Option<(EntryNo, u8)>
    requires { queue.now.sizes ≡ sizes.now }
{
    assert!(rt; page.0 < sizes.pages());
    assert!(rt; sizes.page_bytes() == 8);
    let mut buf = [0; 8];
    let entry = queue.newest(page, &mut buf)?;
    Some((entry, buf[7]))
}

// Starts the front of the line, and lets its write come to its end or fail.
fn write(
    rt: &impl Abort,
    queue: &mut Behind,
    sizes: &Geometry,
    ok: bool,
) -> Option<(Page, EntryNo, u8, Option<Failed>)>
    requires { queue.old.sizes ≡ sizes.now }
    ensures { queue.new.sizes ≡ sizes.now }
{
    assert!(rt; sizes.page_bytes() == 8);
    let mut buf = [0; 8];
    let (page, entry) = queue.start(&mut buf)?;
    if ok {
        assert!(rt; queue.done(page) == entry);
        Some((page, entry, buf[0], None))
    } else {
        Some((page, entry, buf[0], Some(queue.failed(page))))
    }
}

#[test]
fn copies_are_written_in_turn_and_kept_where_the_write_fails(rt: HostRuntime) -> Result<(), Fail> {
    let sizes = Geometry::checked(8, 4, 2, 2, 2, 4, 20).map_err(|_| "sizes")?;
    let mut queue = Behind::make(rt.alloc(), &sizes).map_err(|_| "memory")?;
    assert!(rt; newest(&rt, &queue, &sizes, Page(3)).is_none());
    assert!(rt; write(&rt, &mut queue, &sizes, true).is_none());
    put(&rt, &mut queue, &sizes, Page(3), 0, 0xaa);
    put(&rt, &mut queue, &sizes, Page(5), 1, 0xbb);
    put(&rt, &mut queue, &sizes, Page(3), 2, 0xcc);
    assert_eq!(rt; queue.copies(), 2);
    assert!(rt; newest(&rt, &queue, &sizes, Page(3)) == Some((EntryNo(2), 0xcc)));
    let kept = write(&rt, &mut queue, &sizes, false);
    assert!(rt; kept == Some((Page(3), EntryNo(2), 0xcc, Some(Failed::Kept(EntryNo(2))))));
    assert!(rt; write(&rt, &mut queue, &sizes, true) == Some((Page(5), EntryNo(1), 0xbb, None)));
    assert!(rt; write(&rt, &mut queue, &sizes, true) == Some((Page(3), EntryNo(2), 0xcc, None)));
    assert_eq!(rt; queue.copies(), 0);
    Ok(())
}
