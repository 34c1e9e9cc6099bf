ghost use Rattle.std.specs.Prelude.{◌≡◌};

use std::process::Abort;
use std::test::Fail;
use swap_base::{Caller, DiskWhich, Geometry, Page};
use swap_disk::{DiskDone, DiskPort, MemDisk};

fn start_write(rt: &impl Abort, disk: &mut MemDisk, sizes: &Geometry, page: Page, byte: u8)
    requires { disk.old.sizes ≡ sizes.now }
    ensures { disk.new.sizes ≡ sizes.now }
{
    assert!(rt; disk.oldest().is_none());
    assert!(rt; page.0 < sizes.pages());
    assert!(rt; sizes.page_bytes() == 8);
    assert!(rt; 0 < sizes.queue());
    disk.start_write(page, &[byte; 8]);
}

fn start_read(rt: &impl Abort, disk: &mut MemDisk, sizes: &Geometry, caller: Caller, page: Page)
    requires { disk.old.sizes ≡ sizes.now }
    ensures { disk.new.sizes ≡ sizes.now }
{
    assert!(rt; disk.oldest().is_none());
    assert!(rt; page.0 < sizes.pages());
    assert!(rt; caller.0 < sizes.callers());
    disk.start_read(caller, page);
}

// Lets an operation finish and takes it, with the last byte of the buffer.
fn end(
    rt: &impl Abort,
    disk: &mut MemDisk,
    sizes: &Geometry,
    which: DiskWhich,
    ok: bool,
) -> Option<(DiskDone, u8)>
    requires { disk.old.sizes ≡ sizes.now }
    ensures { disk.new.sizes ≡ sizes.now }
{
    assert!(rt; disk.oldest() == Some(which));
    assert!(rt; disk.finish(which, ok));
    assert!(rt; !disk.finish(which, ok), "one waits to be taken");
    assert!(rt; sizes.page_bytes() == 8);
    let mut buf = [7; 8];
    let done = disk.take(&mut buf)?;
    Some((done, buf[7]))
}

#[test]
fn writes_and_reads_finish_or_fail(rt: HostRuntime) -> Result<(), Fail> {
    let sizes = Geometry::checked(8, 4, 2, 2, 2, 4, 20).map_err(|_| "sizes")?;
    let mut disk = MemDisk::make(rt.alloc(), &sizes).map_err(|_| "memory")?;
    let page = Page(3);
    let write = DiskWhich::Write(page);
    let read = DiskWhich::Read(Caller(1));
    assert!(rt; disk.oldest_write().is_none() && disk.writes_in_flight() == 0);
    for (byte, ok, left) in [(0xaa, true, 0xaa), (0xbb, false, 0xff)] {
        start_write(&rt, &mut disk, &sizes, page, byte);
        assert!(rt; disk.oldest_write() == Some(page) && disk.writes_in_flight() == 1);
        let written = DiskDone {
            which: write,
            page,
            ok,
        };
        assert!(rt; end(&rt, &mut disk, &sizes, write, ok) == Some((written, 7)));
        start_read(&rt, &mut disk, &sizes, Caller(1), page);
        let came = DiskDone {
            which: read,
            page,
            ok: true,
        };
        assert!(rt; end(&rt, &mut disk, &sizes, read, true) == Some((came, left)));
        start_read(&rt, &mut disk, &sizes, Caller(1), Page(4));
        let failed = DiskDone {
            which: read,
            page: Page(4),
            ok: false,
        };
        assert!(rt; end(&rt, &mut disk, &sizes, read, false) == Some((failed, 7)));
    }
    assert!(rt; disk.oldest().is_none());
    Ok(())
}
