ghost use Rattle.std.specs.Prelude.{◌≡◌, [], length};

use std::fs::File;
use std::process::Abort;
use std::sync::Wait;
use std::test::Fail;
use std::{process, thread};
use swap_base::{Caller, DiskWhich, Geometry, Page};
use swap_disk::{DiskDone, DiskPort};
use swap_file::{FileDisk, NotOpened};

/// Writes a page and waits for its end; nothing else is in flight.
fn write<R: Wait + Abort + Copy>(
    rt: &R,
    disk: &mut FileDisk<R>,
    sizes: &Geometry,
    page: Page,
    byte: u8,
) -> bool
    requires sizes { disk.old.port.sizes ≡ sizes.now }
    requires idle { disk.old.port.flights ≡ [] }
    ensures sizes { disk.new.port.sizes ≡ sizes.now }
    ensures idle { disk.new.port.flights ≡ [] }
{
    assert!(rt; page.0 < sizes.pages());
    assert!(rt; sizes.page_bytes() == 8);
    assert!(rt; 0 < sizes.queue());
    disk.start_write(page, &[byte; 8]);
    let (done, _) = taken(rt, disk, sizes);
    let which = DiskWhich::Write(page);
    assert!(rt; done.which == which && done.page == page);
    done.ok
}

/// Reads a page and waits for its end: its bytes, where that is ok.
fn read<R: Wait + Abort + Copy>(
    rt: &R,
    disk: &mut FileDisk<R>,
    sizes: &Geometry,
    page: Page,
) -> Option<[u8; 8]>
    requires sizes { disk.old.port.sizes ≡ sizes.now }
    requires idle { disk.old.port.flights ≡ [] }
    ensures sizes { disk.new.port.sizes ≡ sizes.now }
    ensures idle { disk.new.port.flights ≡ [] }
{
    let caller = Caller(1);
    assert!(rt; page.0 < sizes.pages());
    assert!(rt; sizes.page_bytes() == 8);
    assert!(rt; caller.0 < sizes.callers());
    disk.start_read(caller, page);
    let (done, bytes) = taken(rt, disk, sizes);
    let which = DiskWhich::Read(caller);
    assert!(rt; done.which == which && done.page == page);
    if done.ok { Some(bytes) } else { None }
}

/// Waits for the one operation in flight, with what its `take` left in the buffer.
fn taken<R: Wait + Copy>(rt: &R, disk: &mut FileDisk<R>, sizes: &Geometry) -> (DiskDone, [u8; 8])
    requires sizes { disk.old.port.sizes ≡ sizes.now }
    requires bytes { sizes.now.page_bytes ≡ 8 }
    requires one { length disk.old.port.flights ≡ 1 }
    ensures sizes { disk.new.port.sizes ≡ sizes.now }
    ensures idle { disk.new.port.flights ≡ [] }
{
    let mut buf = [0xee; 8];
    for _ in rt.forever() {
        if let Some(done) = disk.take(&mut buf) {
            return (done, buf);
        }
        thread::yield_now();
    }
    unreachable!()
}

#[test]
fn pages_are_read_back_and_a_file_that_lost_its_bytes_is_a_fault(
    rt: HostRuntime,
) -> Result<(), Fail> {
    let sizes = Geometry::checked(8, 4, 2, 2, 2, 4, 20).map_err(|_| "sizes")?;
    let path = format!(in rt.alloc(); "/tmp/remswap-{}.disk", process::id(rt.process()))?;
    let mut disk = FileDisk::open(rt, rt.alloc(), &path, &sizes).map_err(|_| "disk")?;
    assert!(rt; write(&rt, &mut disk, &sizes, Page(3), 0xaa));
    assert!(rt; write(&rt, &mut disk, &sizes, Page(7), 0xbb));
    assert_eq!(rt; read(&rt, &mut disk, &sizes, Page(3)), Some([0xaa; 8]));
    assert_eq!(rt; read(&rt, &mut disk, &sizes, Page(7)), Some([0xbb; 8]));
    assert_eq!(rt; read(&rt, &mut disk, &sizes, Page(4)), Some([0; 8]));
    drop(File::create(&rt, &path)?);
    assert_eq!(rt; read(&rt, &mut disk, &sizes, Page(3)), None);
    drop(disk);
    std::fs::remove_file(&rt, &path)?;
    let refused = FileDisk::open(rt, rt.alloc(), "/dev/full", &sizes);
    assert_eq!(rt; refused.err(), Some(NotOpened::Failed));
    Ok(())
}
