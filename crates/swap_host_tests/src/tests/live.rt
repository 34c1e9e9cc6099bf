ghost use Rattle.std.specs.Prelude.{◌≡◌, ◌≤◌};

use super::shared::{FRAMES, Log, REPLIES, SharedSink};
use std::alloc::Global;
use std::sync::{Arc, Mutex, Wait};
use std::test::Fail;
use swap_base::{Geometry, Lease, LenderSpec};
use swap_disk::MemDisk;
use swap_io::{MemSink, MemSource};
use swap_link::Harbor;
use swap_live::{LendEnd, Offer, lend};
use swap_sock::{Address, Counts, Door, Host, HostFault, LinkEnd};
use swap_wire::Msg;

mod loopback;
mod paging;
mod words;

/// A door that one link comes in by, and how it ended.
#[derive(Drop)]
struct OneLink<R: Wait + Copy + Send + 'static> {
    alloc: Global,
    link: Option<(Vec<u8>, SharedSink<R>)>,
    ended: bool,
    counts: Counts,
}

impl<R: Wait + Copy + Send + 'static> Door for OneLink<R> {
    ghost use Rattle.swap_io.specs.Memory.{Given};
    ghost use Rattle.swap_sock.specs.Dealings.{untold, left_by, got_back};

    type Reader = MemSource;

    type Writer = SharedSink<R>;

    ghost faults = { λ d. 0 };

    ghost links = { λ d. untold d.counts.asked d.counts.gave d.counts.back };

    fn next(&mut self) -> Result<(MemSource, SharedSink<R>), HostFault> {
        self.counts.ask();
        let Some((bytes, sink)) = self.link.take() else {
            return Err(HostFault::NoMemory);
        };
        self.counts.give();
        Ok((MemSource::make(bytes, Vec::new(self.alloc)), sink))
    }

    fn back(&mut self, reader: MemSource, end: LinkEnd<SharedSink<R>>)
        ensures later { 0 ≤ 0 }
        ensures links { untold {N = Unit {0}} {P = Given} self.new.counts.asked
            self.new.counts.gave self.new.counts.back
            ≡ got_back (left_by reader end)
            (untold self.old.counts.asked self.old.counts.gave self.old.counts.back) }
    {
        drop(reader);
        self.counts.take_back();
        let done = Msg::Done { lease: Lease(0) };
        self.ended = matches!(end, LinkEnd::Ended { msg } if msg == done);
    }
}

/// A host that has one door, and nothing else to give.
#[derive(Drop)]
struct OneDoor<R: Wait + Copy + Send + 'static> {
    door: Option<OneLink<R>>,
    back: Option<OneLink<R>>,
    disks: Counts,
    nets: Counts,
    doors: Counts,
    faults: u64,
}

impl<R: Wait + Copy + Send + 'static> Host for OneDoor<R> {
    ghost use Rattle.swap_sock.specs.Dealings.{untold};

    type Disk = MemDisk;

    type Net = Harbor;

    type Entrance = OneLink<R>;

    ghost faults = { λ h. h.faults };

    ghost disks = { λ h. untold h.disks.asked h.disks.gave h.disks.back };

    ghost nets = { λ h. untold h.nets.asked h.nets.gave h.nets.back };

    ghost doors = { λ h. untold h.doors.asked h.doors.gave h.doors.back };

    fn disk(&mut self, _path: &str, _geometry: &Geometry) -> Result<MemDisk, HostFault> {
        self.disks.ask();
        Err(HostFault::NoMemory)
    }

    fn fabric(
        &mut self,
        _addresses: &[Address],
        _geometry: &Geometry,
    ) -> Result<Harbor, HostFault> {
        self.nets.ask();
        Err(HostFault::NoMemory)
    }

    fn door(&mut self, _address: &Address) -> Result<OneLink<R>, HostFault> {
        self.doors.ask();
        let Some(door) = self.door.take() else {
            self.faults = self.faults.saturating_add(1);
            return Err(HostFault::Failed);
        };
        self.doors.give();
        Ok(door)
    }

    fn disk_back(&mut self, _disk: MemDisk) {
        self.disks.take_back();
    }

    fn net_back(&mut self, _net: Harbor) {
        self.nets.take_back();
    }

    fn door_back(&mut self, door: OneLink<R>) {
        self.back = Some(door);
        self.doors.take_back();
    }
}

/// What is lent.
const OFFER: Offer = Offer {
    spec: LenderSpec {
        slots: 4,
        headroom: 1,
        extra: 1,
    },
    page_bytes: 8,
    pages_per_slab: 4,
    links: 1,
    used: 0,
};

/// A host whose door's link has the frames, and shares what it is answered.
fn host<R>(rt: R, alloc: Global, log: Arc<Mutex<Log>, Global>) -> Result<OneDoor<R>, Fail>
where
    R: Wait + Copy + Send + 'static,
{
    let bytes = Vec::from_slice(alloc, &FRAMES)?;
    Ok(OneDoor {
        door: Some(OneLink {
            alloc,
            link: Some((bytes, SharedSink { rt, log })),
            ended: false,
            counts: Counts::none(),
        }),
        back: None,
        disks: Counts::none(),
        nets: Counts::none(),
        doors: Counts::none(),
        faults: 0,
    })
}

#[test]
fn one_link_is_served_and_told(rt: HostRuntime) -> Result<(), Fail> {
    let address = Address::read("127.0.0.1:4000").ok_or("address")?;
    let log = Arc::new(rt.alloc(), Mutex::new(Log::none()))?;
    let mut host = host(rt, rt.alloc(), Arc::try_clone(&log)?)?;
    let mut out = MemSink::make(rt.alloc(), 64, Vec::new(rt.alloc())).map_err(|_| "sink")?;
    let end = lend(rt, rt.alloc(), &mut host, &address, &OFFER, &mut out);
    assert_eq!(rt; end, LendEnd::Served);
    assert_eq!(rt; out.bytes(), b"served 1 links\n".as_slice());
    assert!(rt; log.lock(&rt).is(&REPLIES));
    assert!(rt; matches!(&host.back, Some(door) if door.ended));
    let again = lend(rt, rt.alloc(), &mut host, &address, &OFFER, &mut out);
    assert_eq!(rt; again, LendEnd::HostFailed);
    assert_eq!(rt; out.bytes(), b"served 1 links\n".as_slice());
    Ok(())
}
