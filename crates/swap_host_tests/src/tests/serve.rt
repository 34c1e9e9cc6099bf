ghost use Rattle.std.specs.Prelude.{◌≡◌, ◌≤◌};

use super::shared::{FRAMES, Log, REPLIES, SharedSink};
use std::alloc::Global;
use std::sync::{Arc, Mutex, Wait};
use std::test::Fail;
use swap_base::{Lease, LenderSpec};
use swap_io::MemSource;
use swap_serve::{NodeFault, serve};
use swap_sock::{Door, HostFault, LinkEnd};
use swap_wire::Msg;

/// A door that one link comes in by, and how it ended.
#[derive(Drop)]
struct OneLink<R: Wait + Copy + Send + 'static> {
    rt: R,
    bytes: Option<Vec<u8>>,
    log: Arc<Mutex<Log>, Global>,
    end: Option<LinkEnd<SharedSink<R>>>,
    alloc: Global,
    asked: u64,
    gave: u64,
    back: u64,
}

impl<R: Wait + Copy + Send + 'static> Door for OneLink<R> {
    ghost use Rattle.swap_io.specs.Memory.{Given};
    ghost use Rattle.swap_sock.specs.Dealings.{untold, left_by, got_back};

    type Reader = MemSource;

    type Writer = SharedSink<R>;

    ghost faults = { λ d. 0 };

    ghost links = { λ d. untold d.asked d.gave d.back };

    fn next(&mut self) -> Result<(MemSource, SharedSink<R>), HostFault> {
        self.asked = self.asked.saturating_add(1);
        let Ok(log) = Arc::try_clone(&self.log) else {
            return Err(HostFault::NoMemory);
        };
        let Some(bytes) = self.bytes.take() else {
            return Err(HostFault::NoMemory);
        };
        self.gave = self.gave.saturating_add(1);
        Ok((
            MemSource::make(bytes, Vec::new(self.alloc)),
            SharedSink { rt: self.rt, log },
        ))
    }

    fn back(&mut self, reader: MemSource, end: LinkEnd<SharedSink<R>>)
        ensures later { 0 ≤ 0 }
        ensures links { untold {N = Unit {0}} {P = Given} self.new.asked self.new.gave
            self.new.back
            ≡ got_back (left_by reader end) (untold self.old.asked self.old.gave self.old.back) }
    {
        drop(reader);
        self.back = self.back.saturating_add(1);
        self.end = Some(end);
    }
}

/// How many bytes they are without the last.
const WITHOUT_DONE: usize = 60;

fn door<R>(rt: R, alloc: Global, bytes: &[u8]) -> Result<OneLink<R>, Fail>
where
    R: Wait + Copy + Send + 'static,
{
    Ok(OneLink {
        rt,
        bytes: Some(Vec::from_slice(alloc, bytes)?),
        log: Arc::new(alloc, Mutex::new(Log::none()))?,
        end: None,
        alloc,
        asked: 0,
        gave: 0,
        back: 0,
    })
}

const SPEC: LenderSpec = LenderSpec {
    slots: 4,
    headroom: 1,
    extra: 1,
};

#[test]
fn a_link_is_heard_to_its_end(rt: HostRuntime) -> Result<(), Fail> {
    let mut door = door(rt, rt.alloc(), &FRAMES)?;
    let ears = serve(rt, rt.alloc(), &mut door, SPEC, 8, 4, 1, 0).map_err(|_| "serve")?;
    assert!(rt; ears.len() == 1 && ears[0].count() == 5 && ears[0].ended());
    let done = Msg::Done { lease: Lease(0) };
    assert!(rt; matches!(&door.end, Some(LinkEnd::Ended { msg }) if *msg == done));
    assert!(rt; door.log.lock(&rt).is(&REPLIES));
    let again = serve(rt, rt.alloc(), &mut door, SPEC, 8, 4, 1, 0);
    assert!(rt; again.err() == Some(NodeFault::NoMemory));
    Ok(())
}

#[test]
fn without_the_last_message_it_is_read_to_its_end(rt: HostRuntime) -> Result<(), Fail> {
    let mut door = door(rt, rt.alloc(), &FRAMES[..WITHOUT_DONE])?;
    let ears = serve(rt, rt.alloc(), &mut door, SPEC, 8, 4, 1, 0).map_err(|_| "serve")?;
    assert!(rt; ears.len() == 1 && ears[0].count() == 4 && !ears[0].ended());
    assert!(rt; matches!(door.end, Some(LinkEnd::Read)));
    assert!(rt; door.log.lock(&rt).is(&REPLIES));
    Ok(())
}
