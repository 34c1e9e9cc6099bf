use crate::DiskDone;
use swap_base::{Caller, DiskWhich, Page};

/// Where pages go behind the queue.
///
/// It means its geometry, which no call changes, its operations in flight in the order of their
/// start, a count of faults, and, where it tells them, its blocks with the bytes of each write in
/// flight.
pub trait DiskPort {
    ghost use Rattle.std.specs.Prelude.{◌≡◌, ℕ, ◌<◌, length};
    ghost use Rattle.swap_base.specs.Sizes.{pages_of};
    ghost use Rattle.swap_disk.specs.Port.{Port, DiskCall, DiskAnswer, StartWrite, StartRead, TakeDone, LetFinish, Follows, IsFree, writes_in, taken_by, TellsOldest};

    /// What the port means.
    ghost means: { Self → Port };

    /// From a port, a call and its answer to the port after it.
    ghost moves: { Self → (c : DiskCall) → DiskAnswer c → Self → Type 0 };

    /// Starts a write. No write of that page may be in flight, and fewer than the geometry's queue.
    fn start_write(&mut self, page: Page, bytes: &[u8])
        requires page { page.0 < pages_of (means self.old).sizes }
        requires bytes { length bytes.now ≡ (means self.old).sizes.page_bytes }
        requires free { IsFree (means self.old).flights (DiskWhich.Write page) }
        requires room { writes_in (means self.old).flights < (means self.old).sizes.queue }
        ensures { moves self.old (StartWrite page bytes.now) tt self.new };

    /// Starts a read. No read for that caller may be in flight.
    fn start_read(&mut self, caller: Caller, page: Page)
        requires caller { caller.0 < (means self.old).sizes.callers }
        requires page { page.0 < pages_of (means self.old).sizes }
        requires free { IsFree (means self.old).flights (DiskWhich.Read caller) }
        ensures { moves self.old (StartRead caller page) tt self.new };

    /// Takes an operation that has finished. A read that is ok fills the buffer with its page.
    fn take(&mut self, buf: &mut [u8]) -> Option<DiskDone>
        requires { length buf.old ≡ (means self.old).sizes.page_bytes }
        ensures { moves self.old TakeDone (taken_by result buf.new) self.new };

    /// Lets an operation of a disk in memory finish; any other disk answers false.
    fn finish(&mut self, which: DiskWhich, ok: bool) -> bool
        ensures { moves self.old (LetFinish which ok) result self.new };

    /// The operation in flight that was started first, where the disk tells it.
    fn oldest(&self) -> Option<DiskWhich>
        ensures { TellsOldest (means self.now).blocks (means self.now).flights result };

    /// Each move is one that a disk may make.
    ghost follows: { (d : Self) (c : DiskCall) (answer : DiskAnswer c) (e : Self)
        → moves d c answer e → Follows (means d) c answer (means e) };
}
