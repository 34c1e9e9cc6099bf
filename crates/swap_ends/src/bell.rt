use std::alloc::{AllocError, Global};
use std::sync::atomic::{AtomicBool, Ordering};
use std::sync::{Arc, Wait};
use std::thread::Parker;

/// What one thread waits by and others ring. A ring that comes before the wait isn't lost. It also
/// tells the thread to stop.
#[derive(Debug, Drop)]
pub struct Bell {
    parker: Parker,
    stop: AtomicBool,
}

/// A bell that two threads share.
pub type SharedBell = Arc<Bell, Global>;

impl Bell {
    /// A bell for the thread that waits, and one for the thread that rings.
    pub fn pair(alloc: Global) -> Result<(SharedBell, SharedBell), AllocError> {
        let bell = Bell {
            parker: Parker::new(),
            stop: AtomicBool::new(false),
        };
        let bell = Arc::new(alloc, bell)?;
        let other = Arc::try_clone(&bell)?;
        Ok((bell, other))
    }

    /// Wakes the thread that waits, or lets its next wait pass.
    pub fn ring(&self) {
        self.parker.unpark();
    }

    /// Tells the thread to stop, and wakes it.
    pub fn stop(&self) {
        self.stop.store(true, Ordering::SeqCst);
        self.parker.unpark();
    }

    /// Whether the thread is to stop.
    pub fn has_stopped(&self) -> bool {
        self.stop.load(Ordering::SeqCst)
    }

    /// Sleeps until it is rung. One thread alone may wait.
    pub fn wait<R: Wait>(&self, rt: &R) {
        self.parker.park(rt);
    }

    /// Sleeps until it is told to stop. One thread alone may wait.
    pub fn wait_for_stop<R: Wait>(&self, rt: &R) {
        for _ in rt.forever() {
            if self.has_stopped() {
                return;
            }
            self.wait(rt);
        }
        unreachable!()
    }
}
