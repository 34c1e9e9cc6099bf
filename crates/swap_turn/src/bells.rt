// What the threads sleep by whose turn is far off.
use std::sync::Wait;
use std::sync::atomic::{AtomicU64, Ordering};

/// A thread sleeps while more turns than this are to be passed on before its own.
pub(crate) const NEAR: u64 = 2;

/// Tickets that are so far apart share a bell.
const BELLS: usize = 16;

/// A bell for each of some tickets in a row: how often it was rung.
#[derive(Drop)]
pub(crate) struct Bells {
    bells: [AtomicU64; BELLS],
}

impl Bells {
    pub(crate) fn new() -> Bells {
        Bells {
            bells: [
                AtomicU64::new(0),
                AtomicU64::new(0),
                AtomicU64::new(0),
                AtomicU64::new(0),
                AtomicU64::new(0),
                AtomicU64::new(0),
                AtomicU64::new(0),
                AtomicU64::new(0),
                AtomicU64::new(0),
                AtomicU64::new(0),
                AtomicU64::new(0),
                AtomicU64::new(0),
                AtomicU64::new(0),
                AtomicU64::new(0),
                AtomicU64::new(0),
                AtomicU64::new(0),
            ],
        }
    }

    fn of(&self, ticket: u64) -> &AtomicU64 {
        &self.bells[ticket as usize % BELLS]
    }

    /// How often the ticket's bell was rung, as far as a sleep looks at it.
    pub(crate) fn rung(&self, ticket: u64) -> u32 {
        (self.of(ticket).load(Ordering::SeqCst) & 0xffff_ffff) as u32
    }

    /// Sleeps unless the ticket's bell was rung since, until it is. It may also return for no
    /// reason.
    pub(crate) fn wait<R: Wait>(&self, rt: &R, ticket: u64, rung: u32) {
        self.of(ticket).park(rt, rung);
    }

    /// Wakes the thread of the ticket.
    pub(crate) fn ring(&self, ticket: u64) {
        let bell = self.of(ticket);
        bell.fetch_add(1, Ordering::SeqCst);
        bell.wake_all();
    }
}
