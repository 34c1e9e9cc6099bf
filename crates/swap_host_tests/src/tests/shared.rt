// What the tests of serving and of lending share: a sink that others see, and what goes in and out.
ghost use Rattle.std.specs.Prelude.{◌≤◌};

use std::alloc::Global;
use std::sync::{Arc, Mutex, Wait};
use swap_io::{Sink, WriteFailed};

/// The first bytes that a sink took.
#[derive(Drop)]
pub(super) struct Log {
    bytes: [u8; 64],
    length: usize,
    ghost within: { length ≤ 64 },
}

impl Log {
    pub(super) fn none() -> Log {
        Log {
            bytes: [0; 64],
            length: 0,
        }
    }

    fn add(&mut self, byte: u8) {
        if self.length < 64 {
            self.bytes[self.length] = byte;
            self.length += 1;
        }
    }

    pub(super) fn is(&self, bytes: &[u8]) -> bool {
        &self.bytes[..self.length] == bytes
    }
}

/// A sink that shares what it took.
#[derive(Drop)]
pub(super) struct SharedSink<R: Wait + Copy> {
    pub(super) rt: R,
    pub(super) log: Arc<Mutex<Log>, Global>,
}

impl<R: Wait + Copy> Sink for SharedSink<R> {
    ghost use Rattle.std.specs.Prelude.{None};

    ghost taken = { λ s. None };

    ghost faults = { λ s. 0 };

    fn write(&mut self, bytes: &[u8]) -> Result<usize, WriteFailed> {
        let mut log = self.log.lock(&self.rt);
        for byte in bytes {
            log.add(*byte);
        }
        Ok(bytes.len())
    }
}

/// The frames of Hello 1 8 4, Borrow 0, Write lease 0 place 2 of aa, Read lease 0 place 2 and Done
/// lease 0.
pub(super) const FRAMES: [u8; 69] = [
    0, 0, 0, 13, 1, 0, 0, 0, 1, 0, 0, 0, 8, 0, 0, 0, 4, 0, 0, 0, 5, 3, 0, 0, 0, 0, 0, 0, 0, 17, 4,
    0, 0, 0, 0, 0, 0, 0, 2, 0xaa, 0xaa, 0xaa, 0xaa, 0xaa, 0xaa, 0xaa, 0xaa, 0, 0, 0, 9, 5, 0, 0, 0,
    0, 0, 0, 0, 2, 0, 0, 0, 5, 7, 0, 0, 0, 0,
];

/// The frames of Lent 0 0, Wrote 0 2 and PageIs 0 2 of aa.
pub(super) const REPLIES: [u8; 47] = [
    0, 0, 0, 9, 9, 0, 0, 0, 0, 0, 0, 0, 0, 0, 0, 0, 9, 11, 0, 0, 0, 0, 0, 0, 0, 2, 0, 0, 0, 17, 12,
    0, 0, 0, 0, 0, 0, 0, 2, 0xaa, 0xaa, 0xaa, 0xaa, 0xaa, 0xaa, 0xaa, 0xaa,
];
