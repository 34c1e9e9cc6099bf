ghost use Rattle.std.specs.Prelude.{◌≡◌, ℕ, ◌<◌, ◌≤◌, [], length, take, drop, IfOk, OnOk, Some};
ghost use Rattle.std.specs.Io.{ReadsAtMost, WritesAtMost};
ghost use Rattle.std.specs.Io.KnownBytes.{ReadConsumes, WriteAppends};
ghost use Rattle.swap_io.specs.Causes.{HasCause};
ghost use Rattle.swap_io.specs.Memory.{is_listed, after_read, read_gives, after_write, write_gives};

use super::{ReadFailed, Sink, Source, WriteFailed};
use std::alloc::Global;
use std::marker::Model;
use swap_base::NoMemory;

/// A source of bytes in memory, which fails at the calls whose numbers from 0 are listed.
#[derive(Debug, Drop)]
pub struct MemSource {
    bytes: Vec<u8>,
    at: usize,
    failing: Vec<u32>,
    calls: u64,
    faults: u64,
}

impl Model for MemSource {
    ghost use Rattle.std.specs.Prelude.{◌≤◌, drop, vec_len};
    ghost use Rattle.swap_io.specs.Memory.{Given};

    ghost Value = { Given };

    ghost view = { λ s.
        record {
          left = drop s.at s.bytes.items;
          failing = s.failing.items;
          calls = s.calls;
          faults = s.faults;
        } };

    ghost invariant = { λ s. s.at ≤ vec_len s.bytes };
}

impl MemSource {
    pub fn make(bytes: Vec<u8>, failing: Vec<u32>) -> MemSource
        ensures { result
            ≡ record { left = bytes.items; failing = failing.items; calls = 0; faults = 0 } }
    {
        MemSource {
            bytes,
            at: 0,
            failing,
            calls: 0,
            faults: 0,
        }
    }
}

impl Source for MemSource {
    ghost left = { λ s. Some s.left };

    ghost faults = { λ s. s.faults };

    /// Fails at exactly the listed calls; every other one gives as many bytes as there are and fit.
    fn read(&mut self, buf: &mut [u8]) -> Result<usize, ReadFailed>
        requires { 0 < length buf.old }
        ensures bound { ReadsAtMost result buf.new }
        ensures bytes { ReadConsumes (Some self.old.left) (Some self.new.left) result buf.new }
        ensures cause { HasCause self.old.faults self.new.faults result }
        ensures unfailed { OnOk result (self.new.faults ≡ self.old.faults) }
        ensures result { result ≡ read_gives self.old (length buf.old) }
        ensures after { self.new ≡ after_read self.old (length buf.old) }
        ensures given { IfOk result
            (λ n. (take n buf.new ≡ take n self.old.left) × (drop n buf.new ≡ drop n buf.old)) }
    {
        let call = self.calls;
        self.calls = call.saturating_add(1);
        if is_listed(&self.failing, call) {
            self.faults = self.faults.saturating_add(1);
            return Err(ReadFailed);
        }
        let left = &self.bytes[self.at..];
        let n = left.len().min(buf.len());
        buf[..n].copy_from_slice(&left[..n]);
        self.at += n;
        Ok(n)
    }
}

/// A sink in memory, which fails at the calls whose numbers from 0 are listed, and where its
/// capacity is used up.
#[derive(Debug, Drop)]
pub struct MemSink {
    bytes: Vec<u8>,
    capacity: usize,
    failing: Vec<u32>,
    calls: u64,
    faults: u64,
}

impl Model for MemSink {
    ghost use Rattle.std.specs.Prelude.{◌≤◌, vec_len, vec_capacity};
    ghost use Rattle.swap_io.specs.Memory.{Taken};

    ghost Value = { Taken };

    ghost view = { λ s.
        record {
          taken = s.bytes.items;
          capacity = s.capacity;
          failing = s.failing.items;
          calls = s.calls;
          faults = s.faults;
        } };

    ghost invariant = { λ s. (vec_len s.bytes ≤ s.capacity) × (s.capacity ≤ vec_capacity s.bytes) };
}

impl MemSink {
    /// A sink that may take `capacity` bytes, for which the memory is taken here.
    pub fn make(alloc: Global, capacity: usize, failing: Vec<u32>) -> Result<MemSink, NoMemory>
        ensures { IfOk result
            (λ sink. sink
            ≡ record {
              taken = [];
              capacity = capacity;
              failing = failing.items;
              calls = 0;
              faults = 0;
            }) }
    {
        let Ok(bytes) = Vec::with_capacity(alloc, capacity) else {
            return Err(NoMemory);
        };
        Ok(MemSink {
            bytes,
            capacity,
            failing,
            calls: 0,
            faults: 0,
        })
    }

    /// The bytes that were taken.
    pub fn bytes(&self) -> &[u8]
        ensures taken { result.now ≡ self.now.taken }
        ensures within { length self.now.taken ≤ self.now.capacity }
    {
        &self.bytes
    }
}

impl Sink for MemSink {
    ghost taken = { λ s. Some s.taken };

    ghost faults = { λ s. s.faults };

    /// Fails at exactly the listed calls and where the capacity is used up; every other one takes
    /// as many bytes as there are and fit.
    fn write(&mut self, bytes: &[u8]) -> Result<usize, WriteFailed>
        ensures bound { WritesAtMost result bytes.now }
        ensures some { IfOk result (λ n. 0 < length bytes.now → 0 < n) }
        ensures bytes { WriteAppends (Some self.old.taken) (Some self.new.taken) result bytes.now }
        ensures cause { HasCause self.old.faults self.new.faults result }
        ensures result { result ≡ write_gives self.old bytes.now }
        ensures after { self.new ≡ after_write self.old bytes.now }
    {
        let call = self.calls;
        self.calls = call.saturating_add(1);
        let room = self.capacity - self.bytes.len();
        if is_listed(&self.failing, call) || room == 0 {
            self.faults = self.faults.saturating_add(1);
            return Err(WriteFailed);
        }
        let n = bytes.len().min(room);
        self.bytes.extend_from_slice(&bytes[..n]).unwrap();
        Ok(n)
    }
}

fn is_listed(failing: &[u32], call: u64) -> bool
    ensures { result ≡ is_listed failing.now call }
{
    failing.iter().any(|n| u64::from(*n) == call)
}
