ghost use Rattle.std.specs.Prelude.{◌≡◌, ℕ, ◌+◌, ◌-◌, ◌≤◌, [], length, drop, vec_capacity, IfOk};
ghost use Rattle.swap_wire.specs.Buffer.{free_bytes, append_after, drop_after};

use std::alloc::Global;
use std::marker::Model;
use swap_base::NoMemory;

/// The frame is longer than what is free.
#[derive(Clone, Copy, Debug, PartialEq, Eq)]
pub struct NoPlace;

/// Frames on their way, of at most `capacity` bytes. After `make` no call takes memory.
#[derive(Debug, Drop)]
pub struct FrameBuf {
    bytes: Vec<u8>,
    start: usize,
    capacity: usize,
}

impl Model for FrameBuf {
    ghost use Rattle.std.specs.Prelude.{◌≤◌, drop, vec_len, vec_capacity};
    ghost use Rattle.swap_wire.specs.Buffer.{BufferView};

    ghost Value = { BufferView };

    ghost view = { λ f. record { bytes = drop f.start f.bytes.items; capacity = f.capacity } };

    ghost invariant = { λ f. (f.start ≤ vec_len f.bytes) × (vec_len f.bytes ≤ f.capacity)
        × (f.capacity ≤ vec_capacity f.bytes) };
}

impl FrameBuf {
    /// An empty buffer with room for `capacity` bytes.
    pub fn make(alloc: Global, capacity: usize) -> Result<FrameBuf, NoMemory>
        ensures { IfOk result (λ f. f ≡ record { bytes = []; capacity = capacity }) }
    {
        let Ok(bytes) = Vec::with_capacity(alloc, capacity) else {
            return Err(NoMemory);
        };
        Ok(FrameBuf {
            bytes,
            start: 0,
            capacity,
        })
    }

    /// The bytes that are held, oldest first.
    pub fn bytes(&self) -> &[u8]
        ensures bytes { result.now ≡ self.now.bytes }
        ensures within { length self.now.bytes ≤ self.now.capacity }
    {
        &self.bytes[self.start..]
    }

    /// Drops the first `n` bytes.
    pub fn drop_front(&mut self, n: usize)
        requires { n ≤ length self.old.bytes }
        ensures { self.new ≡ drop_after self.old n }
    {
        self.start += n;
    }

    /// How many bytes are free.
    pub(crate) fn free(&self) -> usize
        ensures free { result ≡ free_bytes self.now }
        ensures within { length self.now.bytes ≤ self.now.capacity }
    {
        self.capacity - (self.bytes.len() - self.start)
    }

    /// Appends bytes that have room.
    pub(crate) fn append(&mut self, bytes: &[u8])
        requires { length bytes.now ≤ free_bytes self.old }
        ensures { self.new ≡ append_after self.old bytes.now }
    {
        if self.capacity - self.bytes.len() < bytes.len() {
            self.start = slide(&mut self.bytes, self.start);
        }
        self.bytes.extend_from_slice(bytes).unwrap();
    }
}

/// Moves what stands from `start` on to the front, and gives the new start.
fn slide(bytes: &mut Vec<u8>, start: usize) -> usize
    requires { start ≤ length bytes.old.items }
    ensures items { bytes.new.items ≡ drop start bytes.old.items }
    ensures capacity { vec_capacity bytes.new ≡ vec_capacity bytes.old }
    ensures start { result ≡ 0 }
{
    let kept = bytes.len() - start;
    bytes.copy_within(start.., 0);
    bytes.truncate(kept);
    0
}
