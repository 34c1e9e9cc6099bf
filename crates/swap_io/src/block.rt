ghost use Rattle.std.specs.Prelude.{◌≡◌, ℕ, ◌<◌, ◌≤◌, [], length, drop, vec_len, vec_capacity, IfOk, OnOk, None};
ghost use Rattle.std.specs.Io.{WritesAtMost};
ghost use Rattle.std.specs.Io.KnownBytes.{WriteAppends, Keeps, append_known};
ghost use Rattle.swap_io.specs.Causes.{HasCause};
ghost use Rattle.swap_io.specs.Gathered.{Gathered, gathered_bytes};

use super::{Sink, WriteFailed};
use std::alloc::Global;
use std::marker::Model;
use swap_base::NoMemory;

/// How many bytes are gathered at most.
pub const BLOCK_LENGTH: usize = 65_536;

/// A sink that gathers in a block of 65,536 bytes what it takes. It hands the block on to another
/// sink when a piece doesn't fit, and when it is told to: what it took is what the other sink took,
/// and then what it holds. A failure of the other sink loses nothing of the block. After `make` no
/// call takes memory.
#[derive(Debug, Drop)]
pub struct BlockSink<K: Sink + Drop> {
    sink: K,
    block: Vec<u8>,
    at: usize,
}

impl<K: Sink + Drop> Model for BlockSink<K> {
    ghost use Rattle.std.specs.Prelude.{◌-◌, ◌≤◌, drop, vec_len, vec_capacity};
    ghost use Rattle.swap_io.specs.Gathered.{Gathered};

    ghost Value = { Gathered };

    ghost view = { λ s.
        record {
          handed = K.taken s.sink;
          held = drop s.at s.block.items;
          room = 65_536 - vec_len s.block;
          faults = K.faults s.sink;
        } };

    ghost invariant = { λ s. (s.at ≤ vec_len s.block) × (vec_len s.block ≤ 65_536)
        × (65_536 ≤ vec_capacity s.block) };
}

/// Hands on what a block holds from `at` on, which goes on with what is taken.
fn hand_on_from<K: Sink>(sink: &mut K, block: &[u8], at: &mut usize) -> Result<(), WriteFailed>
    requires { at.old ≤ length block.now }
    ensures within { at.new ≤ length block.now }
    ensures kept { Keeps (append_known (K.taken sink.old) (drop at.old block.now))
        (append_known (K.taken sink.new) (drop at.new block.now)) }
    ensures whole { OnOk result (at.new ≡ length block.now) }
    ensures cause { HasCause (K.faults sink.old) (K.faults sink.new) result }
{
    let mut place = *at;
    'handing: while place < block.len() {
        match sink.write(&block[place..]) {
            Ok(count) => place += count,
            Err(failed) => {
                *at = place;
                return Err(failed);
            }
        }
    }
    *at = place;
    Ok(())
}

impl<K: Sink + Drop> BlockSink<K> {
    /// A sink that holds nothing yet, before the other one.
    pub fn make(alloc: Global, sink: K) -> Result<BlockSink<K>, NoMemory>
        ensures { IfOk result
            (λ s. s
            ≡ record {
              handed = K.taken sink;
              held = [];
              room = 65_536;
              faults = K.faults sink;
            }) }
    {
        let Ok(block) = Vec::with_capacity(alloc, BLOCK_LENGTH) else {
            return Err(NoMemory);
        };
        Ok(BlockSink { sink, block, at: 0 })
    }

    /// Hands on all that is held. After an error the rest is held still.
    pub fn hand_on(&mut self) -> Result<(), WriteFailed>
        ensures kept { Keeps (gathered_bytes self.old) (gathered_bytes self.new) }
        ensures whole { OnOk result ((self.new.held ≡ []) × (self.new.room ≡ 65_536)) }
        ensures cause { HasCause self.old.faults self.new.faults result }
    {
        hand_on_from(&mut self.sink, &self.block, &mut self.at)?;
        self.block.clear();
        self.at = 0;
        Ok(())
    }
}

impl<K: Sink + Drop> Sink for BlockSink<K> {
    ghost use Rattle.swap_io.specs.Gathered.{gathered_bytes};

    ghost taken = { gathered_bytes };

    ghost faults = { λ s. s.faults };

    fn write(&mut self, bytes: &[u8]) -> Result<usize, WriteFailed> {
        if BLOCK_LENGTH - self.block.len() < bytes.len() {
            self.hand_on()?;
        }
        let count = bytes.len().min(BLOCK_LENGTH - self.block.len());
        self.block.extend_from_slice(&bytes[..count]).unwrap();
        Ok(count)
    }
}
