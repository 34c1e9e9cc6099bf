ghost use Rattle.std.specs.Prelude.{◌≡◌, ◌<◌, ◌≤◌, true, false, length, is_err, IfOk, OnOk, OnErr};
ghost use Rattle.std.specs.Io.KnownBytes.{Appends};
ghost use Rattle.swap_io.specs.Causes.{HasCause, AppendsFront};
ghost use Rattle.swap_wire.specs.Frames.{frame, page_with};
ghost use Rattle.swap_node.specs.RepliesView.{Puts};

use std::alloc::Global;
use std::marker::Model;
use swap_base::NoMemory;
use swap_io::{Sink, WriteFailed, write_line};
use swap_wire::{FrameBuf, Msg, encode};

/// Writes a lender's messages as frames. All memory is taken at `make`.
#[derive(Drop)]
pub struct Replies<K: Sink + Drop> {
    sink: K,
    frame: FrameBuf,
    page_bytes: u32,
    failed: bool,
}

impl<K: Sink + Drop> Model for Replies<K> {
    ghost use Rattle.std.specs.Prelude.{◌≡◌, ◌≤◌, ◌<◌, true};
    ghost use Rattle.swap_wire.specs.Frames.{longest};
    ghost use Rattle.swap_node.specs.RepliesView.{RepliesView};

    ghost Value = { RepliesView K };

    ghost view = { λ r. record { sink = r.sink; page_bytes = r.page_bytes; failed = r.failed } };

    ghost invariant = { λ r. (r.frame.capacity ≡ longest r.page_bytes) × (8 ≤ r.page_bytes)
        × (r.page_bytes ≤ 4096)
        × (r.failed ≡ true → 0 < K.faults r.sink) };
}

impl<K: Sink + Drop> Replies<K> {
    /// Nothing was put yet. Pages have 8 to 4,096 bytes.
    pub fn make(alloc: Global, sink: K, page_bytes: u32) -> Result<Replies<K>, NoMemory>
        requires least { 8 ≤ page_bytes }
        requires most { page_bytes ≤ 4096 }
        ensures { IfOk result
            (λ r. r ≡ record { sink = sink; page_bytes = page_bytes; failed = false }) }
    {
        let frame = FrameBuf::make(alloc, 13 + page_bytes as usize)?;
        Ok(Replies {
            sink,
            frame,
            page_bytes,
            failed: false,
        })
    }

    /// Writes the frame of a message, with the page where it has one. After a failure, which comes
    /// only where the sink's count of faults rose, a front of the frame was taken, and nothing more
    /// may be put.
    pub fn put(&mut self, msg: &Msg, page: &[u8]) -> Result<(), WriteFailed>
        requires before { self.old.failed ≡ false }
        requires page { length (page_with msg.now page.now) ≤ self.old.page_bytes }
        ensures ok { OnOk result
            (Appends (K.taken self.old.sink) (K.taken self.new.sink)
            (frame msg.now (page_with msg.now page.now))) }
        ensures err { OnErr result
            (AppendsFront (K.taken self.old.sink) (K.taken self.new.sink)
            (frame msg.now (page_with msg.now page.now))) }
        ensures cause { HasCause (K.faults self.old.sink) (K.faults self.new.sink) result }
        ensures failed { self.new.failed ≡ is_err result }
        ensures page_bytes { self.new.page_bytes ≡ self.old.page_bytes }
    {
        let held = self.frame.bytes().len();
        self.frame.drop_front(held);
        encode(msg, page, &mut self.frame).unwrap();
        let written = write_line(&mut self.sink, self.frame.bytes());
        self.failed = written.is_err();
        written
    }

    /// Puts a message; whether it failed.
    #[tactic(auto, using(crate::proofs::Puts::puts_ok, crate::proofs::Puts::puts_err))]
    pub(crate) fn post(&mut self, msg: &Msg, page: &[u8]) -> bool
        requires before { self.old.failed ≡ false }
        requires page { length page.now ≡ self.old.page_bytes }
        ensures puts { Puts K.taken K.faults self.old
            (frame msg.now (page_with msg.now page.now)) self.new }
        ensures failed { result ≡ self.new.failed }
    {
        match self.put(msg, page) {
            Ok(()) => false,
            Err(WriteFailed) => true,
        }
    }

    /// Whether a put failed.
    pub fn has_failed(&self) -> bool
        ensures { result ≡ self.now.failed }
    {
        self.failed
    }

    /// How many bytes a page has.
    pub fn page_bytes(&self) -> u32
        ensures { result ≡ self.now.page_bytes }
    {
        self.page_bytes
    }

    /// What is written to.
    pub fn sink(&self) -> &K
        ensures { result.now ≡ self.now.sink }
    {
        &self.sink
    }

    /// Gives the sink up. After a put that failed it has faults.
    pub fn into_sink(self) -> K
        ensures sink { result ≡ self.sink }
        ensures faults { self.failed ≡ true → 0 < K.faults result }
    {
        self.sink
    }
}
