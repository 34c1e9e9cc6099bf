ghost use Rattle.std.specs.Prelude.{◌≡◌, ◌≤◌, ◌<◌, [], IfOk, true, false};
ghost use Rattle.swap_wire.specs.declared.side.Side.TheVariants.{Device};
ghost use Rattle.swap_wire.specs.Decoding.{decoder_at_start, Waits};
ghost use Rattle.swap_sock.specs.Dealings.{left_by};
ghost use Rattle.swap_serve.specs.Hearing.{Steps, hearing_at_start, IsBegun, IsHeard};
ghost use Rattle.swap_serve.specs.Steps.{Hears, Reads};

use std::alloc::Global;
use std::marker::Model;
use std::snapshot::Snapshot;
use std::sync::{Mutex, Wait};
use swap_base::{Link, NoMemory};
use swap_io::{Sink, Source};
use swap_node::{Delivered, Ear, Node};
use swap_sock::LinkEnd;
use swap_wire::{Decoder, Msg, Next, Side};

/// How many bytes are read at most at a time.
const READ_LENGTH: usize = 65_536;

/// What a link is heard with.
#[derive(Drop)]
pub(crate) struct Buffers {
    decoder: Decoder,
    page: Vec<u8>,
    bytes: Vec<u8>,
}

impl Model for Buffers {
    ghost use Rattle.std.specs.Prelude.{◌≡◌, ◌<◌, ◌≤◌, length};
    ghost use Rattle.swap_wire.specs.Decoding.{DecoderView};

    ghost Value = { DecoderView };

    ghost view = { λ b. b.decoder };

    ghost invariant = { λ b. (0 < length b.bytes.items)
        × (length b.page.items ≡ b.decoder.page_bytes) × (b.decoder.page_bytes ≤ 4096) };
}

impl Buffers {
    /// Nothing was read yet. Pages have 8 to 4,096 bytes.
    pub(crate) fn make(alloc: Global, page_bytes: u32) -> Result<Buffers, NoMemory>
        requires least { 8 ≤ page_bytes }
        requires most { page_bytes ≤ 4096 }
        ensures { IfOk result (λ b. b ≡ decoder_at_start Device page_bytes) }
    {
        let decoder = Decoder::make(alloc, Side::Device, page_bytes)?;
        let Ok(page) = vec![in alloc; 0; page_bytes as usize] else {
            return Err(NoMemory);
        };
        let Ok(bytes) = vec![in alloc; 0; READ_LENGTH] else {
            return Err(NoMemory);
        };
        Ok(Buffers {
            decoder,
            page,
            bytes,
        })
    }
}

/// A link as it is heard: its reader, what was decoded of it, the bytes that were read and not yet
/// fed, and its ear.
#[derive(Drop)]
pub(crate) struct Listener<S: Source + Drop> {
    reader: S,
    decoder: Decoder,
    page: Vec<u8>,
    bytes: Vec<u8>,
    at: usize,
    end: usize,
    ear: Ear,
}

impl<S: Source + Drop> Model for Listener<S> {
    ghost use Rattle.std.specs.Prelude.{◌≡◌, ◌≤◌, ◌<◌, slice_range, length};
    ghost use Rattle.swap_serve.specs.Hearing.{Hearing};

    ghost Value = { Hearing S };

    ghost view = { λ l.
        record {
          reader = l.reader;
          decoder = l.decoder;
          ahead = slice_range l.bytes.items l.at l.end;
          ear = l.ear;
        } };

    ghost invariant = { λ l. (l.at ≤ l.end) × (l.end ≤ length l.bytes.items)
        × (0 < length l.bytes.items) × (length l.page.items ≡ l.decoder.page_bytes)
        × (l.decoder.page_bytes ≤ 4096) };
}

impl<S: Source + Drop> Listener<S> {
    /// Nothing was read of the link yet.
    pub(crate) fn new(reader: S, ear: Ear, buffers: Buffers) -> Listener<S>
        ensures { result ≡ hearing_at_start reader buffers ear }
    {
        let Buffers {
            decoder,
            page,
            bytes,
        } = buffers;
        Listener {
            reader,
            decoder,
            page,
            bytes,
            at: 0,
            end: 0,
            ear,
        }
    }

    /// The link's number.
    pub(crate) fn link(&self) -> Link
        ensures { result ≡ self.now.ear.link }
    {
        self.ear.link()
    }

    /// How many bytes a page has.
    pub(crate) fn page_bytes(&self) -> u32
        ensures { result ≡ self.now.decoder.page_bytes }
    {
        self.page.len() as u32
    }

    /// The reader as it is now, for proofs alone.
    pub(crate) fn snapshot(&self) -> Snapshot<S>
        ensures { result.value ≡ self.now.reader }
    {
        Snapshot::of(&self.reader)
    }

    /// Goes on with a message that is whole, a place that is bad, or more bytes; how the link
    /// ended, if it did.
    fn step<R: Wait, K: Sink + Drop>(&mut self, rt: &R, node: &Mutex<Node<K>>) -> Option<LinkEnd<K>>
        ensures { Steps S.left S.faults K.faults self.old result self.new }
    {
        match self.decoder.next(&mut self.page) {
            Next::Got(msg) => self.deliver(rt, node, &msg),
            Next::Bad { at } => Some(LinkEnd::Bad { at }),
            Next::More => self.more(),
        }
    }

    /// The link is gone, however it ended.
    fn leave<R: Wait, K: Sink + Drop>(
        self,
        rt: &R,
        node: &Mutex<Node<K>>,
        end: LinkEnd<K>,
    ) -> Heard<S, K>
        ensures reader { result.reader ≡ self.reader }
        ensures end { result.end ≡ end }
        ensures ear { result.ear ≡ self.ear }
    {
        node.lock(rt).gone(self.ear.link());
        Heard {
            reader: self.reader,
            end,
            ear: self.ear,
        }
    }

    /// Delivers a message with the page in the buffer.
    fn deliver<R: Wait, K: Sink + Drop>(
        &mut self,
        rt: &R,
        node: &Mutex<Node<K>>,
        msg: &Msg,
    ) -> Option<LinkEnd<K>>
        ensures ear { Hears K.faults msg.now self.old.ear result self.new.ear }
        ensures same { self.new ≡ record self.old { ear = self.new.ear } }
    {
        match node.lock(rt).deliver(&mut self.ear, msg, &self.page) {
            Delivered::Fine => None,
            Delivered::End => Some(LinkEnd::Ended { msg: *msg }),
            Delivered::Down(replies) => Some(LinkEnd::Down(replies.into_sink())),
        }
    }

    /// Feeds bytes that were read, or reads some where none are left.
    fn more<K: Sink + Drop>(&mut self) -> Option<LinkEnd<K>>
        requires { Waits self.old.decoder }
        ensures { Reads S.left S.faults self.old result self.new }
    {
        if self.at < self.end {
            self.at += self.decoder.feed(&self.bytes[self.at..self.end]);
            return None;
        }
        match self.reader.read(&mut self.bytes) {
            Err(_) => Some(LinkEnd::ReadFailed),
            Ok(0) => Some(LinkEnd::Read),
            Ok(count) => {
                self.at = 0;
                self.end = count;
                None
            }
        }
    }
}

/// A link that was heard to its end.
#[derive(Drop)]
pub(crate) struct Heard<S: Source + Drop, K: Sink + Drop> {
    pub(crate) reader: S,
    pub(crate) end: LinkEnd<K>,
    pub(crate) ear: Ear,
}

/// Hears a link to its end; it is gone then.
pub(crate) fn hear<R: Wait, S: Source + Drop, K: Sink + Drop>(
    rt: &R,
    node: &Mutex<Node<K>>,
    mut listener: Listener<S>,
) -> Heard<S, K>
    requires { IsBegun listener }
    ensures { IsHeard S.left S.faults K.faults listener.decoder.page_bytes listener.reader
        listener.ear.link
        (left_by result.reader result.end) result.ear }
{
    for _ in rt.forever() {
        if let Some(end) = listener.step(rt, node) {
            return listener.leave(rt, node, end);
        }
    }
    unreachable!()
}
