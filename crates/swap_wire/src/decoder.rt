ghost use Rattle.std.specs.Prelude.{◌≡◌, ℕ, ◌+◌, ◌≤◌, ◌<◌, ◌++◌, ◌↔◌, length, drop, IfOk, true, false};
ghost use Rattle.swap_wire.specs.Frames.{form, IsBytes};
ghost use Rattle.swap_wire.specs.Heads.{whole_length, judge_head};
ghost use Rattle.swap_wire.specs.Decoding.{decoder_at_start, bytes_taken, feed_after, answered_after, Answers, page_in, Waits, Fails, GivesTheOneInFront};
ghost use Rattle.swap_wire.specs.Verdicts.{next_told, told_by, left_after, left_by, bytes_shown, shown_by};

use crate::buffer::FrameBuf;
use crate::frames::{Judged, judge, read_frame};
use crate::kind::Kind;
use crate::{Msg, Side};
use std::alloc::Global;
use std::marker::Model;
use swap_base::NoMemory;

/// What a decoder answers: the next message, that bytes are wanting, or that at this place of the
/// stream no frame stands.
#[derive(Clone, Copy, Debug, PartialEq, Eq)]
pub enum Next {
    Got(Msg),
    More,
    Bad { at: u64 },
}

/// Reads the frames that a side sends, in whatever pieces they come. After `make` no call takes
/// memory.
#[derive(Debug, Drop)]
pub struct Decoder {
    side: Side,
    page_bytes: u32,
    buffer: FrameBuf,
    before: u64,
    bad: bool,
}

impl Model for Decoder {
    ghost use Rattle.std.specs.Prelude.{◌≡◌, ◌≤◌, true};
    ghost use Rattle.swap_wire.specs.declared.frames.Judged.TheVariants.{Hopeless};
    ghost use Rattle.swap_wire.specs.Frames.{longest};
    ghost use Rattle.swap_wire.specs.Heads.{whole_length, judge_head};
    ghost use Rattle.swap_wire.specs.Decoding.{DecoderView};

    ghost Value = { DecoderView };

    ghost view = { λ d.
        record {
          side = d.side;
          page_bytes = d.page_bytes;
          rest = d.buffer.bytes;
          before = d.before;
          bad = d.bad;
        } };

    ghost invariant = { λ d. (8 ≤ d.page_bytes) × (d.page_bytes ≤ 4096)
        × (d.buffer.capacity ≡ longest d.page_bytes)
        × (d.bad ≡ true → judge_head d.side d.page_bytes d.buffer.bytes ≡ Hopeless) };
}

impl Decoder {
    /// A decoder of the frames that the side sends, with pages of 8 to 4,096 bytes. Its buffer
    /// holds one largest frame.
    pub fn make(alloc: Global, side: Side, page_bytes: u32) -> Result<Decoder, NoMemory>
        requires least { 8 ≤ page_bytes }
        requires most { page_bytes ≤ 4096 }
        ensures { IfOk result (λ d. d ≡ decoder_at_start side page_bytes) }
    {
        let buffer = FrameBuf::make(alloc, 13 + page_bytes as usize)?;
        Ok(Decoder {
            side,
            page_bytes,
            buffer,
            before: 0,
            bad: false,
        })
    }

    /// Takes as many of the bytes as the buffer has free, and says how many. Once the decoder has
    /// answered `Bad` it takes all and keeps none.
    pub fn feed(&mut self, bytes: &[u8]) -> usize
        ensures taken { result ≡ bytes_taken self.old bytes.now }
        ensures kept { self.new ≡ feed_after self.old bytes.now }
        ensures page_bytes { self.new.page_bytes ≡ self.old.page_bytes }
    {
        if self.bad {
            return bytes.len();
        }
        let n = bytes.len().min(self.buffer.free());
        self.buffer.append(&bytes[..n]);
        n
    }

    /// The next message of the stream. Its page goes to the front of the buffer, which is as long
    /// as a page.
    ///
    /// `More` comes exactly where what is left is a proper front of a frame, and `Bad` exactly
    /// where it doesn't begin with a whole frame and no further bytes make it one; `at` counts the
    /// bytes of the stream before that place, and stops at `u64::MAX`. After `Bad` the answer stays
    /// the same.
    pub fn next(&mut self, page: &mut [u8]) -> Next
        requires { length page.old ≡ self.old.page_bytes }
        ensures answer { Answers self.old result (page_in self.old result page.new) }
        ensures after { self.new
            ≡ answered_after self.old result (page_in self.old result page.new) }
        ensures page { page.new ≡ page_in self.old result page.new
            ++ drop (length (page_in self.old result page.new)) page.old }
        ensures got { GivesTheOneInFront self.old result }
        ensures more { (result ≡ Next.More) ↔ Waits self.old }
        ensures bad { (at : ℕ) → (result ≡ Next.Bad at) ↔ Fails self.old at }
        ensures page_bytes { self.new.page_bytes ≡ self.old.page_bytes }
    {
        self.step(page)
    }

    /// What `next` does, by what the rest is judged to be.
    fn step(&mut self, page: &mut [u8]) -> Next
        requires { length page.old ≡ self.old.page_bytes }
        ensures told { result ≡ next_told self.old }
        ensures left { self.new ≡ left_after self.old }
        ensures page { page.new
            ≡ bytes_shown self.old ++ drop (length (bytes_shown self.old)) page.old }
        ensures page_bytes { self.old.page_bytes ≤ 4096 }
        ensures bytes { self.old.bad ≡ false → IsBytes self.old.rest }
        ensures bad { self.old.bad ≡ true
            → judge_head self.old.side self.old.page_bytes self.old.rest ≡ Judged.Hopeless }
    {
        if self.bad {
            return Next::Bad { at: self.before };
        }
        match judge(self.side, self.page_bytes, self.buffer.bytes()) {
            Judged::Whole(kind) => Next::Got(self.take(kind, page)),
            Judged::Partial => Next::More,
            Judged::Hopeless => {
                self.bad = true;
                Next::Bad { at: self.before }
            }
        }
    }

    /// Takes the whole frame of a kind that stands in front.
    fn take(&mut self, kind: Kind, page: &mut [u8]) -> Msg
        requires page { length page.old ≡ self.old.page_bytes }
        requires alive { self.old.bad ≡ false }
        requires whole { whole_length self.old.page_bytes (form kind) ≤ length self.old.rest }
        ensures msg { Next.Got result ≡ told_by self.old (Judged.Whole kind) }
        ensures left { self.new ≡ left_by self.old (Judged.Whole kind) }
        ensures page { page.new ≡ shown_by self.old (Judged.Whole kind)
            ++ drop (length (shown_by self.old (Judged.Whole kind))) page.old }
    {
        let length = kind.form().whole_length(self.page_bytes);
        let msg = read_frame(kind, self.page_bytes, &self.buffer.bytes()[..length], page);
        self.buffer.drop_front(length);
        self.before = self.before.saturating_add(length as u64);
        msg
    }
}
