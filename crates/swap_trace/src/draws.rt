//! The calls that a drill draws, from a number.
ghost use Rattle.std.specs.Prelude.{◌≡◌, ◌<◌, ◌^◌};
ghost use Rattle.rand_pcg.specs.Pcg.{pcg32};
ghost use Rattle.swap_trace.specs.Draws.{draw_of, generator_of, slab_of, page_of, kind_of};

use rand_core::SeedableRng;
use rand_core::utils::NextWord;
use rand_pcg::Lcg64Xsh32;
use std::marker::Model;
use swap_base::{CallKind, Caller, Page};

/// A drawn call: a page-out hands in a page of `byte` alone. `word` is what it was drawn by.
#[derive(Clone, Copy, Debug, PartialEq, Eq)]
pub struct Draw {
    pub caller: Caller,
    pub page: Page,
    pub kind: CallKind,
    pub byte: u8,
    pub word: u64,
}

/// One slab in four draws is any of 64, and the others are one of the first four.
fn slab_of(word: u32) -> u32
    ensures { result ≡ slab_of word }
{
    let slab = word / 4 % 64;
    if word / 256 % 4 == 0 { slab } else { slab % 4 }
}

fn page_of(word: u32) -> Page
    ensures { result ≡ page_of word }
{
    let place = word / 1024 % 16;
    Page(slab_of(word) * 16 + place)
}

fn kind_of(word: u32) -> CallKind
    ensures { result ≡ kind_of word }
{
    if word / 16_384 % 2 == 0 {
        CallKind::PageOut
    } else {
        CallKind::PageIn
    }
}

fn draw_of(word: u32) -> Draw
    ensures { result ≡ draw_of word }
{
    Draw {
        caller: Caller(word % 4),
        page: page_of(word),
        kind: kind_of(word),
        byte: (word / 32_768 % 256) as u8,
        word: u64::from(word),
    }
}

/// The draws that are left of a number. The same number gives the same draws.
#[derive(Drop)]
pub struct DrillDraws {
    words: Lcg64Xsh32,
}

impl Model for DrillDraws {
    ghost use Rattle.rand_pcg.specs.Lcg.{Lcg};

    ghost Value = { Lcg };

    ghost view = { λ d. d.words };
}

impl DrillDraws {
    pub fn make(number: u64) -> DrillDraws
        ensures { result ≡ generator_of number }
    {
        DrillDraws {
            words: Lcg64Xsh32::seed_from_u64(number),
        }
    }

    /// The next draw, by one word of the generator.
    pub fn next(&mut self) -> Draw
        ensures draw { result ≡ draw_of (pcg32 self.old).0 }
        ensures left { self.new ≡ (pcg32 self.old).1 }
    {
        draw_of(self.words.next_word())
    }
}
