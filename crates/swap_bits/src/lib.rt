//! A set of pages: a set of the numbers below a bound, in words of 64 bits.
#![tactic(auto)]

ghost use Rattle.std.specs.Prelude.{◌≡◌, ℕ, ◌+◌, ◌-◌, ◌*◌, ◌/◌, ◌%◌, ◌^◌, ◌<◌, ◌≤◌, length, take, drop, ◌++◌, replicate, sum_by, count_ones, false, if◌then◌else◌, IfOk};
ghost use Rattle.swap_bits.specs.Bits.{no_numbers, has, with_number, without_number, without_range, count_in, is_in_range, AddsOne, TakesOne, TakesRange, CountsParts, CountsOne, KeepsBound};
ghost use Rattle.swap_bits.specs.Words.{is_in, set_of};

use std::alloc::Global;
use std::marker::Model;
use swap_base::NoMemory;

const WORD_BITS: u32 = 64;

/// A set of numbers below a bound, seen as the list that tells of each number whether it is in the
/// set.
/// All memory is taken at `make`.
#[derive(Drop)]
pub struct PageBits {
    words: Vec<u64>,
    bound: u32,
}

impl Model for PageBits {
    ghost use Rattle.std.specs.Prelude.{◌*◌, ◌<◌, Bool, List, length};
    ghost use Rattle.swap_bits.specs.Words.{set_of};

    ghost Value = { List Bool };

    ghost view = { λ b. set_of b.words.items b.bound };

    ghost invariant = { λ b. b.bound < 64 * length b.words.items };
}

/// A word's bits below a place.
fn bits_below(word: u64, place: u32) -> u64
    requires { place < 64 }
    ensures { result ≡ word % 2 ^ place }
{
    word & ((1 << place) - 1)
}

/// A word's bits from a place on.
fn bits_from(word: u64, place: u32) -> u64
    requires { place < 64 }
    ensures { result ≡ word / 2 ^ place * 2 ^ place }
{
    word >> place << place
}

/// How many bits are set in all words.
fn count_words(words: &[u64]) -> u32
    requires { 64 * length words.now < 2 ^ 32 }
    ensures value { result ≡ sum_by count_ones words.now }
    ensures bound { result ≤ 64 * length words.now }
{
    let mut count = 0;
    for word in words {
        count += word.count_ones();
    }
    count
}

/// Clears the words from `low` on and before `high`.
fn clear_words(words: &mut [u64], low: usize, high: usize)
    requires order { low ≤ high }
    requires within { high ≤ length words.old }
    ensures { words.new ≡ take low words.old ++ (replicate (high - low) 0 ++ drop high words.old) }
{
    words[low..high].fill(0);
}

/// Takes out the numbers from `first` on and before `end`: whole words, and a part of the first and
/// the last.
fn clear_in_words(words: &mut [u64], first: u32, end: u32)
    requires order { first ≤ end }
    requires within { end < 64 * length words.old }
    ensures { (i : ℕ)
        → is_in words.new i ≡ (if is_in_range first end i then false else is_in words.old i) }
{
    let low = (first / WORD_BITS) as usize;
    let high = (end / WORD_BITS) as usize;
    let front = bits_below(words[low], first % WORD_BITS);
    let back = bits_from(words[high], end % WORD_BITS);
    clear_words(words, low, high);
    words[high] = back;
    words[low] |= front;
}

/// How many numbers from `first` on and before `end` are in the set: those of whole words and of
/// the last word's part, less those of the first word before the range.
fn count_in_words(words: &[u64], first: u32, end: u32) -> u32
    requires order { first ≤ end }
    requires within { end < 64 * length words.now }
    ensures { (n : ℕ) → end ≤ n → result ≡ count_in (set_of words.now n) first end }
{
    let low = (first / WORD_BITS) as usize;
    let high = (end / WORD_BITS) as usize;
    let before = bits_below(words[low], first % WORD_BITS);
    let last = bits_below(words[high], end % WORD_BITS);
    let whole = count_words(&words[low..high]);
    whole + last.count_ones() - before.count_ones()
}

impl PageBits {
    /// The empty set of numbers below `n`.
    pub fn make(alloc: Global, n: u32) -> Result<PageBits, NoMemory>
        ensures { IfOk result (λ set. set ≡ no_numbers n) }
    {
        let count = n / WORD_BITS + 1;
        match vec![in alloc; 0; count as usize] {
            Ok(words) => Ok(PageBits { words, bound: n }),
            Err(_) => Err(NoMemory),
        }
    }

    /// Whether a number is in the set.
    pub fn get(&self, i: u32) -> bool
        requires { i < length self.now }
        ensures { result ≡ has self.now i }
    {
        let word = self.words[(i / WORD_BITS) as usize];
        word >> (i % WORD_BITS) & 1 == 1
    }

    /// Puts a number into the set.
    pub fn set(&mut self, i: u32)
        requires { i < length self.old }
        ensures { self.new ≡ with_number self.old i }
    {
        self.words[(i / WORD_BITS) as usize] |= 1 << (i % WORD_BITS);
    }

    /// Takes a number out of the set.
    pub fn clear(&mut self, i: u32)
        requires { i < length self.old }
        ensures { self.new ≡ without_number self.old i }
    {
        self.words[(i / WORD_BITS) as usize] &= !(1 << (i % WORD_BITS));
    }

    /// Takes out the numbers from `first` on and before `end`.
    pub fn clear_range(&mut self, first: u32, end: u32)
        requires order { first ≤ end }
        requires within { end ≤ length self.old }
        ensures { self.new ≡ without_range self.old first end }
    {
        clear_in_words(&mut self.words, first, end);
    }

    /// How many numbers from `first` on and before `end` are in the set.
    pub fn count_range(&self, first: u32, end: u32) -> u32
        requires order { first ≤ end }
        requires within { end ≤ length self.now }
        ensures { result ≡ count_in self.now first end }
    {
        count_in_words(&self.words, first, end)
    }
}

/// What each change makes of the set, number by number, and how counts go together.
pub fn is_a_set()
    ensures set { AddsOne }
    ensures clear { TakesOne }
    ensures clear_range { TakesRange }
    ensures parts { CountsParts }
    ensures one { CountsOne }
    ensures bound { KeepsBound }
{}
