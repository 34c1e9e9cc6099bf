ghost use Rattle.std.specs.Prelude.{◌≡◌, ℕ, ◌+◌, ◌*◌, ◌-◌, ◌%◌, ◌<◌, ◌≤◌, ◌==◌, min, length, is_some, if◌then◌else◌, IsTrue, true, Some, None, slice_index};
ghost use Rattle.std.specs.Bool.{OnFalse};
ghost use Rattle.std.specs.List.{list_any};
ghost use Rattle.swap_base.specs.Sizes.{page_lengths};
ghost use Rattle.swap_io.specs.Words.{number, is_hex_digit, hex_value, piece_of, pairs, pattern};

use std::str;

/// How many bytes a piece may have.
pub(crate) const PIECE_LENGTHS: [usize; 13] = [
    1, 2, 4, 8, 16, 32, 64, 128, 256, 512, 1024, 2048, 4096,
];

/// The number that a word of decimal digits without a leading zero stands for, up to 2^64 - 1.
pub fn number(word: &[u8]) -> Option<u64>
    ensures { result ≡ number word.now }
{
    if word.is_empty() || word[0] == b'+' {
        return None;
    }
    if word.len() > 1 && word[0] == b'0' {
        return None;
    }
    let Ok(text) = str::from_utf8(word) else {
        return None;
    };
    text.parse().ok()
}

/// Whether a word is the lower-case hex of whole bytes, at least one.
pub fn is_hex(word: &[u8]) -> bool
    ensures { result ≡ is_some (piece_of word.now) }
{
    !word.is_empty() && word.len() % 2 == 0 && word.iter().all(|c| is_hex_digit(*c))
}

/// Fills a page with the piece that a word stands for, repeated: lower-case hex of 1, 2, 4, ..
/// bytes, up to the page's length. False where the word is no such hex, and then the page stays as
/// it was.
pub fn pattern(word: &[u8], page: &mut [u8]) -> bool
    requires { IsTrue (list_any (λ n. length page.old == n) page_lengths) }
    ensures page { (if result then Some page.new else None) ≡ pattern (length page.old) word.now }
    ensures same { OnFalse result (page.new ≡ page.old) }
{
    let len = word.len() / 2;
    if !is_hex(word) || !PIECE_LENGTHS.contains(&len) || len > page.len() {
        return false;
    }
    fill_front(word, page, len);
    repeat_front(page, len);
    true
}

/// Writes the piece that a word stands for at the front of a page.
fn fill_front(word: &[u8], page: &mut [u8], len: usize)
    requires hex { is_some (piece_of word.now) ≡ true }
    requires word { 2 * len ≤ length word.now }
    requires page { len ≤ length page.old }
    ensures { (k : ℕ) → k < len → slice_index page.new k ≡ slice_index (pairs word.now) k }
{
    for i in 0..len {
        page[i] = byte_at(word, i);
    }
}

/// Fills a page with its first `len` bytes, repeated: each pass doubles what is filled.
fn repeat_front(page: &mut [u8], len: usize)
    requires some { 0 < len }
    requires within { len ≤ length page.old }
    ensures { (k : ℕ) → k < length page.old
        → slice_index page.new k ≡ slice_index page.old (k % len) }
{
    let mut done = len;
    'filling: while done < page.len() {
        done = double(page, done);
    }
}

/// Copies the first `done` bytes behind themselves, as many as the page has room for. How many are
/// filled then.
fn double(page: &mut [u8], done: usize) -> usize
    requires { done ≤ length page.old }
    ensures filled { result ≡ min (done + done) (length page.old) }
    ensures front { (k : ℕ) → k < done → slice_index page.new k ≡ slice_index page.old k }
    ensures copied { (k : ℕ) → k < result - done
        → slice_index page.new (done + k) ≡ slice_index page.old k }
{
    let (front, rest) = page.split_at_mut(done);
    let count = front.len().min(rest.len());
    rest[..count].copy_from_slice(&front[..count]);
    done + count
}

/// The byte at a place of the piece that a word stands for.
fn byte_at(word: &[u8], i: usize) -> u8
    requires hex { is_some (piece_of word.now) ≡ true }
    requires within { 2 * i + 1 < length word.now }
    ensures { result ≡ slice_index (pairs word.now) i }
{
    16 * hex_value(word[2 * i]) + hex_value(word[2 * i + 1])
}

fn is_hex_digit(c: u8) -> bool
    ensures { result ≡ is_hex_digit c }
{
    matches!(c, b'0'..=b'9' | b'a'..=b'f')
}

fn hex_value(c: u8) -> u8
    requires { IsTrue (is_hex_digit c) }
    ensures value { result ≡ hex_value c }
    ensures small { result < 16 }
{
    if c <= b'9' { c - b'0' } else { c - b'a' + 10 }
}
