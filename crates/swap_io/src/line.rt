ghost use Rattle.std.specs.Prelude.{◌≡◌, ℕ, ◌+◌, ◌-◌, ◌<◌, ◌≤◌, List, [], ◌++◌, length, take, decimal, bytes_eq, find, false, IfOk};
ghost use Rattle.std.specs.Fmt.{digit_glyph};
ghost use Rattle.swap_io.specs.Words.{lengths, repeat_piece, shortest_piece, shortest};

use super::LINE_LENGTH;
use super::words::PIECE_LENGTHS;
use std::alloc::Global;
use std::marker::Model;
use swap_base::NoMemory;

/// One line of text, of at most `LINE_LENGTH` bytes. After `make` no call takes memory.
#[derive(Debug, Drop)]
pub struct LineBuf {
    bytes: Vec<u8>,
}

impl Model for LineBuf {
    ghost use Rattle.std.specs.Prelude.{ℕ, ◌≤◌, List, vec_len, vec_capacity};
    ghost use Rattle.swap_io.specs.declared.TheConstants.{LINE_LENGTH};

    ghost Value = { List ℕ };

    ghost view = { λ line. line.bytes.items };

    ghost invariant = { λ line. (vec_len line.bytes ≤ LINE_LENGTH)
        × (LINE_LENGTH ≤ vec_capacity line.bytes) };
}

impl LineBuf {
    /// An empty line, with room for `LINE_LENGTH` bytes.
    pub fn make(alloc: Global) -> Result<LineBuf, NoMemory>
        ensures { IfOk result (λ line. line ≡ []) }
    {
        let Ok(bytes) = Vec::with_capacity(alloc, LINE_LENGTH) else {
            return Err(NoMemory);
        };
        Ok(LineBuf { bytes })
    }

    pub fn bytes(&self) -> &[u8]
        ensures bytes { result.now ≡ self.now }
        ensures within { length self.now ≤ LINE_LENGTH }
    {
        &self.bytes
    }

    /// How many bytes are free.
    pub fn room(&self) -> usize
        ensures room { result ≡ LINE_LENGTH - length self.now }
        ensures within { length self.now ≤ LINE_LENGTH }
    {
        LINE_LENGTH - self.bytes.len()
    }

    pub fn clear(&mut self)
        ensures { self.new ≡ [] }
    {
        self.bytes.clear();
    }

    /// Appends the bytes, which must have room.
    pub fn text(&mut self, bytes: &[u8])
        requires { length self.old + length bytes.now ≤ LINE_LENGTH }
        ensures { self.new ≡ self.old ++ bytes.now }
    {
        self.bytes.extend_from_slice(bytes).unwrap();
    }

    /// Appends the number's decimal digits, which must have room.
    pub fn decimal(&mut self, n: u64)
        requires { length self.old + length (decimal n) ≤ LINE_LENGTH }
        ensures { self.new ≡ self.old ++ decimal n }
    {
        self.text(itoa::Buffer::new().format(n).as_bytes());
    }

    /// Appends the hex of the page's shortest pattern, which must have room.
    pub fn shortest(&mut self, page: &[u8])
        requires { length self.old + length (shortest page.now) ≤ LINE_LENGTH }
        ensures { self.new ≡ self.old ++ shortest page.now }
    {
        let piece = &page[..shortest_len(page)];
        for byte in piece {
            self.text(&[hex_digit(*byte / 16), hex_digit(*byte % 16)]);
        }
    }
}

/// How many bytes the shortest piece has that a page repeats.
fn shortest_len(page: &[u8]) -> usize
    ensures piece { take result page.now ≡ shortest_piece page.now }
    ensures within { result ≤ length page.now }
{
    match first_period(page) {
        Some(len) => len.min(page.len()),
        None => page.len(),
    }
}

/// The first length of a piece that a page repeats.
fn first_period(page: &[u8]) -> Option<usize>
    ensures { result
        ≡ find
        (λ len. bytes_eq (repeat_piece (length page.now) (take len page.now)) page.now) lengths }
{
    PIECE_LENGTHS
        .iter()
        .copied()
        .find(|len| repeats(page, *len))
}

/// Whether a page repeats its first `len` bytes.
fn repeats(page: &[u8], len: usize) -> bool
    ensures { result ≡ bytes_eq (repeat_piece (length page.now) (take len page.now)) page.now }
{
    if len >= page.len() {
        return true;
    }
    if len == 0 || page.len() % len != 0 {
        return false;
    }
    page[len..] == page[..page.len() - len]
}

fn hex_digit(n: u8) -> u8
    requires { n < 16 }
    ensures { result ≡ digit_glyph false n }
{
    if n < 10 { b'0' + n } else { b'a' + (n - 10) }
}
