ghost use Rattle.std.specs.Prelude.{◌≡◌, ℕ, ◌≤◌, ◌<◌, length, codes, IfSome};
ghost use Rattle.swap_io.specs.Words.{number};
ghost use Rattle.swap_sock.specs.Addresses.{bytes_before, bytes_behind, place_of, at_most, address_in};

use swap_io::number;

/// Where a lender listens: four numbers and a port.
#[derive(Clone, Copy, Debug, PartialEq, Eq)]
pub struct Address {
    pub a: u8,
    pub b: u8,
    pub c: u8,
    pub d: u8,
    pub port: u16,
}

impl Address {
    /// Reads `A.B.C.D:PORT`, each number in decimal without leading zeros. None exactly where the
    /// text isn't of that form.
    pub fn read(text: &str) -> Option<Address>
        ensures { result ≡ address_in text.now }
    {
        let (first, rest) = cut(text.as_bytes(), b'.');
        let (second, rest) = cut(rest, b'.');
        let (third, rest) = cut(rest, b'.');
        let (fourth, port) = cut(rest, b':');
        Some(Address {
            a: byte(first)?,
            b: byte(second)?,
            c: byte(third)?,
            d: byte(fourth)?,
            port: limited(port, 65_535)? as u16,
        })
    }
}

/// What stands before and after the first byte of a kind; without one all stands before it.
fn cut(text: &[u8], separator: u8) -> (&[u8], &[u8])
    ensures before { result.0.now ≡ bytes_before separator text.now }
    ensures after { result.1.now ≡ bytes_behind separator text.now }
{
    match place_of(text, separator) {
        Some(place) => (&text[..place], &text[place + 1..]),
        None => (text, &[]),
    }
}

fn place_of(text: &[u8], separator: u8) -> Option<usize>
    ensures place { result ≡ place_of separator text.now }
    ensures within { IfSome result (λ place. place < length text.now) }
{
    text.iter().position(|c| *c == separator)
}

fn byte(word: &[u8]) -> Option<u8>
    ensures { result ≡ at_most 255 (number word.now) }
{
    Some(limited(word, 255)? as u8)
}

/// The number that a word stands for, where it is no more than this.
fn limited(word: &[u8], most: u64) -> Option<u64>
    ensures value { result ≡ at_most most (number word.now) }
    ensures within { IfSome result (λ n. n ≤ most) }
{
    let n = number(word)?;
    if n <= most { Some(n) } else { None }
}
