//! A message, by its first word and its numbers.
ghost use Rattle.std.specs.Prelude.{◌≡◌};
ghost use Rattle.std.specs.Option.{option_map};
ghost use Rattle.swap_transcript.specs.Readers.{by_row};
ghost use Rattle.swap_transcript.specs.Messages.{msg_at, msg_rows, lender_rows};

use super::readers::{small_at, wide_at};
use swap_base::{Geometry, Lease, Slab};
use swap_script::forms::is_word;
use swap_script::text::Words;
use swap_wire::Msg;

/// A message of a lender, behind its first word.
fn lender_msg(first: &[u8], words: &mut Words<'_>) -> Option<Msg>
    ensures { option_map (λ msg. (msg, words.new)) result ≡ by_row lender_rows first.now words.old }
{
    if is_word(first, b"room") {
        let slab = Slab(small_at(words)?);
        let free = small_at(words)?;
        Some(Msg::Room { slab, free })
    } else if is_word(first, b"lent") {
        let slab = Slab(small_at(words)?);
        let lease = Lease(small_at(words)?);
        Some(Msg::Lent { slab, lease })
    } else if is_word(first, b"refused") {
        let slab = Slab(small_at(words)?);
        Some(Msg::Refused { slab })
    } else if is_word(first, b"wrote") {
        let lease = Lease(small_at(words)?);
        let place = small_at(words)?;
        Some(Msg::Wrote { lease, place })
    } else if is_word(first, b"page") {
        let lease = Lease(small_at(words)?);
        let place = small_at(words)?;
        Some(Msg::PageIs { lease, place })
    } else if is_word(first, b"ask") {
        let lease = Lease(small_at(words)?);
        Some(Msg::AskRates { lease })
    } else if is_word(first, b"evict") {
        let lease = Lease(small_at(words)?);
        Some(Msg::Evict { lease })
    } else {
        None
    }
}

/// A message, behind its first word.
pub fn msg_behind(first: &[u8], geometry: &Geometry, words: &mut Words<'_>) -> Option<Msg>
    ensures { option_map (λ msg. (msg, words.new)) result
        ≡ by_row (msg_rows geometry.now) first.now words.old }
{
    if is_word(first, b"hello") {
        let version = small_at(words)?;
        Some(Msg::Hello {
            version,
            page_bytes: geometry.page_bytes(),
            pages_per_slab: geometry.pages_per_slab(),
        })
    } else if is_word(first, b"query") {
        let slab = Slab(small_at(words)?);
        Some(Msg::Query { slab })
    } else if is_word(first, b"borrow") {
        let slab = Slab(small_at(words)?);
        Some(Msg::Borrow { slab })
    } else if is_word(first, b"write") {
        let lease = Lease(small_at(words)?);
        let place = small_at(words)?;
        Some(Msg::Write { lease, place })
    } else if is_word(first, b"read") {
        let lease = Lease(small_at(words)?);
        let place = small_at(words)?;
        Some(Msg::Read { lease, place })
    } else if is_word(first, b"rates") {
        let lease = Lease(small_at(words)?);
        let value = wide_at(words)?;
        Some(Msg::Rates { lease, value })
    } else if is_word(first, b"done") {
        let lease = Lease(small_at(words)?);
        Some(Msg::Done { lease })
    } else {
        lender_msg(first, words)
    }
}

/// A message at the front of the words.
pub fn msg_at(geometry: &Geometry, words: &mut Words<'_>) -> Option<Msg>
    ensures { option_map (λ msg. (msg, words.new)) result ≡ msg_at geometry.now words.old }
{
    msg_behind(words.next()?, geometry, words)
}
