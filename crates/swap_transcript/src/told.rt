//! An entry as a line prints it.
ghost use Rattle.std.specs.Prelude.{◌≡◌, length};
ghost use Rattle.std.specs.Option.{option_map};
ghost use Rattle.swap_transcript.specs.Readers.{by_rows};
ghost use Rattle.swap_transcript.specs.Told.{named_word, named_at, origin_rows, out_at, in_at, fault_out_at, fault_in_at, fault_rows, did_rows, sent_by, not_sent, sent_of, entry_of};
ghost use Rattle.swap_transcript.specs.Spelled.{with_bytes, shown_with};

use super::pages::PageRead;
use super::readers::{small_at, wide_at, word_at};
use swap_base::{CallKind, EntryNo, Lender, Origin, Page};
use swap_record::Op;
use swap_script::forms::{is_word, small};
use swap_script::text::Words;

/// What a call did to which page; the page's bytes stand beside it.
#[derive(Clone, Copy)]
pub struct Did {
    pub page: Page,
    pub op: Op,
}

/// An entry with its printed number, and the lender that a page-out was sent to; the page's bytes
/// stand beside it.
#[derive(Clone, Copy)]
pub struct Shown {
    pub no: EntryNo,
    pub page: Page,
    pub op: Op,
    pub sent: Option<Lender>,
}

fn named_word(word: &[u8]) -> Option<Option<EntryNo>>
    ensures { result ≡ named_word word.now }
{
    if is_word(word, b"none") {
        Some(None)
    } else {
        Some(Some(EntryNo(small(word)?)))
    }
}

fn named_at(words: &mut Words<'_>) -> Option<Option<EntryNo>>
    ensures { option_map (λ named. (named, words.new)) result ≡ named_at words.old }
{
    named_word(words.next()?)
}

fn origin_at(words: &mut Words<'_>) -> Option<Origin>
    ensures { option_map (λ origin. (origin, words.new)) result ≡ by_rows origin_rows words.old }
{
    let first = words.next()?;
    if is_word(first, b"zero") {
        Some(Origin::Zero)
    } else if is_word(first, b"queue") {
        Some(Origin::Queue)
    } else if is_word(first, b"disk") {
        Some(Origin::Disk)
    } else if is_word(first, b"lender") {
        Some(Origin::Lender(Lender(small_at(words)?)))
    } else {
        None
    }
}

fn out_at(words: &mut Words<'_>, bytes: &mut PageRead) -> Option<Did>
    ensures did { option_map (λ did. (with_bytes bytes.new did, words.new)) result
        ≡ out_at (length bytes.old) words.old }
    ensures size { length bytes.new ≡ length bytes.old }
{
    let page = Page(small_at(words)?);
    bytes.read_at(words)?;
    let op = Op::PageOut;
    Some(Did { page, op })
}

fn in_at(words: &mut Words<'_>, bytes: &mut PageRead) -> Option<Did>
    ensures did { option_map (λ did. (with_bytes bytes.new did, words.new)) result
        ≡ in_at (length bytes.old) words.old }
    ensures size { length bytes.new ≡ length bytes.old }
{
    let page = Page(small_at(words)?);
    word_at(b"of", words)?;
    let named = named_at(words)?;
    let origin = origin_at(words)?;
    bytes.read_at(words)?;
    let op = Op::PageIn { named, origin };
    Some(Did { page, op })
}

fn fault_out_at(words: &mut Words<'_>, bytes: &mut PageRead) -> Option<Did>
    ensures did { option_map (λ did. (with_bytes bytes.new did, words.new)) result
        ≡ fault_out_at (length bytes.old) words.old }
    ensures size { length bytes.new ≡ length bytes.old }
{
    let page = Page(small_at(words)?);
    let since = wide_at(words)?;
    let at = wide_at(words)?;
    bytes.read_at(words)?;
    let kind = CallKind::PageOut;
    let op = Op::Failed { kind, since, at };
    Some(Did { page, op })
}

fn fault_in_at(words: &mut Words<'_>, bytes: &mut PageRead) -> Option<Did>
    ensures did { option_map (λ did. (with_bytes bytes.new did, words.new)) result
        ≡ fault_in_at (length bytes.old) words.old }
    ensures size { length bytes.new ≡ length bytes.old }
{
    let page = Page(small_at(words)?);
    let since = wide_at(words)?;
    let at = wide_at(words)?;
    bytes.clear();
    let kind = CallKind::PageIn;
    let op = Op::Failed { kind, since, at };
    Some(Did { page, op })
}

fn fault_at(words: &mut Words<'_>, bytes: &mut PageRead) -> Option<Did>
    ensures did { option_map (λ did. (with_bytes bytes.new did, words.new)) result
        ≡ by_rows (fault_rows (length bytes.old)) words.old }
    ensures size { length bytes.new ≡ length bytes.old }
{
    let first = words.next()?;
    if is_word(first, b"out") {
        fault_out_at(words, bytes)
    } else if is_word(first, b"in") {
        fault_in_at(words, bytes)
    } else {
        None
    }
}

fn did_at(words: &mut Words<'_>, bytes: &mut PageRead) -> Option<Did>
    ensures did { option_map (λ did. (with_bytes bytes.new did, words.new)) result
        ≡ by_rows (did_rows (length bytes.old)) words.old }
    ensures size { length bytes.new ≡ length bytes.old }
{
    let first = words.next()?;
    if is_word(first, b"out") {
        out_at(words, bytes)
    } else if is_word(first, b"in") {
        in_at(words, bytes)
    } else if is_word(first, b"fault") {
        fault_at(words, bytes)
    } else {
        None
    }
}

/// The lender that a page-out was sent to, if it was sent to one: the last words of a line.
fn sent_by(mut words: Words<'_>) -> Option<Option<Lender>>
    ensures { result ≡ sent_by words.entry }
{
    let Some(first) = words.next() else {
        return Some(None);
    };
    let lender = words.one()?;
    if is_word(first, b"to") {
        Some(Some(Lender(small(lender)?)))
    } else {
        None
    }
}

fn sent_of(op: Op, words: Words<'_>) -> Option<Option<Lender>>
    ensures { result ≡ sent_of op words.entry }
{
    if matches!(op, Op::PageOut) {
        sent_by(words)
    } else {
        words.none()?;
        Some(None)
    }
}

/// An entry, behind its first word.
pub fn entry_of(mut words: Words<'_>, bytes: &mut PageRead) -> Option<Shown>
    ensures entry { option_map (shown_with bytes.new) result
        ≡ entry_of (length bytes.old) words.entry }
    ensures size { length bytes.new ≡ length bytes.old }
{
    let no = EntryNo(small_at(&mut words)?);
    let Did { page, op } = did_at(&mut words, bytes)?;
    let sent = sent_of(op, words)?;
    Some(Shown { no, page, op, sent })
}
