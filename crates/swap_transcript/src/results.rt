//! The results that each kind of event may have.
ghost use Rattle.std.specs.Prelude.{◌≡◌, ℕ, List, ◌∷◌, length, true, false};
ghost use Rattle.std.specs.Option.{option_map};
ghost use Rattle.swap_base.specs.declared.DiskWhich.TheVariants as which;
ghost use Rattle.swap_transcript.specs.Readers.{row, by_row, by_row_or};
ghost use Rattle.swap_transcript.specs.Results.{last_number, nothing_rows, out_rows, in_rows, finish_rows, start_rows, disk_rows, tick_rows, map_rows, connect_rows, give_rows, take_rows, bare_result, via_of, wait_of, again_of, second_of, asked_of, hosted_behind, hosted_of, rounded_of, took_of, gave_of, seen_of, agrees, entered_at, told_of};
ghost use Rattle.swap_transcript.specs.Spelled.{shown_with, told_with};

use super::gave::{gave_behind, slots_of};
use super::messages::msg_behind;
use super::pages::PageRead;
use super::readers::{small_at, word_at};
use super::told::{Shown, entry_of};
use swap_base::{Caller, DiskWhich, EntryNo, Geometry, Lender, Link, Page, Slab, Via};
use swap_io::number;
use swap_record::Op;
use swap_script::forms::{is_word, small};
use swap_script::text::Words;
use swap_wire::{Event, Seen};

/// What a line tells of its event. The bytes of an entry's page stand beside it.
#[derive(Clone, Copy)]
pub enum Told {
    Saw(Seen),
    Entered(Shown),
}

fn bare(seen: Seen, words: Words<'_>) -> Option<Seen>
    ensures { result ≡ bare_result seen words.entry }
{
    words.none()?;
    Some(seen)
}

/// A number that stands last.
fn last_number(mut words: Words<'_>) -> Option<u32>
    ensures { result ≡ last_number words.entry }
{
    let n = small_at(&mut words)?;
    words.none()?;
    Some(n)
}

fn via_of(mut words: Words<'_>) -> Option<Via>
    ensures { result ≡ via_of words.entry }
{
    let first = words.next()?;
    if is_word(first, b"disk") {
        words.none()?;
        Some(Via::Disk)
    } else if is_word(first, b"lender") {
        let lender = Lender(small_at(&mut words)?);
        words.none()?;
        Some(Via::Lender(lender))
    } else {
        None
    }
}

fn wait_of(words: Words<'_>) -> Option<Seen>
    ensures { result ≡ wait_of words.entry }
{
    let via = via_of(words)?;
    Some(Seen::Wait { via })
}

fn again_of(words: Words<'_>) -> Option<Seen>
    ensures { result ≡ again_of words.entry }
{
    let via = via_of(words)?;
    Some(Seen::Again { via })
}

fn second_of(slab: Slab, first: Lender, mut words: Words<'_>) -> Option<Seen>
    ensures { result ≡ second_of slab.0 first.0 words.entry }
{
    let Some(word) = words.next() else {
        return Some(Seen::Asked {
            slab,
            first,
            second: None,
        });
    };
    let second = Some(Lender(small(word)?));
    words.none()?;
    Some(Seen::Asked {
        slab,
        first,
        second,
    })
}

fn asked_of(mut words: Words<'_>) -> Option<Seen>
    ensures { result ≡ asked_of words.entry }
{
    let slab = Slab(small_at(&mut words)?);
    let first = Lender(small_at(&mut words)?);
    second_of(slab, first, words)
}

fn hosted_behind(mean: u64, mut words: Words<'_>) -> Option<Seen>
    ensures { result ≡ hosted_behind mean words.entry }
{
    let Some(first) = words.next() else {
        return Some(Seen::Hosted { mean, asked: 0 });
    };
    if is_word(first, b"ask") {
        let asked = slots_of(words)?;
        Some(Seen::Hosted { mean, asked })
    } else {
        None
    }
}

fn hosted_of(word: &[u8], words: Words<'_>) -> Option<Seen>
    ensures { result ≡ hosted_of word.now words.entry }
{
    hosted_behind(number(word)?, words)
}

fn rounded_of(word: &[u8], mut words: Words<'_>) -> Option<Seen>
    ensures { result ≡ rounded_of word.now words.entry }
{
    let effects = small(word)?;
    word_at(b"mapped", &mut words)?;
    let mapped = small_at(&mut words)?;
    words.none()?;
    Some(Seen::Rounded { effects, mapped })
}

fn took_of(geometry: &Geometry, word: &[u8], mut words: Words<'_>) -> Option<Seen>
    ensures { result ≡ took_of geometry.now word.now words.entry }
{
    let msg = msg_behind(word, geometry, &mut words)?;
    words.none()?;
    Some(Seen::Took { msg })
}

fn gave_of(geometry: &Geometry, word: &[u8], mut words: Words<'_>) -> Option<Seen>
    ensures { result ≡ gave_of geometry.now word.now words.entry }
{
    let msg = msg_behind(word, geometry, &mut words)?;
    gave_behind(geometry, msg, words)
}

/// The result that is printed as a dash.
fn nothing_of(first: &[u8], words: Words<'_>) -> Option<Seen>
    ensures { result ≡ by_row nothing_rows first.now words.entry }
{
    if is_word(first, b"-") {
        bare(Seen::Nothing, words)
    } else {
        None
    }
}

fn out_seen(first: &[u8], words: Words<'_>) -> Option<Seen>
    ensures { result ≡ by_row out_rows first.now words.entry }
{
    if is_word(first, b"room") {
        bare(Seen::Room, words)
    } else if is_word(first, b"busy") {
        bare(Seen::Busy, words)
    } else {
        None
    }
}

fn in_seen(first: &[u8], words: Words<'_>) -> Option<Seen>
    ensures { result ≡ by_row in_rows first.now words.entry }
{
    if is_word(first, b"wait") {
        wait_of(words)
    } else if is_word(first, b"busy") {
        bare(Seen::Busy, words)
    } else {
        None
    }
}

fn finish_seen(first: &[u8], words: Words<'_>) -> Option<Seen>
    ensures { result ≡ by_row finish_rows first.now words.entry }
{
    if is_word(first, b"idle") {
        bare(Seen::Idle, words)
    } else if is_word(first, b"wait") {
        wait_of(words)
    } else if is_word(first, b"room") {
        bare(Seen::Room, words)
    } else if is_word(first, b"again") {
        again_of(words)
    } else {
        None
    }
}

fn start_seen(first: &[u8], mut words: Words<'_>) -> Option<Seen>
    ensures { result ≡ by_row start_rows first.now words.entry }
{
    if is_word(first, b"write") {
        let page = Page(small_at(&mut words)?);
        let entry = EntryNo(small_at(&mut words)?);
        words.none()?;
        Some(Seen::Started { page, entry })
    } else {
        nothing_of(first, words)
    }
}

fn written_seen(first: &[u8], words: Words<'_>, page: Page) -> Option<Seen>
    ensures { result ≡ by_row (disk_rows (which.Write page) true) first.now words.entry }
{
    if is_word(first, b"written") {
        let entry = EntryNo(last_number(words)?);
        Some(Seen::Written { entry })
    } else {
        nothing_of(first, words)
    }
}

fn unwritten_seen(first: &[u8], words: Words<'_>, page: Page) -> Option<Seen>
    ensures { result ≡ by_row (disk_rows (which.Write page) false) first.now words.entry }
{
    if is_word(first, b"kept") {
        let entry = EntryNo(last_number(words)?);
        Some(Seen::WriteKept { entry })
    } else if is_word(first, b"dropped") {
        let entry = EntryNo(last_number(words)?);
        Some(Seen::WriteDropped { entry })
    } else {
        nothing_of(first, words)
    }
}

fn came_seen(first: &[u8], words: Words<'_>, caller: Caller) -> Option<Seen>
    ensures { result ≡ by_row (disk_rows (which.Read caller) true) first.now words.entry }
{
    if is_word(first, b"came") {
        let page = Page(last_number(words)?);
        Some(Seen::ReadCame { page })
    } else {
        nothing_of(first, words)
    }
}

fn failed_seen(first: &[u8], words: Words<'_>, caller: Caller) -> Option<Seen>
    ensures { result ≡ by_row (disk_rows (which.Read caller) false) first.now words.entry }
{
    if is_word(first, b"failed") {
        let page = Page(last_number(words)?);
        Some(Seen::ReadFailed { page })
    } else {
        nothing_of(first, words)
    }
}

fn disk_seen(which: DiskWhich, ok: bool, first: &[u8], words: Words<'_>) -> Option<Seen>
    ensures { result ≡ by_row (disk_rows which ok) first.now words.entry }
{
    match (which, ok) {
        (DiskWhich::Write(page), true) => written_seen(first, words, page),
        (DiskWhich::Write(page), false) => unwritten_seen(first, words, page),
        (DiskWhich::Read(caller), true) => came_seen(first, words, caller),
        (DiskWhich::Read(caller), false) => failed_seen(first, words, caller),
    }
}

fn tick_seen(first: &[u8], words: Words<'_>) -> Option<Seen>
    ensures { result ≡ by_row tick_rows first.now words.entry }
{
    if is_word(first, b"none") {
        bare(Seen::Ticked, words)
    } else if is_word(first, b"ask") {
        asked_of(words)
    } else {
        None
    }
}

fn connect_seen(first: &[u8], words: Words<'_>) -> Option<Seen>
    ensures { result ≡ by_row connect_rows first.now words.entry }
{
    if is_word(first, b"link") {
        let link = Link(last_number(words)?);
        Some(Seen::Linked { link })
    } else {
        nothing_of(first, words)
    }
}

fn give_seen(geometry: &Geometry, first: &[u8], words: Words<'_>) -> Option<Seen>
    ensures { result ≡ by_row_or give_rows (gave_of geometry.now) first.now words.entry }
{
    if is_word(first, b"end") {
        bare(Seen::GaveEnd, words)
    } else if is_word(first, b"-") {
        bare(Seen::Nothing, words)
    } else {
        gave_of(geometry, first, words)
    }
}

fn take_seen(geometry: &Geometry, first: &[u8], words: Words<'_>) -> Option<Seen>
    ensures { result ≡ by_row_or take_rows (took_of geometry.now) first.now words.entry }
{
    if is_word(first, b"lost") {
        bare(Seen::Lost, words)
    } else if is_word(first, b"lied") {
        bare(Seen::Lied, words)
    } else if is_word(first, b"-") {
        bare(Seen::Nothing, words)
    } else {
        took_of(geometry, first, words)
    }
}

fn host_seen(first: &[u8], words: Words<'_>) -> Option<Seen>
    ensures { result ≡ by_row_or nothing_rows hosted_of first.now words.entry }
{
    if is_word(first, b"-") {
        bare(Seen::Nothing, words)
    } else {
        hosted_of(first, words)
    }
}

/// A result of one word, or the dash.
fn word_or_nothing(name: &[u8], seen: Seen, first: &[u8], words: Words<'_>) -> Option<Seen>
    ensures { result
        ≡ by_row (row name.now (bare_result seen) ∷ nothing_rows) first.now words.entry }
{
    if is_word(first, name) {
        bare(seen, words)
    } else {
        nothing_of(first, words)
    }
}

/// What was seen of an event, if it wasn't an entry.
fn seen_of(geometry: &Geometry, event: Event, first: &[u8], words: Words<'_>) -> Option<Seen>
    ensures { result ≡ seen_of geometry.now event first.now words.entry }
{
    match event {
        Event::PageOut { .. } => out_seen(first, words),
        Event::PageIn { .. } => in_seen(first, words),
        Event::Finish { .. } => finish_seen(first, words),
        Event::Start => start_seen(first, words),
        Event::Disk { which, ok } => disk_seen(which, ok, first, words),
        Event::Tick { .. } => tick_seen(first, words),
        Event::Map { .. } => word_or_nothing(b"borrow", Seen::Borrowing, first, words),
        Event::Connect { .. } => connect_seen(first, words),
        Event::Give { .. } => give_seen(geometry, first, words),
        Event::Take { .. } => take_seen(geometry, first, words),
        Event::Cut { .. } => word_or_nothing(b"cut", Seen::Cut, first, words),
        Event::Crash { .. } => word_or_nothing(b"crashed", Seen::Crashed, first, words),
        Event::Host { .. } => host_seen(first, words),
        Event::Round { .. } => rounded_of(first, words),
    }
}

/// Whether an entry may answer an event: a call that begins, of its kind and its page, or one that
/// is finished.
fn agrees(event: Event, shown: &Shown) -> bool
    ensures { (bytes : List ℕ) → result ≡ agrees event (shown_with bytes shown.now) }
{
    match event {
        Event::PageOut { page, .. } => matches!(shown.op, Op::PageOut) && shown.page.0 == page.0,
        Event::PageIn { page, .. } => matches!(shown.op, Op::PageIn { .. })
            && shown.page.0 == page.0,
        Event::Finish { .. } => true,
        _ => false,
    }
}

/// What a line tells of an event, by the words behind the `=`.
pub fn told_of(
    geometry: &Geometry,
    event: Event,
    mut words: Words<'_>,
    bytes: &mut PageRead,
) -> Option<Told>
    requires { length bytes.old ≡ geometry.now.page_bytes }
    ensures told { option_map (told_with bytes.new) result
        ≡ told_of geometry.now event words.entry }
    ensures size { length bytes.new ≡ length bytes.old }
{
    let first = words.next()?;
    if !is_word(first, b"entry") {
        return Some(Told::Saw(seen_of(geometry, event, first, words)?));
    }
    let shown = entry_of(words, bytes)?;
    if agrees(event, &shown) {
        Some(Told::Entered(shown))
    } else {
        None
    }
}
