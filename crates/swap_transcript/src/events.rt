//! An event at the front of a line, by its words: those of a page-out end before its page.
ghost use Rattle.std.specs.Prelude.{◌≡◌};
ghost use Rattle.std.specs.Option.{option_map};
ghost use Rattle.swap_transcript.specs.Readers.{by_row, by_rows};
ghost use Rattle.swap_transcript.specs.Events.{ok_at, which_rows, disk_at, host_at, far_rows, event_rows, event_at};

use super::readers::{small_at, wide_at};
use swap_base::{Caller, DiskWhich, Lender, Page, Slab};
use swap_script::forms::is_word;
use swap_script::text::Words;
use swap_wire::Event;

fn ok_at(words: &mut Words<'_>) -> Option<bool>
    ensures { option_map (λ ok. (ok, words.new)) result ≡ ok_at words.old }
{
    match words.next()? {
        b"ok" => Some(true),
        b"bad" => Some(false),
        _ => None,
    }
}

fn which_at(words: &mut Words<'_>) -> Option<DiskWhich>
    ensures { option_map (λ which. (which, words.new)) result ≡ by_rows which_rows words.old }
{
    let first = words.next()?;
    if is_word(first, b"write") {
        Some(DiskWhich::Write(Page(small_at(words)?)))
    } else if is_word(first, b"read") {
        Some(DiskWhich::Read(Caller(small_at(words)?)))
    } else {
        None
    }
}

fn disk_at(words: &mut Words<'_>) -> Option<Event>
    ensures { option_map (λ event. (event, words.new)) result ≡ disk_at words.old }
{
    let which = which_at(words)?;
    let ok = ok_at(words)?;
    Some(Event::Disk { which, ok })
}

fn host_at(words: &mut Words<'_>) -> Option<Event>
    ensures { option_map (λ event. (event, words.new)) result ≡ host_at words.old }
{
    let lender = Lender(small_at(words)?);
    let used = small_at(words)?;
    let word = wide_at(words)?;
    Some(Event::Host { lender, used, word })
}

/// An event between the device and its lenders, behind its first word.
fn far_event(first: &[u8], words: &mut Words<'_>) -> Option<Event>
    ensures { option_map (λ event. (event, words.new)) result
        ≡ by_row far_rows first.now words.old }
{
    if is_word(first, b"map") {
        let slab = Slab(small_at(words)?);
        let lender = Lender(small_at(words)?);
        Some(Event::Map { slab, lender })
    } else if is_word(first, b"connect") {
        let lender = Lender(small_at(words)?);
        Some(Event::Connect { lender })
    } else if is_word(first, b"give") {
        let lender = Lender(small_at(words)?);
        Some(Event::Give { lender })
    } else if is_word(first, b"take") {
        let lender = Lender(small_at(words)?);
        Some(Event::Take { lender })
    } else if is_word(first, b"cut") {
        let lender = Lender(small_at(words)?);
        let to_lender = small_at(words)?;
        let to_device = small_at(words)?;
        Some(Event::Cut {
            lender,
            to_lender,
            to_device,
        })
    } else if is_word(first, b"crash") {
        let lender = Lender(small_at(words)?);
        Some(Event::Crash { lender })
    } else if is_word(first, b"host") {
        host_at(words)
    } else if is_word(first, b"round") {
        let word = wide_at(words)?;
        Some(Event::Round { word })
    } else {
        None
    }
}

/// An event at the front of the words.
pub fn event_at(words: &mut Words<'_>) -> Option<Event>
    ensures { option_map (λ event. (event, words.new)) result ≡ event_at words.old }
{
    let first = words.next()?;
    if is_word(first, b"out") {
        let caller = Caller(small_at(words)?);
        let page = Page(small_at(words)?);
        Some(Event::PageOut { caller, page })
    } else if is_word(first, b"in") {
        let caller = Caller(small_at(words)?);
        let page = Page(small_at(words)?);
        Some(Event::PageIn { caller, page })
    } else if is_word(first, b"finish") {
        let caller = Caller(small_at(words)?);
        Some(Event::Finish { caller })
    } else if is_word(first, b"start") {
        Some(Event::Start)
    } else if is_word(first, b"disk") {
        disk_at(words)
    } else if is_word(first, b"tick") {
        let word = wide_at(words)?;
        Some(Event::Tick { word })
    } else {
        far_event(first, words)
    }
}
