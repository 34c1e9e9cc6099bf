//! The lines of a transcript, one after another.
ghost use Rattle.std.specs.Prelude.{◌≡◌, ℕ, List, true, ◌+◌, ◌<◌, ◌≤◌, length, IfOk, IfSome, OnOk, Ok, Err};
ghost use Rattle.std.specs.Option.{option_map};
ghost use Rattle.swap_base.specs.Sizes.{first_beyond};
ghost use Rattle.swap_script.specs.Lines.{words_of};
ghost use Rattle.swap_script.specs.Reading.{end_of, caller_of};
ghost use Rattle.swap_transcript.specs.Spelled.{shown_with, told_with};
ghost use Rattle.swap_transcript.specs.Steps.{above_of, pair_with, StepGives, LinesGive, EndGives, RecordGives};
ghost use Rattle.swap_transcript.specs.Transcripts.{pair_of, nothing_above, entries_in, count_pair, told_page, seen_page, tells_page, tests, check_pair, end_rest, counts, end_number, ended_at, pairs_from, transcript, enter_shown, with_told, no_entries, judged_in, judging, Gives};

use super::TranscriptRefused;
use super::events::event_at;
use super::pages::PageRead;
use super::readers::word_at;
use super::results::{Told, told_of};
use super::told::Shown;
use std::alloc::Global;
use swap_base::{Caller, Geometry, NoMemory, Page};
use swap_io::number;
use swap_record::{Op, Record};
use swap_script::faults::{caller_of, has_caller, has_page};
use swap_script::forms::{geometry_line, is_word};
use swap_script::text::{Kept, Place, Words, line_count};
use swap_script::{CALL_BYTES, EVENT_LIMIT, ScriptRefused, TEXT_LIMIT, Why, front_of};
use swap_wire::{Event, Seen};

/// How many events stand above a line, and how many of them have an entry.
#[derive(Clone, Copy)]
struct Counts {
    events: u32,
    entries: u32,
}

/// An event, and what its line tells of it. The bytes of an entry's page stand beside it.
#[derive(Clone, Copy)]
struct Pair {
    event: Event,
    told: Told,
}

/// The pair of a line, if the line has the form of one.
fn pair_of(geometry: &Geometry, line: &[u8], bytes: &mut PageRead) -> Option<Pair>
    requires { length bytes.old ≡ geometry.now.page_bytes }
    ensures pair { option_map (pair_with bytes.new) result
        ≡ pair_of geometry.now (words_of line.now) }
    ensures size { length bytes.new ≡ length bytes.old }
{
    let mut words = Words::of(line);
    let event = event_at(&mut words)?;
    word_at(b"=", &mut words)?;
    let told = told_of(geometry, event, words, bytes)?;
    Some(Pair { event, told })
}

fn entries_in(told: &Told) -> u32
    ensures count { (bytes : List ℕ) → result ≡ entries_in (told_with bytes told.now) }
    ensures few { result ≤ 1 }
{
    match told {
        Told::Saw(_) => 0,
        Told::Entered(_) => 1,
    }
}

fn seen_page(seen: &Seen) -> Option<Page>
    ensures { result ≡ seen_page seen.now }
{
    match *seen {
        Seen::Started { page, .. } | Seen::ReadCame { page } | Seen::ReadFailed { page } => Some(
            page,
        ),
        _ => None,
    }
}

fn told_page(told: &Told) -> Option<Page>
    ensures { (bytes : List ℕ) → result ≡ told_page (told_with bytes told.now) }
{
    match told {
        Told::Saw(seen) => seen_page(seen),
        Told::Entered(shown) => Some(shown.page),
    }
}

fn tells_page(geometry: &Geometry, told: &Told) -> bool
    ensures { (bytes : List ℕ) → result ≡ tells_page geometry.now (told_with bytes told.now) }
{
    match told_page(told) {
        None => true,
        Some(page) => page.0 < geometry.pages(),
    }
}

/// The first fault of a line that has a form.
fn fault_of(geometry: &Geometry, above: Counts, pair: &Pair) -> Option<Why>
    requires counts { above.entries ≤ above.events }
    requires within { above.events ≤ EVENT_LIMIT }
    ensures { (bytes : List ℕ)
        → result ≡ first_beyond (tests geometry.now (above_of above) (pair_with bytes pair.now)) }
{
    if !has_caller(geometry, pair.event) {
        return Some(Why::Caller);
    }
    if !has_page(geometry, pair.event) || !tells_page(geometry, &pair.told) {
        return Some(Why::Page);
    }
    let entries = above.entries + entries_in(&pair.told);
    if u64::from(entries) * u64::from(geometry.page_bytes()) > CALL_BYTES {
        return Some(Why::Calls);
    }
    if above.events >= EVENT_LIMIT {
        return Some(Why::Events);
    }
    None
}

/// Adds an entry, and marks it where its printed number isn't its place.
fn put_entry(
    history: &mut Record,
    caller: Caller,
    shown: &Shown,
    bytes: &[u8],
) -> Result<(), NoMemory>
    requires caller { caller.0 < 64 }
    requires bytes { length bytes.now ≡ history.old.page_bytes }
    ensures entry { OnOk result
        (judged_in history.new
        ≡ enter_shown (judged_in history.old) caller (shown_with bytes.now shown.now)) }
    ensures size { history.new.page_bytes ≡ history.old.page_bytes }
{
    if history.reserve(1).is_err() {
        return Err(NoMemory);
    }
    let page = shown.page;
    let no = match shown.op {
        Op::PageOut => history.push_out(caller, page, bytes),
        Op::PageIn { named, origin } => history.push_in(caller, page, named, origin, bytes),
        Op::Failed { kind, since, at } => history.push_failed(caller, page, kind, since, at, bytes),
    };
    if no.0 != shown.no.0 {
        history.note(no);
    }
    Ok(())
}

fn put(history: &mut Record, event: Event, told: &Told, bytes: &[u8]) -> Result<(), NoMemory>
    requires caller { IfSome (caller_of event) (λ caller. caller.0 < 64) }
    requires bytes { length bytes.now ≡ history.old.page_bytes }
    ensures entry { OnOk result
        (judged_in history.new
        ≡ with_told (judged_in history.old) event (told_with bytes.now told.now)) }
    ensures size { history.new.page_bytes ≡ history.old.page_bytes }
{
    let Told::Entered(shown) = told else {
        return Ok(());
    };
    let caller = caller_of(event).unwrap_or(Caller(0));
    put_entry(history, caller, shown, bytes)
}

/// A line of an event: its pair counts, and its entry is added.
fn read_line(
    geometry: &Geometry,
    above: Counts,
    history: &mut Record,
    bytes: &mut PageRead,
    line: u32,
    text: &[u8],
) -> Result<Counts, TranscriptRefused>
    requires size { length bytes.old ≡ geometry.now.page_bytes }
    requires same { history.old.page_bytes ≡ geometry.now.page_bytes }
    requires counts { above.entries ≤ above.events }
    requires within { above.events ≤ EVENT_LIMIT }
    ensures step { StepGives line
        (check_pair geometry.now (above_of above) (pair_of geometry.now (words_of text.now)))
        (above_of above) (judged_in history.old) (judged_in history.new) result }
    ensures size { length bytes.new ≡ length bytes.old }
    ensures same { history.new.page_bytes ≡ history.old.page_bytes }
    ensures counts { IfOk result
        (λ counts. (counts.entries ≤ counts.events) × (counts.events ≤ EVENT_LIMIT)) }
{
    geometry.limits();
    let Some(pair) = pair_of(geometry, text, bytes) else {
        return Err(TranscriptRefused::Line(ScriptRefused {
            line,
            why: Why::Form,
        }));
    };
    if let Some(why) = fault_of(geometry, above, &pair) {
        return Err(TranscriptRefused::Line(ScriptRefused { line, why }));
    }
    if put(history, pair.event, &pair.told, bytes.bytes()).is_err() {
        return Err(TranscriptRefused::NoMemory);
    }
    Ok(Counts {
        events: above.events + 1,
        entries: above.entries + entries_in(&pair.told),
    })
}

/// The words behind the first of an `end` line, if a line is one.
fn end_rest<'t>(line: &'t [u8]) -> Option<Words<'t>>
    ensures { result ≡ end_rest (words_of line.now) }
{
    let mut words = Words::of(line);
    let first = words.next()?;
    if is_word(first, b"end") {
        Some(words)
    } else {
        None
    }
}

fn end_number(words: Words<'_>) -> Option<u64>
    ensures { result ≡ end_number words.entry }
{
    number(words.one()?)
}

/// Why an `end` line is at fault, if it is.
fn end_fault(entries: u32, words: Words<'_>) -> Option<Why>
    ensures { result ≡ counts entries (end_number words.entry) }
{
    let Some(n) = end_number(words) else {
        return Some(Why::Form);
    };
    if n == u64::from(entries) {
        None
    } else {
        Some(Why::End)
    }
}

/// An `end` line, and no line behind it.
fn read_end(line: u32, fault: Option<Why>, mut place: Place<'_>) -> Result<(), ScriptRefused>
    ensures { EndGives (ended_at line fault place.entry) result }
{
    if let Some(why) = fault {
        return Err(ScriptRefused { line, why });
    }
    match place.next() {
        None => Ok(()),
        Some(kept) => Err(ScriptRefused {
            line: kept.line,
            why: Why::Form,
        }),
    }
}

/// The lines behind the lenders, which are the last of a text.
fn read_lines(
    geometry: &Geometry,
    whole: &[u8],
    history: &mut Record,
    bytes: &mut PageRead,
    mut place: Place<'_>,
) -> Result<(), TranscriptRefused>
    requires text { length whole.now ≤ TEXT_LIMIT }
    requires size { length bytes.old ≡ geometry.now.page_bytes }
    requires same { history.old.page_bytes ≡ geometry.now.page_bytes }
    ensures lines { LinesGive
        (judging (judged_in history.old)
        (pairs_from geometry.now (end_of whole.now) nothing_above place.entry))
        (judged_in history.new) result }
    ensures same { history.new.page_bytes ≡ history.old.page_bytes }
{
    let mut counts = Counts {
        events: 0,
        entries: 0,
    };
    'lines: while let Some(Kept { line, text }) = place.next() {
        if let Some(words) = end_rest(text) {
            let fault = end_fault(counts.entries, words);
            return match read_end(line, fault, place) {
                Ok(()) => Ok(()),
                Err(refused) => Err(TranscriptRefused::Line(refused)),
            };
        }
        counts = match read_line(geometry, counts, history, bytes, line, text) {
            Ok(counts) => counts,
            Err(refused) => return Err(refused),
        };
    }
    Err(TranscriptRefused::Line(ScriptRefused {
        line: line_count(whole) + 1,
        why: Why::End,
    }))
}

/// The history of the lines from a place on.
fn read_record(
    alloc: Global,
    geometry: &Geometry,
    text: &[u8],
    place: Place<'_>,
) -> Result<Record, TranscriptRefused>
    requires { length text.now ≤ TEXT_LIMIT }
    ensures { RecordGives geometry.now.page_bytes
        (judging no_entries
        (pairs_from geometry.now (end_of text.now) nothing_above place.entry))
        result }
{
    geometry.limits();
    let Ok(mut bytes) = PageRead::make(alloc, geometry) else {
        return Err(TranscriptRefused::NoMemory);
    };
    let mut history = Record::make(alloc, geometry.page_bytes());
    match read_lines(geometry, text, &mut history, &mut bytes, place) {
        Ok(()) => Ok(history),
        Err(refused) => Err(refused),
    }
}

/// Reads a text of at most `TEXT_LIMIT` bytes as a transcript: a geometry line, lender lines, lines
/// of events with what was seen of each, and the `end` line with the number of entries, where empty
/// lines and those that begin with `#` are skipped. The history has the entries in the order of
/// their lines; where a printed number isn't its place it is marked.
/// Else the first line at fault is named, with that line's first fault; a text that is over without
/// an `end` line is refused at one more than its number of lines.
pub fn read_transcript(alloc: Global, text: &[u8]) -> Result<Record, TranscriptRefused>
    requires { length text.now ≤ TEXT_LIMIT }
    ensures { Gives (transcript text.now) result }
{
    let mut place = Place::of(text);
    let Some(header) = place.next() else {
        return Err(TranscriptRefused::Line(ScriptRefused {
            line: line_count(text) + 1,
            why: Why::Geometry,
        }));
    };
    let line = header.line;
    let geometry = match geometry_line(header.text) {
        Ok(geometry) => geometry,
        Err(why) => return Err(TranscriptRefused::Line(ScriptRefused { line, why })),
    };
    match front_of(&geometry, place) {
        Ok(front) => read_record(alloc, &geometry, text, front.place()),
        Err(refused) => Err(TranscriptRefused::Line(refused)),
    }
}
