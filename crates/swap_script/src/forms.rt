//! The forms of lines: their words, and what they give.
ghost use Rattle.std.specs.Prelude.{◌≡◌, true, false, IfSome, is_some};
ghost use Rattle.std.specs.Option.{option_map};
ghost use Rattle.swap_io.specs.Words.{piece_of};
ghost use Rattle.swap_script.specs.Lines.{words_of, is_word};
ghost use Rattle.swap_script.specs.Forms.{small_number, caller_word, page_word, slab_word, lender_word, ok_word, which_words, page_out, page_in, out_line, in_line, finish_line, start_line, disk_line, map_line, connect_line, give_line, take_line, crash_line, cut_line, host_line, tick_line, round_line, by_row, operator_rows, call_line, event_line, trace_line, line_of, sizes_words};
ghost use Rattle.swap_script.specs.Reading.{geometry_line, within_limits, is_out};
ghost use Rattle.swap_script.specs.Spelled.{spelled_line, as_within, first_caller, is_caller};

use super::text::Words;
use super::{Grammar, Why};
use swap_base::{Caller, DiskWhich, FieldRefused, Geometry, Lender, Page, Slab};
use swap_io::{is_hex, number};
use swap_wire::Event;

/// An event line as it is spelled; `hex` is the last word of an `out` line, else empty.
#[derive(Clone, Copy)]
pub struct Line<'t> {
    pub event: Event,
    pub hex: &'t [u8],
}

pub fn is_word(word: &[u8], name: &[u8]) -> bool
    ensures { result ≡ is_word name.now word.now }
{
    name == word
}

/// A number below 2^32.
pub fn small(word: &[u8]) -> Option<u32>
    ensures { result ≡ small_number word.now }
{
    let n = number(word)?;
    u32::try_from(n).ok()
}

pub fn caller_word(word: &[u8]) -> Option<Caller>
    ensures { result ≡ caller_word word.now }
{
    Some(Caller(small(word)?))
}

pub fn page_word(word: &[u8]) -> Option<Page>
    ensures { result ≡ page_word word.now }
{
    Some(Page(small(word)?))
}

pub fn slab_word(word: &[u8]) -> Option<Slab>
    ensures { result ≡ slab_word word.now }
{
    Some(Slab(small(word)?))
}

pub fn lender_word(word: &[u8]) -> Option<Lender>
    ensures { result ≡ lender_word word.now }
{
    Some(Lender(small(word)?))
}

fn ok_word(how: &[u8]) -> Option<bool>
    ensures { result ≡ ok_word how.now }
{
    match how {
        b"ok" => Some(true),
        b"bad" => Some(false),
        _ => None,
    }
}

fn which_words(what: &[u8], n: &[u8]) -> Option<DiskWhich>
    ensures { result ≡ which_words what.now n.now }
{
    match what {
        b"write" => Some(DiskWhich::Write(page_word(n)?)),
        b"read" => Some(DiskWhich::Read(caller_word(n)?)),
        _ => None,
    }
}

fn page_out<'t>(caller: Caller, p: &'t [u8], hex: &'t [u8]) -> Option<Line<'t>>
    ensures line { option_map spelled_line result ≡ page_out caller p.now hex.now }
    ensures hex { IfSome result (λ line. is_some (piece_of line.hex.now) ≡ true) }
{
    let page = page_word(p)?;
    if !is_hex(hex) {
        return None;
    }
    let event = Event::PageOut { caller, page };
    Some(Line { event, hex })
}

fn page_in<'t>(caller: Caller, p: &'t [u8]) -> Option<Line<'t>>
    ensures line { option_map spelled_line result ≡ page_in caller p.now }
    ensures plain { IfSome result (λ line. is_out line.event ≡ false) }
{
    let page = page_word(p)?;
    let event = Event::PageIn { caller, page };
    Some(Line { event, hex: &[] })
}

fn out_line<'t>(words: Words<'t>) -> Option<Line<'t>>
    ensures line { option_map spelled_line result ≡ out_line words.entry }
    ensures hex { IfSome result (λ line. is_some (piece_of line.hex.now) ≡ true) }
{
    let (c, p, hex) = words.three()?;
    page_out(caller_word(c)?, p, hex)
}

fn in_line<'t>(words: Words<'t>) -> Option<Line<'t>>
    ensures line { option_map spelled_line result ≡ in_line words.entry }
    ensures plain { IfSome result (λ line. is_out line.event ≡ false) }
{
    let (c, p) = words.two()?;
    page_in(caller_word(c)?, p)
}

fn finish_line<'t>(words: Words<'t>) -> Option<Line<'t>>
    ensures line { option_map spelled_line result ≡ finish_line words.entry }
    ensures plain { IfSome result (λ line. is_out line.event ≡ false) }
{
    let caller = caller_word(words.one()?)?;
    let event = Event::Finish { caller };
    Some(Line { event, hex: &[] })
}

fn start_line<'t>(words: Words<'t>) -> Option<Line<'t>>
    ensures line { option_map spelled_line result ≡ start_line words.entry }
    ensures plain { IfSome result (λ line. is_out line.event ≡ false) }
{
    words.none()?;
    Some(Line {
        event: Event::Start,
        hex: &[],
    })
}

fn disk_line<'t>(words: Words<'t>) -> Option<Line<'t>>
    ensures line { option_map spelled_line result ≡ disk_line words.entry }
    ensures plain { IfSome result (λ line. is_out line.event ≡ false) }
{
    let (what, n, how) = words.three()?;
    let which = which_words(what, n)?;
    let ok = ok_word(how)?;
    let event = Event::Disk { which, ok };
    Some(Line { event, hex: &[] })
}

fn map_line<'t>(words: Words<'t>) -> Option<Line<'t>>
    ensures line { option_map spelled_line result ≡ map_line words.entry }
    ensures plain { IfSome result (λ line. is_out line.event ≡ false) }
{
    let (s, l) = words.two()?;
    let slab = slab_word(s)?;
    let lender = lender_word(l)?;
    let event = Event::Map { slab, lender };
    Some(Line { event, hex: &[] })
}

fn connect_line<'t>(words: Words<'t>) -> Option<Line<'t>>
    ensures line { option_map spelled_line result ≡ connect_line words.entry }
    ensures plain { IfSome result (λ line. is_out line.event ≡ false) }
{
    let lender = lender_word(words.one()?)?;
    let event = Event::Connect { lender };
    Some(Line { event, hex: &[] })
}

fn give_line<'t>(words: Words<'t>) -> Option<Line<'t>>
    ensures line { option_map spelled_line result ≡ give_line words.entry }
    ensures plain { IfSome result (λ line. is_out line.event ≡ false) }
{
    let lender = lender_word(words.one()?)?;
    let event = Event::Give { lender };
    Some(Line { event, hex: &[] })
}

fn take_line<'t>(words: Words<'t>) -> Option<Line<'t>>
    ensures line { option_map spelled_line result ≡ take_line words.entry }
    ensures plain { IfSome result (λ line. is_out line.event ≡ false) }
{
    let lender = lender_word(words.one()?)?;
    let event = Event::Take { lender };
    Some(Line { event, hex: &[] })
}

fn crash_line<'t>(words: Words<'t>) -> Option<Line<'t>>
    ensures line { option_map spelled_line result ≡ crash_line words.entry }
    ensures plain { IfSome result (λ line. is_out line.event ≡ false) }
{
    let lender = lender_word(words.one()?)?;
    let event = Event::Crash { lender };
    Some(Line { event, hex: &[] })
}

fn cut_line<'t>(words: Words<'t>) -> Option<Line<'t>>
    ensures line { option_map spelled_line result ≡ cut_line words.entry }
    ensures plain { IfSome result (λ line. is_out line.event ≡ false) }
{
    let (l, a, b) = words.three()?;
    let lender = lender_word(l)?;
    let to_lender = small(a)?;
    let to_device = small(b)?;
    let event = Event::Cut {
        lender,
        to_lender,
        to_device,
    };
    Some(Line { event, hex: &[] })
}

fn host_line<'t>(words: Words<'t>) -> Option<Line<'t>>
    ensures line { option_map spelled_line result ≡ host_line words.entry }
    ensures plain { IfSome result (λ line. is_out line.event ≡ false) }
{
    let (l, u, w) = words.three()?;
    let lender = lender_word(l)?;
    let used = small(u)?;
    let word = number(w)?;
    let event = Event::Host { lender, used, word };
    Some(Line { event, hex: &[] })
}

fn tick_line<'t>(words: Words<'t>) -> Option<Line<'t>>
    ensures line { option_map spelled_line result ≡ tick_line words.entry }
    ensures plain { IfSome result (λ line. is_out line.event ≡ false) }
{
    let word = number(words.one()?)?;
    let event = Event::Tick { word };
    Some(Line { event, hex: &[] })
}

fn round_line<'t>(words: Words<'t>) -> Option<Line<'t>>
    ensures line { option_map spelled_line result ≡ round_line words.entry }
    ensures plain { IfSome result (λ line. is_out line.event ≡ false) }
{
    let word = number(words.one()?)?;
    let event = Event::Round { word };
    Some(Line { event, hex: &[] })
}

/// An operator's line, by its first word and the others.
fn operator_line<'t>(first: &[u8], words: Words<'t>) -> Option<Line<'t>>
    ensures line { option_map spelled_line result ≡ by_row operator_rows first.now words.entry }
    ensures plain { IfSome result (λ line. is_out line.event ≡ false) }
{
    if is_word(first, b"map") {
        map_line(words)
    } else if is_word(first, b"connect") {
        connect_line(words)
    } else if is_word(first, b"cut") {
        cut_line(words)
    } else if is_word(first, b"crash") {
        crash_line(words)
    } else if is_word(first, b"host") {
        host_line(words)
    } else if is_word(first, b"round") {
        round_line(words)
    } else {
        None
    }
}

/// A call of a trace, by the words behind its caller.
fn call_line<'t>(caller: Caller, mut words: Words<'t>) -> Option<Line<'t>>
    ensures line { option_map spelled_line result ≡ call_line caller words.entry }
    ensures hex { IfSome result
        (λ line. is_out line.event ≡ true → is_some (piece_of line.hex.now) ≡ true) }
{
    let kind = words.next()?;
    if is_word(kind, b"out") {
        let (p, hex) = words.two()?;
        page_out(caller, p, hex)
    } else if is_word(kind, b"in") {
        page_in(caller, words.one()?)
    } else {
        None
    }
}

/// The event of a script's line, if the line has the form of one.
fn event_line<'t>(line: &'t [u8]) -> Option<Line<'t>>
    ensures line { option_map spelled_line result ≡ event_line (words_of line.now) }
    ensures hex { IfSome result
        (λ line. is_out line.event ≡ true → is_some (piece_of line.hex.now) ≡ true) }
{
    let mut words = Words::of(line);
    let first = words.next()?;
    if is_word(first, b"out") {
        out_line(words)
    } else if is_word(first, b"in") {
        in_line(words)
    } else if is_word(first, b"finish") {
        finish_line(words)
    } else if is_word(first, b"start") {
        start_line(words)
    } else if is_word(first, b"disk") {
        disk_line(words)
    } else if is_word(first, b"tick") {
        tick_line(words)
    } else if is_word(first, b"give") {
        give_line(words)
    } else if is_word(first, b"take") {
        take_line(words)
    } else {
        operator_line(first, words)
    }
}

/// The event of a trace's line, if the line has the form of one.
fn trace_line<'t>(line: &'t [u8]) -> Option<Line<'t>>
    ensures line { option_map spelled_line result ≡ trace_line (words_of line.now) }
    ensures hex { IfSome result
        (λ line. is_out line.event ≡ true → is_some (piece_of line.hex.now) ≡ true) }
{
    let mut words = Words::of(line);
    let first = words.next()?;
    match caller_word(first) {
        Some(caller) => call_line(caller, words),
        None => operator_line(first, words),
    }
}

/// The event of a line, if the line has the form of one.
pub fn line_of<'t>(grammar: Grammar, line: &'t [u8]) -> Option<Line<'t>>
    ensures line { option_map spelled_line result ≡ line_of grammar (words_of line.now) }
    ensures hex { IfSome result
        (λ line. is_out line.event ≡ true → is_some (piece_of line.hex.now) ≡ true) }
{
    match grammar {
        Grammar::Script => event_line(line),
        Grammar::Trace { .. } => trace_line(line),
    }
}

/// Whether a trace's line begins with a caller, as a call does.
pub fn is_call(line: &[u8]) -> bool
    ensures { result ≡ is_some (first_caller (words_of line.now)) }
{
    match Words::of(line).next() {
        Some(word) => caller_word(word).is_some(),
        None => false,
    }
}

/// Whether a trace's line begins with this caller.
pub fn begins_with(caller: Caller, line: &[u8]) -> bool
    ensures { result ≡ is_caller caller (first_caller (words_of line.now)) }
{
    match Words::of(line).next() {
        Some(word) => matches!(caller_word(word), Some(first) if first.0 == caller.0),
        None => false,
    }
}

/// The sizes that a geometry line gives behind its first word, or the first that is beyond its
/// limit.
fn sizes_words(words: Words<'_>) -> Option<Result<Geometry, FieldRefused>>
    ensures { option_map as_within result ≡ option_map within_limits (sizes_words words.entry) }
{
    let (a, b, c, d, e, f, g) = words.seven()?;
    let page_bytes = small(a)?;
    let pages_per_slab = small(b)?;
    let slabs = small(c)?;
    let queue = small(d)?;
    let callers = small(e)?;
    let window = small(f)?;
    let hot = small(g)?;
    Some(Geometry::checked(
        page_bytes,
        pages_per_slab,
        slabs,
        queue,
        callers,
        window,
        hot,
    ))
}

/// The geometry of a line.
#[tactic(auto, using(crate::proofs::Sized::sizes_within_is))]
pub fn geometry_line(line: &[u8]) -> Result<Geometry, Why>
    ensures { result ≡ geometry_line (words_of line.now) }
{
    let mut words = Words::of(line);
    let Some(first) = words.next() else {
        return Err(Why::Geometry);
    };
    if !is_word(first, b"geometry") {
        return Err(Why::Geometry);
    }
    match sizes_words(words) {
        None => Err(Why::Form),
        Some(Err(refused)) => Err(Why::Field(refused.field)),
        Some(Ok(geometry)) => Ok(geometry),
    }
}
