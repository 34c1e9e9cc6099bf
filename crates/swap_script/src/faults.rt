//! What a line owes besides its form.
ghost use Rattle.std.specs.Prelude.{◌≡◌, ℕ, ◌+◌, ◌<◌, ◌≤◌, ◌==◌, ◌||◌, nat_lt, nat_le, is_some, true, if◌then◌else◌};
ghost use Rattle.std.specs.List.{list_any};
ghost use Rattle.swap_base.specs.Sizes.{first_beyond};
ghost use Rattle.swap_io.specs.Words.{pattern, piece_of, lengths};
ghost use Rattle.swap_script.specs.Reading.{caller_of, page_of, mapped_slab, lender_of, is_out, is_far, calls_in, are_addressed, is_within_reach, has_caller, has_page, has_slab, has_lender, tests};
ghost use Rattle.swap_script.specs.Spelled.{spelled_line, above_of};

use super::forms::Line;
use super::{CALL_BYTES, EVENT_LIMIT, Grammar, Why};
use swap_base::{Caller, DiskWhich, Geometry, Lender, Page, Slab};
use swap_wire::Event;

/// How many events stand above a line, and how many of them are calls.
#[derive(Clone, Copy)]
pub struct Counts {
    pub events: u32,
    pub calls: u32,
}

pub fn caller_of(event: Event) -> Option<Caller>
    ensures { result ≡ caller_of event }
{
    match event {
        Event::PageOut { caller, .. } | Event::PageIn { caller, .. } | Event::Finish { caller } =>
            Some(caller),
        Event::Disk {
            which: DiskWhich::Read(caller),
            ..
        } => Some(caller),
        _ => None,
    }
}

fn page_of(event: Event) -> Option<Page>
    ensures { result ≡ page_of event }
{
    match event {
        Event::PageOut { page, .. } | Event::PageIn { page, .. } => Some(page),
        Event::Disk {
            which: DiskWhich::Write(page),
            ..
        } => Some(page),
        _ => None,
    }
}

fn mapped_slab(event: Event) -> Option<Slab>
    ensures { result ≡ mapped_slab event }
{
    match event {
        Event::Map { slab, .. } => Some(slab),
        _ => None,
    }
}

fn lender_of(event: Event) -> Option<Lender>
    ensures { result ≡ lender_of event }
{
    match event {
        Event::Map { lender, .. }
        | Event::Connect { lender }
        | Event::Give { lender }
        | Event::Take { lender }
        | Event::Cut { lender, .. }
        | Event::Crash { lender }
        | Event::Host { lender, .. } => Some(lender),
        _ => None,
    }
}

pub fn is_out(event: Event) -> bool
    ensures { result ≡ is_out event }
{
    matches!(event, Event::PageOut { .. })
}

fn is_far(event: Event) -> bool
    ensures { result ≡ is_far event }
{
    matches!(
        event,
        Event::Cut { .. } | Event::Crash { .. } | Event::Host { .. }
    )
}

/// Whether so many lenders are as many as the addresses, where there are some.
pub fn are_addressed(grammar: Grammar, lenders: u32) -> bool
    ensures { result ≡ are_addressed grammar lenders }
{
    match grammar {
        Grammar::Trace {
            tcp: Some(addresses),
        } => lenders == addresses,
        _ => true,
    }
}

fn is_within_reach(grammar: Grammar, event: Event) -> bool
    ensures { result ≡ is_within_reach grammar event }
{
    match grammar {
        Grammar::Trace { tcp: Some(_) } => !is_far(event),
        _ => true,
    }
}

fn calls_in(event: Event) -> u32
    ensures { result ≡ calls_in event }
{
    match event {
        Event::PageOut { .. } | Event::PageIn { .. } => 1,
        _ => 0,
    }
}

pub fn has_caller(geometry: &Geometry, event: Event) -> bool
    ensures { result ≡ has_caller geometry.now event }
{
    match caller_of(event) {
        None => true,
        Some(caller) => caller.0 < geometry.callers(),
    }
}

pub fn has_page(geometry: &Geometry, event: Event) -> bool
    ensures { result ≡ has_page geometry.now event }
{
    match page_of(event) {
        None => true,
        Some(page) => page.0 < geometry.pages(),
    }
}

fn has_slab(geometry: &Geometry, event: Event) -> bool
    ensures { result ≡ has_slab geometry.now event }
{
    match mapped_slab(event) {
        None => true,
        Some(slab) => slab.0 < geometry.slabs(),
    }
}

fn has_lender(lenders: u32, event: Event) -> bool
    ensures { result ≡ has_lender lenders event }
{
    match lender_of(event) {
        None => true,
        Some(lender) => lender.0 < lenders,
    }
}

fn is_piece_length(bytes: usize) -> bool
    ensures { result ≡ list_any (λ n. bytes == n) lengths }
{
    matches!(
        bytes,
        1 | 2 | 4 | 8 | 16 | 32 | 64 | 128 | 256 | 512 | 1024 | 2048 | 4096
    )
}

/// Whether hex of whole bytes is a pattern of pages of this size.
#[tactic(auto, using(crate::proofs::Patterns::is_some_pattern))]
fn is_pattern(hex: &[u8], page_bytes: u32) -> bool
    requires { is_some (piece_of hex.now) ≡ true }
    ensures { result ≡ is_some (pattern page_bytes hex.now) }
{
    let bytes = hex.len() / 2;
    is_piece_length(bytes) && bytes <= page_bytes as usize
}

/// The first fault of a line that has a form, where there are so many lenders.
pub fn fault_of(
    grammar: Grammar,
    geometry: &Geometry,
    lenders: u32,
    above: Counts,
    line: Line<'_>,
) -> Option<Why>
    requires counts { above.calls ≤ above.events }
    requires within { above.events ≤ EVENT_LIMIT }
    requires hex { is_out line.event ≡ true → is_some (piece_of line.hex.now) ≡ true }
    ensures { result
        ≡ first_beyond (tests grammar geometry.now lenders (above_of above)
        (spelled_line line.entry)) }
{
    if !are_addressed(grammar, lenders) {
        return Some(Why::Lenders);
    }
    if !has_caller(geometry, line.event) {
        return Some(Why::Caller);
    }
    if !has_page(geometry, line.event) {
        return Some(Why::Page);
    }
    if !has_slab(geometry, line.event) {
        return Some(Why::Slab);
    }
    if !has_lender(lenders, line.event) {
        return Some(Why::Lender);
    }
    if is_out(line.event) && !is_pattern(line.hex, geometry.page_bytes()) {
        return Some(Why::Pattern);
    }
    let calls = above.calls + calls_in(line.event);
    if u64::from(calls) * u64::from(geometry.page_bytes()) > CALL_BYTES {
        return Some(Why::Calls);
    }
    if above.events >= EVENT_LIMIT {
        return Some(Why::Events);
    }
    if !is_within_reach(grammar, line.event) {
        return Some(Why::Tcp);
    }
    None
}

impl Counts {
    /// This line counts too.
    pub fn with(self, event: Event) -> Counts
        requires counts { self.calls ≤ self.events }
        requires within { self.events < EVENT_LIMIT }
        ensures events { result.events ≡ self.events + 1 }
        ensures calls { result.calls ≡ self.calls + calls_in event }
    {
        Counts {
            events: self.events + 1,
            calls: self.calls + calls_in(event),
        }
    }
}
