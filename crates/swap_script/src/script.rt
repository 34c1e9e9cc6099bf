//! A text as a script or a trace, and a walk over its events.
ghost use Rattle.std.specs.Prelude.{◌≡◌, ℕ, true, ◌+◌, ◌*◌, ◌<◌, ◌≤◌, [], ◌∷◌, length, slice_get, None, Some, IfOk, IfSome, MatchOption, MatchResult};
ghost use Rattle.std.specs.Option.{option_map};
ghost use Rattle.swap_wire.specs.Input.{IsInRange};
ghost use Rattle.swap_script.specs.Lines.{words_of};
ghost use Rattle.swap_script.specs.Forms.{line_of};
ghost use Rattle.swap_script.specs.Spelled.{spelled_line, line_in};
ghost use Rattle.swap_script.specs.Reading.{script, reading, front_from, text_events, end_of, first_fault, nothing_above, inputs_of, input_of, calls_of, lent_bytes, is_in, is_call_of, is_operators, script_part, IsWithinLimits, MayLend, Reads, first_event, page_after, without_first};
ghost use Rattle.swap_base.specs.declared.TheConstants.{MOST_LENDERS, MOST_LENT_BYTES};

use super::faults::{Counts, are_addressed, fault_of, is_out};
use super::forms::{Line, begins_with, geometry_line, is_call, line_of};
use super::lending::{Lenders, lender_line, lender_rest};
use super::text::{Kept, Place, line_count};
use super::{EVENT_LIMIT, Grammar, Part, ScriptRefused, TEXT_LIMIT, Why};
use std::marker::Model;
use swap_base::{Caller, Geometry, LenderSpec};
use swap_io::pattern;
use swap_wire::Event;

/// The events that are left of a script or a trace, or of a part of it, with its sizes and its
/// lenders.
#[derive(Drop)]
pub struct Walk<'t> {
    grammar: Grammar,
    part: Part,
    geometry: Geometry,
    lenders: Lenders,
    place: Place<'t>,
}

impl<'t> Model for Walk<'t> {
    ghost use Rattle.std.specs.Prelude.{length};
    ghost use Rattle.swap_script.specs.Reading.{Script, inputs_of, part_of, AllRead, MayLend};

    ghost Value = { Script };

    ghost view = { λ w.
        record {
          sizes = w.geometry;
          lenders = w.lenders;
          inputs = part_of w.part (inputs_of w.grammar w.geometry w.place);
        } };

    ghost invariant = { λ w. AllRead w.grammar w.geometry (length w.lenders) w.place
        × MayLend w.geometry w.lenders };
}

fn is_call_of(caller: Caller, event: Event) -> bool
    ensures { result ≡ is_call_of caller event }
{
    match event {
        Event::PageOut { caller: c, .. } | Event::PageIn { caller: c, .. } => c.0 == caller.0,
        _ => false,
    }
}

fn is_operators(event: Event) -> bool
    ensures { result ≡ is_operators event }
{
    !matches!(event, Event::PageOut { .. } | Event::PageIn { .. })
}

fn is_in(part: Part, event: Event) -> bool
    ensures { result ≡ is_in part event }
{
    match part {
        Part::Whole => true,
        Part::CallsOf(caller) => is_call_of(caller, event),
        Part::Operator => is_operators(event),
    }
}

/// Whether a line's first word alone shows that its event is in another part.
fn is_elsewhere(grammar: Grammar, part: Part, line: &[u8]) -> bool
    ensures { result ≡ true → line_in part (line_of grammar (words_of line.now)) ≡ None }
{
    match (grammar, part) {
        (Grammar::Trace { .. }, Part::CallsOf(caller)) => !begins_with(caller, line),
        (Grammar::Trace { .. }, Part::Operator) => is_call(line),
        _ => false,
    }
}

/// The event of a line, if the line has the form of one and its event is in a part.
fn line_in<'t>(grammar: Grammar, part: Part, line: &'t [u8]) -> Option<Line<'t>>
    ensures line { option_map spelled_line result
        ≡ line_in part (line_of grammar (words_of line.now)) }
{
    if is_elsewhere(grammar, part, line) {
        return None;
    }
    let spelled = line_of(grammar, line)?;
    if is_in(part, spelled.event) {
        Some(spelled)
    } else {
        None
    }
}

impl<'t> Walk<'t> {
    /// The next line in the walk's part.
    fn next_line(&mut self) -> Option<Line<'t>>
        ensures sizes { self.new.sizes ≡ self.old.sizes }
        ensures lenders { self.new.lenders ≡ self.old.lenders }
        ensures next { MatchOption result ((self.old.inputs ≡ []) × (self.new.inputs ≡ []))
            (λ line. self.old.inputs
            ≡ input_of self.old.sizes (spelled_line line) ∷ self.new.inputs) }
        ensures reads { IfSome result
            (λ line. Reads self.old.sizes (length self.old.lenders) (Some (spelled_line line))) }
    {
        'looking: while let Some(kept) = self.place.next() {
            if let Some(line) = line_in(self.grammar, self.part, kept.text) {
                return Some(line);
            }
        }
        None
    }

    /// The next event; None exactly at the end. The page of a page-out is filled into `page`, which
    /// has the script's `page_bytes`; other events leave it.
    pub fn next(&mut self, page: &mut [u8]) -> Option<Event>
        requires { length page.old ≡ self.old.sizes.page_bytes }
        ensures event { result ≡ first_event self.old.inputs }
        ensures left { self.new ≡ without_first self.old }
        ensures page { page.new ≡ page_after self.old.inputs page.old }
        ensures in_range { IfSome result (IsInRange self.old.sizes (length self.old.lenders)) }
    {
        self.geometry.limits();
        let line = self.next_line()?;
        if is_out(line.event) {
            let _filled = pattern(line.hex, page);
        }
        Some(line.event)
    }
}

/// A text that was read: its sizes, its lenders and its events.
#[derive(Drop)]
pub struct Script<'t> {
    grammar: Grammar,
    geometry: Geometry,
    lenders: Lenders,
    place: Place<'t>,
    calls: u32,
    events: u32,
}

impl<'t> Model for Script<'t> {
    ghost use Rattle.std.specs.Prelude.{◌≡◌, ◌≤◌, length};
    ghost use Rattle.swap_script.specs.declared.TheConstants.{EVENT_LIMIT};
    ghost use Rattle.swap_script.specs.Reading.{Script, inputs_of, calls_of, AllRead, MayLend};

    ghost Value = { Script };

    ghost view = { λ s.
        record {
          sizes = s.geometry;
          lenders = s.lenders;
          inputs = inputs_of s.grammar s.geometry s.place;
        } };

    ghost invariant = { λ s. AllRead s.grammar s.geometry (length s.lenders) s.place
        × MayLend s.geometry s.lenders
        × (s.calls ≡ calls_of (inputs_of s.grammar s.geometry s.place))
        × (s.events ≡ length (inputs_of s.grammar s.geometry s.place)) × (s.calls ≤ s.events)
        × (s.events ≤ EVENT_LIMIT) };
}

impl<'t> Script<'t> {
    pub fn geometry(&self) -> Geometry
        ensures { result ≡ self.now.sizes }
    {
        self.geometry
    }

    /// How many lenders the script has.
    pub fn lenders(&self) -> u32
        ensures count { result ≡ length self.now.lenders }
        ensures within { result ≤ MOST_LENDERS }
    {
        self.lenders.count()
    }

    /// A lender of the script, by its number. Each is within its limits, and all of them lend no
    /// more than they may.
    pub fn lender(&self, i: u32) -> LenderSpec
        requires { i < length self.now.lenders }
        ensures spec { slice_get self.now.lenders i ≡ Some result }
        ensures limits { IsWithinLimits result }
        ensures lent { lent_bytes self.now.sizes self.now.lenders ≤ MOST_LENT_BYTES }
    {
        self.lenders.get(i)
    }

    /// How many of the events are calls, page-outs and page-ins.
    pub fn calls(&self) -> u32
        ensures calls { result ≡ calls_of self.now.inputs }
        ensures within { result ≤ EVENT_LIMIT }
    {
        self.calls
    }

    pub fn events(&self) -> u32
        ensures events { result ≡ length self.now.inputs }
        ensures within { result ≤ EVENT_LIMIT }
    {
        self.events
    }

    /// A walk over all events.
    pub fn walk(&self) -> Walk<'t>
        ensures { result ≡ self.now }
    {
        self.walk_of(Part::Whole)
    }

    /// A walk over a part of the events. It passes over lines of other parts of a trace by their
    /// first words alone.
    pub fn walk_of(&self, part: Part) -> Walk<'t>
        ensures { result ≡ script_part part self.now }
    {
        Walk {
            grammar: self.grammar,
            part,
            geometry: self.geometry,
            lenders: self.lenders.again(),
            place: self.place.again(),
        }
    }
}

/// The lenders of a text, and the place behind their lines.
#[derive(Drop)]
pub struct Front<'t> {
    lenders: Lenders,
    place: Place<'t>,
}

impl<'t> Model for Front<'t> {
    ghost use Rattle.swap_script.specs.Reading.{Front};

    ghost Value = { Front };

    ghost view = { λ f. record { lenders = f.lenders; lines = f.place } };
}

impl<'t> Front<'t> {
    /// The place behind the lenders' lines.
    pub fn place(&self) -> Place<'t>
        ensures { result ≡ self.now.lines }
    {
        self.place.again()
    }
}

/// The lenders that stand behind a geometry line.
pub fn front_of<'t>(geometry: &Geometry, place: Place<'t>) -> Result<Front<'t>, ScriptRefused>
    ensures front { result ≡ front_from geometry.now [] place.entry }
    ensures may_lend { IfOk result (λ front. MayLend geometry.now front.lenders) }
{
    let mut lenders = Lenders::none();
    let mut place = place;
    let mut ahead = place.again();
    'lenders: while let Some(Kept { line, text }) = ahead.next() {
        let Some(words) = lender_rest(text) else {
            return Ok(Front { lenders, place });
        };
        match lender_line(geometry, &lenders, words) {
            Ok(spec) => {
                lenders = lenders.with(spec);
                place = ahead.again();
            }
            Err(why) => return Err(ScriptRefused { line, why }),
        }
    }
    Ok(Front { lenders, place })
}

/// The counts of lines that are all events', or the first of them at fault, where there are so many
/// lenders. The lines are the last of a text.
fn checked_lines(
    grammar: Grammar,
    text: &[u8],
    geometry: &Geometry,
    lenders: u32,
    mut place: Place<'_>,
) -> Result<Counts, ScriptRefused>
    requires { length text.now ≤ TEXT_LIMIT }
    ensures fault { let first =
        first_fault grammar (end_of text.now) geometry.now lenders place.entry nothing_above in
        MatchResult result (λ _. first ≡ None) (λ refused. first ≡ Some refused) }
    ensures events { IfOk result
        (λ counts. counts.events ≡ length (inputs_of grammar geometry.now place.entry)) }
    ensures calls { IfOk result
        (λ counts. counts.calls ≡ calls_of (inputs_of grammar geometry.now place.entry)) }
    ensures within { IfOk result
        (λ counts. (counts.calls ≤ counts.events) × (counts.events ≤ EVENT_LIMIT)) }
{
    let mut counts = Counts {
        events: 0,
        calls: 0,
    };
    'reading: while let Some(kept) = place.next() {
        let line = kept.line;
        let Some(spelled) = line_of(grammar, kept.text) else {
            return Err(ScriptRefused {
                line,
                why: Why::Form,
            });
        };
        if let Some(why) = fault_of(grammar, geometry, lenders, counts, spelled) {
            return Err(ScriptRefused { line, why });
        }
        counts = counts.with(spelled.event);
    }
    if !are_addressed(grammar, lenders) {
        return Err(ScriptRefused {
            line: line_count(text) + 1,
            why: Why::Lenders,
        });
    }
    Ok(counts)
}

/// A text of these sizes and these lenders, where all lines from a place on are events.
fn read_events<'t>(
    grammar: Grammar,
    text: &[u8],
    geometry: Geometry,
    lenders: Lenders,
    place: Place<'t>,
) -> Result<Script<'t>, ScriptRefused>
    requires text { length text.now ≤ TEXT_LIMIT }
    requires lenders { MayLend geometry lenders }
    ensures { result ≡ text_events grammar (end_of text.now) geometry
        (record { lenders = lenders; lines = place.entry }) }
{
    match checked_lines(grammar, text, &geometry, lenders.count(), place.again()) {
        Ok(counts) => Ok(Script {
            grammar,
            geometry,
            lenders,
            place,
            calls: counts.calls,
            events: counts.events,
        }),
        Err(refused) => Err(refused),
    }
}

/// Reads a text of at most `TEXT_LIMIT` bytes by a grammar: a geometry line, lender lines, then the
/// lines of events, where empty lines and those that begin with `#` are skipped. Else its first
/// line at fault is named, with the first fault of that line; a text without a geometry line is
/// refused at one more than its number of lines.
///
/// The text is checked whole, and no memory is taken: the script keeps the text and its counts, and
/// a walk reads it again.
pub fn read_text<'t>(grammar: Grammar, text: &'t [u8]) -> Result<Script<'t>, ScriptRefused>
    requires { length text.now ≤ TEXT_LIMIT }
    ensures { result ≡ reading grammar text.now }
{
    let mut place = Place::of(text);
    let Some(header) = place.next() else {
        return Err(ScriptRefused {
            line: line_count(text) + 1,
            why: Why::Geometry,
        });
    };
    let geometry = match geometry_line(header.text) {
        Ok(geometry) => geometry,
        Err(why) => {
            return Err(ScriptRefused {
                line: header.line,
                why,
            });
        }
    };
    match front_of(&geometry, place) {
        Ok(Front { lenders, place }) => read_events(grammar, text, geometry, lenders, place),
        Err(refused) => Err(refused),
    }
}

/// Reads a text of at most `TEXT_LIMIT` bytes as a script.
pub fn read_script<'t>(text: &'t [u8]) -> Result<Script<'t>, ScriptRefused>
    requires { length text.now ≤ TEXT_LIMIT }
    ensures { result ≡ script text.now }
{
    read_text(Grammar::Script, text)
}
