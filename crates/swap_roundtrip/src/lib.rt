//! What a script prints is read back as the history of its run.
#![tactic(auto)]

ghost use Rattle.std.specs.Prelude.{◌≡◌, ◌<◌, length, Some};
ghost use Rattle.swap_io.specs.ReadBack.{AreBytes};
ghost use Rattle.swap_script.specs.Transcript.{HasEntry};
ghost use Rattle.swap_transcript.specs.Printed.{HasEventWords};
ghost use Rattle.swap_roundtrip.specs.Back.{ScriptsAreReadBack};
ghost use Rattle.swap_record.specs.History.{Row, row_named};
ghost use Rattle.swap_roundtrip.specs.Numbers.{HasEntryNumbers, HasSeenNumbers, LineFits, RowFits};

use swap_base::EntryNo;
use swap_record::{Entry, Record};
use swap_script::{events_in_range, pages_are_whole};
use swap_transcript::transcripts_are_read;
use swap_wire::{Event, Seen};
use swap_world::{always_legal, histories_go_on};

// The numbers of an event fit their types.
fn event_numbers(event: Event)
    ensures { HasEventWords event }
{}

// The numbers of what was seen fit their types.
fn seen_numbers(seen: Seen)
    ensures { HasSeenNumbers seen }
{}

// The numbers of an entry fit their types.
fn entry_numbers(entry: Entry)
    ensures { HasEntryNumbers entry }
{}

// A page is of bytes.
fn page_numbers(page: &[u8])
    ensures { AreBytes page.now }
{}

// So do those of an entry of a history, and its page is whole.
fn row_fits(no: EntryNo, history: &Record)
    requires { no.0 < length history.now.history }
    ensures { (row : Row) → row_named history.now.history no.0 ≡ Some row
        → RowFits history.now.page_bytes row }
{
    entry_numbers(history.entry(no));
    page_numbers(history.bytes(no));
}

/// All numbers that an event's line prints fit their types: those of the event, of what was seen,
/// and of the entry that was seen, whose page is whole. An entry that was seen must be one of the
/// history.
pub fn line_fits(event: Event, seen: Seen, history: &Record)
    requires { HasEntry history.now.history seen }
    ensures { LineFits history.now.page_bytes event seen history.now.history }
{
    event_numbers(event);
    seen_numbers(seen);
    match seen {
        Seen::Done { entry, .. } | Seen::Fault { entry } => row_fits(entry, history),
        _ => {}
    }
}

/// What a script prints is read back as the history that its events reached, each printed number
/// being its entry's place, so that the judge says legal. The premise is that the numbers of its
/// lines fit their types, as `line_fits` shows of each line that is printed.
pub fn scripts_are_read_back()
    ensures { ScriptsAreReadBack }
{
    always_legal();
    histories_go_on();
    transcripts_are_read();
    events_in_range();
    pages_are_whole();
}
