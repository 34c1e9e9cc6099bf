//! Transcripts read back: a text to its record, whose entries stand in the order of their lines,
//! and what they are judged.
#![tactic(auto)]

ghost use Rattle.swap_transcript.specs.Laws.{LinesAreRead, TranscriptsAreRead, HaveOneReading, BytesArePrinted, LinesArePrinted, PrintedIsRead};
ghost use Rattle.swap_transcript.specs.ReadRows.{ReadRows, NotedRows, RefusedRows};

mod check;
mod events;
mod gave;
mod messages;
mod pages;
mod read;
mod readers;
mod results;
mod told;

pub use check::check_transcript;
pub use read::read_transcript;
use swap_record::Verdict;
use swap_script::ScriptRefused;

/// Why a text gives no record: its first line at fault, or want of memory.
#[derive(Clone, Copy, Debug, PartialEq, Eq)]
pub enum TranscriptRefused {
    Line(ScriptRefused),
    NoMemory,
}

/// How many entries a transcript has, and whether their history is legal.
#[derive(Clone, Copy, Debug, PartialEq, Eq)]
pub struct Judgement {
    pub entries: u32,
    pub verdict: Verdict,
}

/// A text is read as a transcript exactly where the transcript spells it: where its lines are those
/// that the sizes, the lenders and the pairs of event and result print, in words. So the text
/// determines all of them, and with them the entries and their pages: no text is spelled by two.
/// Its bytes are those words with one space between each two, and a pair's line is the one that is
/// printed beside a history that has its entry. What a transcript prints is read back as that
/// transcript.
pub fn transcripts_are_read()
    ensures lines { LinesAreRead }
    ensures texts { TranscriptsAreRead }
    ensures one { HaveOneReading }
    ensures bytes { BytesArePrinted }
    ensures printed { LinesArePrinted }
    ensures back { PrintedIsRead }
{}

/// Transcripts by hand, and texts that are none.
pub fn rows()
    ensures read { ReadRows }
    ensures noted { NotedRows }
    ensures refused { RefusedRows }
{}
