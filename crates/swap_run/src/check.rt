//! A transcript is read and judged, and the verdict is told.
ghost use Rattle.std.specs.Prelude.{◌≡◌, ◌≤◌, [], ◌++◌, length, decimal};
ghost use Rattle.swap_transcript.specs.Transcripts.{transcript};
ghost use Rattle.swap_run.specs.Judging.{verdict_line};
ghost use Rattle.swap_run.specs.Clause.{stream, CheckEnds};
ghost use Rattle.swap_run.specs.Checks.{ending_of, TextJudged, SourceJudged, VerdictEnds};
ghost use Rattle.swap_run.specs.Blocks.{IsFresh};

use crate::Ending;
use crate::run::hand_on_rest;
use std::alloc::Global;
use swap_io::{BlockSink, LineBuf, Sink, Source, WholeRefused, read_whole, write_line};
use swap_record::Verdict;
use swap_script::TEXT_LIMIT;
use swap_transcript::{Judgement, TranscriptRefused, check_transcript};

// Writes a number between two texts into the emptied `line`.
fn put_line(front: &[u8], n: u32, back: &[u8], line: &mut LineBuf)
    requires front { length front.now ≤ 30 }
    requires back { length back.now ≤ 30 }
    ensures { line.new ≡ (front.now ++ decimal n) ++ back.now }
{
    line.clear();
    line.text(front);
    line.decimal(u64::from(n));
    line.text(back);
}

// Writes the line of a verdict into the emptied `line`.
fn put_verdict(judgement: Judgement, line: &mut LineBuf)
    ensures { line.new ≡ verdict_line judgement }
{
    match judgement.verdict {
        Verdict::Legal => put_line(b"legal ", judgement.entries, b" entries\n", line),
        Verdict::NotLegal { at } => put_line(b"not legal at entry ", at.0, b"\n", line),
    }
}

// How a call ends that told this verdict.
fn ending_of(verdict: Verdict) -> Ending
    ensures { result ≡ ending_of verdict }
{
    match verdict {
        Verdict::Legal => Ending::Done,
        Verdict::NotLegal { .. } => Ending::NotLegal,
    }
}

/// Writes the line of a verdict.
fn tell_verdict<K: Sink>(alloc: Global, judgement: Judgement, out: &mut K) -> Ending
    ensures ends { VerdictEnds judgement
        (stream (K.taken out.old) (K.taken out.new) (K.faults out.old) (K.faults out.new))
        result }
    ensures later { K.faults out.old ≤ K.faults out.new }
{
    let Ok(mut line) = LineBuf::make(alloc) else {
        return Ending::NoMemory;
    };
    put_verdict(judgement, &mut line);
    match write_line(out, line.bytes()) {
        Ok(()) => ending_of(judgement.verdict),
        Err(_) => Ending::WriteFailed,
    }
}

/// Judges a text.
fn judge_text(alloc: Global, text: &[u8]) -> Result<Judgement, Ending>
    requires { length text.now ≤ TEXT_LIMIT }
    ensures { TextJudged (transcript text.now) result }
{
    match check_transcript(alloc, text) {
        Ok(judgement) => Ok(judgement),
        Err(TranscriptRefused::Line(refused)) => Err(Ending::Refused(refused)),
        Err(TranscriptRefused::NoMemory) => Err(Ending::NoMemory),
    }
}

/// Reads a transcript, and judges it.
fn judge_source<S: Source>(alloc: Global, source: &mut S) -> Result<Judgement, Ending>
    ensures { SourceJudged
        (stream (S.left source.old) (S.left source.new) (S.faults source.old)
        (S.faults source.new))
        result }
{
    match read_whole(alloc, source, TEXT_LIMIT) {
        Ok(text) => judge_text(alloc, &text),
        Err(WholeRefused::ReadFailed) => Err(Ending::ReadFailed),
        Err(WholeRefused::TooLong) => Err(Ending::TooLong),
        Err(WholeRefused::NoMemory) => Err(Ending::NoMemory),
    }
}

/// Reads a transcript, judges it, and writes the verdict.
pub(crate) fn run_check<S: Source, K: Sink>(alloc: Global, source: &mut S, out: &mut K) -> Ending
    ensures { CheckEnds
        (stream (S.left source.old) (S.left source.new) (S.faults source.old)
        (S.faults source.new))
        (stream (K.taken out.old) (K.taken out.new) (K.faults out.old) (K.faults out.new))
        result }
{
    match judge_source(alloc, source) {
        Ok(judgement) => tell_verdict(alloc, judgement, out),
        Err(ending) => ending,
    }
}

/// Writes the line of a verdict before a sink that gathers, and hands it on.
fn tell_verdict_in_blocks<K: Sink + Drop>(
    alloc: Global,
    judgement: Judgement,
    out: &mut BlockSink<K>,
) -> Ending
    requires held { out.old.held ≡ [] }
    requires fresh { IsFresh out.old.handed }
    ensures { VerdictEnds judgement
        (stream out.old.handed out.new.handed out.old.faults out.new.faults) result }
{
    let told = tell_verdict(alloc, judgement, out);
    hand_on_rest(told, out)
}

/// The same before a sink that gathers: what is said is of the sink behind it.
pub(crate) fn run_check_in_blocks<S: Source, K: Sink + Drop>(
    alloc: Global,
    source: &mut S,
    out: &mut BlockSink<K>,
) -> Ending
    requires held { out.old.held ≡ [] }
    requires fresh { IsFresh out.old.handed }
    ensures { CheckEnds
        (stream (S.left source.old) (S.left source.new) (S.faults source.old)
        (S.faults source.new))
        (stream out.old.handed out.new.handed out.old.faults out.new.faults) result }
{
    match judge_source(alloc, source) {
        Ok(judgement) => tell_verdict_in_blocks(alloc, judgement, out),
        Err(ending) => ending,
    }
}
