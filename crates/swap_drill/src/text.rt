//! The lines of a drill's summary.
ghost use Rattle.std.specs.Prelude.{◌≡◌, ◌+◌, ◌≤◌, ◌++◌, length, decimal};
ghost use Rattle.swap_drill.specs.Text.{busy_words, drill_words, end_words, entries_words, from_words, line_of, rounds_words, summary_text};

use crate::DrillSummary;
use swap_io::LineBuf;

// Appends a text, and a number behind it.
fn put(front: &[u8], n: u64, line: &mut LineBuf)
    requires front { length front.now ≤ 30 }
    requires room { length line.old ≤ 9_000 }
    ensures text { line.new ≡ (line.old ++ front.now) ++ decimal n }
    ensures len { length line.new ≤ length line.old + 50 }
{
    line.text(front);
    line.decimal(n);
}

// Appends the line of the words that asked for the drill.
fn put_drill(number: u64, calls: u32, line: &mut LineBuf)
    requires room { length line.old ≤ 8_000 }
    ensures text { line.new ≡ line.old ++ line_of (drill_words number calls) }
    ensures len { length line.new ≤ length line.old + 300 }
{
    put(b"drill ", number, line);
    put(b" ", u64::from(calls), line);
    line.text(b"\n");
}

// Appends the line of the entries by kind.
fn put_entries(summary: &DrillSummary, line: &mut LineBuf)
    requires room { length line.old ≤ 8_000 }
    ensures text { line.new ≡ line.old ++ line_of (entries_words summary.now) }
    ensures len { length line.new ≤ length line.old + 300 }
{
    put(b"entries ", u64::from(summary.entries), line);
    put(b" out ", u64::from(summary.outs), line);
    put(b" in ", u64::from(summary.ins), line);
    put(b" fault ", u64::from(summary.faults), line);
    line.text(b"\n");
}

// Appends the line of the page-ins by where their page came from.
fn put_from(summary: &DrillSummary, line: &mut LineBuf)
    requires room { length line.old ≤ 8_000 }
    ensures text { line.new ≡ line.old ++ line_of (from_words summary.now) }
    ensures len { length line.new ≤ length line.old + 300 }
{
    put(b"from zero ", u64::from(summary.zero), line);
    put(b" queue ", u64::from(summary.queue), line);
    put(b" disk ", u64::from(summary.disk), line);
    put(b" lender ", u64::from(summary.lender), line);
    line.text(b"\n");
}

// Appends the line of the callers.
fn put_busy(summary: &DrillSummary, line: &mut LineBuf)
    requires room { length line.old ≤ 8_000 }
    ensures text { line.new ≡ line.old ++ line_of (busy_words summary.now) }
    ensures len { length line.new ≤ length line.old + 300 }
{
    put(b"busy ", u64::from(summary.busy), line);
    put(b" waiting ", u64::from(summary.waiting), line);
    line.text(b"\n");
}

// Appends the line of the Rounds and the mapped slabs.
fn put_rounds(summary: &DrillSummary, line: &mut LineBuf)
    requires room { length line.old ≤ 8_000 }
    ensures text { line.new ≡ line.old ++ line_of (rounds_words summary.now) }
    ensures len { length line.new ≤ length line.old + 300 }
{
    put(b"rounds ", u64::from(summary.rounds), line);
    put(b" mapped ", u64::from(summary.mapped), line);
    line.text(b"\n");
}

// Appends the last line.
fn put_end(summary: &DrillSummary, line: &mut LineBuf)
    requires room { length line.old ≤ 8_000 }
    ensures text { line.new ≡ line.old ++ line_of (end_words summary.now) }
    ensures len { length line.new ≤ length line.old + 300 }
{
    put(b"end ", u64::from(summary.entries), line);
    line.text(b"\n");
}

/// Writes the six lines of a summary into the emptied `lines`.
pub fn put_summary(number: u64, calls: u32, summary: &DrillSummary, lines: &mut LineBuf)
    ensures { lines.new ≡ summary_text number calls summary.now }
{
    lines.clear();
    put_drill(number, calls, lines);
    put_entries(summary, lines);
    put_from(summary, lines);
    put_busy(summary, lines);
    put_rounds(summary, lines);
    put_end(summary, lines);
}
