ghost use Rattle.std.specs.Prelude.{◌≡◌, ◌+◌, ◌<◌, ◌≤◌, [], ◌∷◌, ◌++◌, length, decimal, codes};
ghost use Rattle.swap_io.specs.Words.{shortest};
ghost use Rattle.swap_record.specs.Text.{origin_words, named_word, op_words, entry_text, spaced_after};
ghost use Rattle.swap_io.specs.declared.TheConstants.{LINE_LENGTH};

use super::{ENTRY_LENGTH, Op, Record};
use swap_base::{CallKind, EntryNo, Origin, Page};
use swap_io::LineBuf;

impl Record {
    /// Appends an entry's text, which never takes more than `ENTRY_LENGTH` bytes.
    pub fn entry_text(&self, no: EntryNo, out: &mut LineBuf)
        requires entry { no.0 < length self.now.history }
        requires room { length out.old + ENTRY_LENGTH ≤ LINE_LENGTH }
        ensures text { out.new ≡ out.old ++ entry_text self.now.history no }
        ensures within { length out.new ≤ length out.old + ENTRY_LENGTH }
    {
        let entry = self.entry(no);
        let bytes = self.bytes(no);
        out.text(b"entry");
        put_number(out, u64::from(no.0));
        put_op(out, entry.page, bytes, entry.op);
    }
}

/// Appends a space and a word.
fn put_word(out: &mut LineBuf, word: &[u8])
    requires { length out.old + length word.now + 1 ≤ LINE_LENGTH }
    ensures text { out.new ≡ out.old ++ 32 ∷ word.now }
    ensures len { length out.new ≡ length out.old + length word.now + 1 }
{
    out.text(b" ");
    out.text(word);
}

/// Appends a space and a number.
fn put_number(out: &mut LineBuf, n: u64)
    requires { length out.old + 21 ≤ LINE_LENGTH }
    ensures text { out.new ≡ out.old ++ 32 ∷ decimal n }
    ensures len { length out.new ≤ length out.old + 21 }
{
    out.text(b" ");
    out.decimal(n);
}

/// Appends a space and a page's bytes.
fn put_page(out: &mut LineBuf, bytes: &[u8])
    requires page { length bytes.now ≤ 4_096 }
    requires room { length out.old + 8_193 ≤ LINE_LENGTH }
    ensures text { out.new ≡ out.old ++ 32 ∷ shortest bytes.now }
    ensures len { length out.new ≤ length out.old + 8_193 }
{
    out.text(b" ");
    out.shortest(bytes);
}

/// Appends the entry that a page-in names.
fn put_named(out: &mut LineBuf, named: Option<EntryNo>)
    requires { length out.old + 21 ≤ LINE_LENGTH }
    ensures text { out.new ≡ out.old ++ 32 ∷ named_word named }
    ensures len { length out.new ≤ length out.old + 21 }
{
    match named {
        None => put_word(out, b"none"),
        Some(no) => put_number(out, u64::from(no.0)),
    }
}

/// Appends where a page-in's bytes came from.
fn put_origin(out: &mut LineBuf, origin: Origin)
    requires { length out.old + 28 ≤ LINE_LENGTH }
    ensures text { out.new ≡ out.old ++ spaced_after (origin_words origin) }
    ensures len { length out.new ≤ length out.old + 28 }
{
    match origin {
        Origin::Zero => put_word(out, b"zero"),
        Origin::Queue => put_word(out, b"queue"),
        Origin::Disk => put_word(out, b"disk"),
        Origin::Lender(lender) => {
            put_word(out, b"lender");
            put_number(out, u64::from(lender.0));
        }
    }
}

/// Appends what a call did, with its page.
fn put_op(out: &mut LineBuf, page: Page, bytes: &[u8], op: Op)
    requires page { length bytes.now ≤ 4_096 }
    requires room { length out.old + 8_370 ≤ LINE_LENGTH }
    ensures text { out.new ≡ out.old ++ spaced_after (op_words page.0 bytes.now op) }
    ensures len { length out.new ≤ length out.old + 8_370 }
{
    match op {
        Op::PageOut => put_out(out, page, bytes),
        Op::PageIn { named, origin } => put_in(out, page, bytes, named, origin),
        Op::Failed { kind, since, at } => put_fault(out, page, bytes, kind, since, at),
    }
}

fn put_out(out: &mut LineBuf, page: Page, bytes: &[u8])
    requires page { length bytes.now ≤ 4_096 }
    requires room { length out.old + 8_370 ≤ LINE_LENGTH }
    ensures text { out.new ≡ out.old ++ spaced_after (op_words page.0 bytes.now Op.PageOut) }
    ensures len { length out.new ≤ length out.old + 8_370 }
{
    put_word(out, b"out");
    put_number(out, u64::from(page.0));
    put_page(out, bytes);
}

fn put_in(out: &mut LineBuf, page: Page, bytes: &[u8], named: Option<EntryNo>, origin: Origin)
    requires page { length bytes.now ≤ 4_096 }
    requires room { length out.old + 8_370 ≤ LINE_LENGTH }
    ensures text { out.new ≡ out.old
        ++ spaced_after (op_words page.0 bytes.now (Op.PageIn named origin)) }
    ensures len { length out.new ≤ length out.old + 8_370 }
{
    put_word(out, b"in");
    put_number(out, u64::from(page.0));
    put_word(out, b"of");
    put_named(out, named);
    put_origin(out, origin);
    put_page(out, bytes);
}

fn put_fault(out: &mut LineBuf, page: Page, bytes: &[u8], kind: CallKind, since: u64, at: u64)
    requires page { length bytes.now ≤ 4_096 }
    requires room { length out.old + 8_370 ≤ LINE_LENGTH }
    ensures text { out.new ≡ out.old
        ++ spaced_after (op_words page.0 bytes.now (Op.Failed kind since at)) }
    ensures len { length out.new ≤ length out.old + 8_370 }
{
    put_word(out, b"fault");
    match kind {
        CallKind::PageOut => {
            put_word(out, b"out");
            put_counts(out, page, since, at);
            put_page(out, bytes);
        }
        CallKind::PageIn => {
            put_word(out, b"in");
            put_counts(out, page, since, at);
        }
    }
}

/// Appends a failed call's page, and its two counts of failures.
fn put_counts(out: &mut LineBuf, page: Page, since: u64, at: u64)
    requires { length out.old + 63 ≤ LINE_LENGTH }
    ensures text { out.new ≡ out.old
        ++ spaced_after (decimal page.0 ∷ decimal since ∷ decimal at ∷ []) }
    ensures len { length out.new ≤ length out.old + 63 }
{
    put_number(out, u64::from(page.0));
    put_number(out, since);
    put_number(out, at);
}
