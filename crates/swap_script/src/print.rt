//! What a run prints: words, parted by spaces, in a line.
ghost use Rattle.std.specs.Prelude.{◌≡◌, ℕ, ◌+◌, ◌*◌, ◌<◌, ◌≤◌, [], ◌∷◌, ◌++◌, length, map, decimal, codes, if◌then◌else◌};
ghost use Rattle.swap_choice.specs.Slots.{has, slots};
ghost use Rattle.swap_script.specs.Lines.{words_behind};
ghost use Rattle.swap_record.specs.Text.{entry_words};
ghost use Rattle.swap_script.specs.Transcript.{header, lender_header, line, HasEntry, seen_words, sent_words, msg_name, msg_rest, msg_words, reply_words, slots_behind, evicted_words, second_words, gave_words, end_line, refusal, ok_or_bad, event_name, disk_words, event_rest, via_words, why_word, field_word};
ghost use Rattle.swap_io.specs.declared.TheConstants.{LINE_LENGTH};

use super::{ScriptRefused, Why};
use swap_base::{DiskWhich, EntryNo, Field, Geometry, Lender, LenderSpec, Slab, Via};
use swap_choice::{SLOTS, has_slot};
use swap_io::LineBuf;
use swap_record::Record;
use swap_wire::{Event, Msg, Seen};

/// Appends a space and a word.
fn word(out: &mut LineBuf, word: &[u8])
    requires { length out.old + length word.now < LINE_LENGTH }
    ensures { out.new ≡ out.old ++ 32 ∷ word.now }
{
    out.text(b" ");
    out.text(word);
}

/// Appends a space and a number.
fn number(out: &mut LineBuf, n: u64)
    requires { length out.old + 21 ≤ LINE_LENGTH }
    ensures text { out.new ≡ out.old ++ 32 ∷ decimal n }
    ensures length { length out.new ≤ length out.old + 21 }
{
    out.text(b" ");
    out.decimal(n);
}

fn two_numbers(out: &mut LineBuf, a: u64, b: u64)
    requires { length out.old + 42 ≤ LINE_LENGTH }
    ensures text { out.new ≡ out.old ++ words_behind (decimal a ∷ decimal b ∷ []) }
    ensures length { length out.new ≤ length out.old + 42 }
{
    number(out, a);
    number(out, b);
}

fn three_numbers(out: &mut LineBuf, a: u64, b: u64, c: u64)
    requires { length out.old + 63 ≤ LINE_LENGTH }
    ensures text { out.new ≡ out.old ++ words_behind (decimal a ∷ decimal b ∷ decimal c ∷ []) }
    ensures length { length out.new ≤ length out.old + 63 }
{
    number(out, a);
    number(out, b);
    number(out, c);
}

/// Writes the geometry line of a transcript into the emptied `out`.
pub fn header_line(geometry: &Geometry, out: &mut LineBuf)
    ensures { out.new ≡ header geometry.now }
{
    out.clear();
    out.text(b"geometry");
    number(out, u64::from(geometry.page_bytes()));
    number(out, u64::from(geometry.pages_per_slab()));
    number(out, u64::from(geometry.slabs()));
    number(out, u64::from(geometry.queue()));
    number(out, u64::from(geometry.callers()));
    number(out, u64::from(geometry.window()));
    number(out, u64::from(geometry.hot()));
    out.text(b"\n");
}

/// Writes the line of a lender into the emptied `out`.
pub fn lender_line(spec: &LenderSpec, out: &mut LineBuf)
    ensures { out.new ≡ lender_header spec.now }
{
    out.clear();
    out.text(b"lender");
    number(out, u64::from(spec.slots));
    number(out, u64::from(spec.headroom));
    number(out, u64::from(spec.extra));
    out.text(b"\n");
}

/// Writes the last line of a transcript, with the number of entries, into the emptied `out`.
pub fn end_line(entries: u32, out: &mut LineBuf)
    ensures { out.new ≡ end_line entries }
{
    out.clear();
    out.text(b"end");
    number(out, u64::from(entries));
    out.text(b"\n");
}

fn field_word(field: Field) -> &'static [u8]
    ensures word { result.now ≡ field_word field }
    ensures length { length result.now ≤ 14 }
{
    match field {
        Field::PageBytes => b"page_bytes",
        Field::PagesPerSlab => b"pages_per_slab",
        Field::Slabs => b"slabs",
        Field::Queue => b"queue",
        Field::Callers => b"callers",
        Field::Window => b"window",
        Field::Hot => b"hot",
        Field::Pages => b"pages",
        Field::Bytes => b"bytes",
        Field::Slots => b"slots",
        Field::Headroom => b"headroom",
        Field::Extra => b"extra",
    }
}

/// The word of a reason.
pub fn why_word(why: Why) -> &'static [u8]
    ensures word { result.now ≡ why_word why }
    ensures length { length result.now ≤ 14 }
{
    match why {
        Why::Geometry => b"geometry",
        Why::Form => b"form",
        Why::Field(field) => field_word(field),
        Why::Lenders => b"lenders",
        Why::Lent => b"lent",
        Why::Caller => b"caller",
        Why::Page => b"page",
        Why::Slab => b"slab",
        Why::Lender => b"lender",
        Why::Pattern => b"pattern",
        Why::Calls => b"calls",
        Why::Events => b"events",
        Why::End => b"end",
        Why::Tcp => b"tcp",
    }
}

/// Writes `line N: WHY`, the text of a refused line, into the emptied `out`.
pub fn refusal_line(refused: &ScriptRefused, out: &mut LineBuf)
    ensures { out.new ≡ refusal refused.now }
{
    out.clear();
    out.text(b"line");
    number(out, u64::from(refused.line));
    out.text(b":");
    word(out, why_word(refused.why));
    out.text(b"\n");
}

fn event_name(event: &Event) -> &'static [u8]
    ensures word { result.now ≡ event_name event.now }
    ensures length { length result.now ≤ 7 }
{
    match event {
        Event::PageOut { .. } => b"out",
        Event::PageIn { .. } => b"in",
        Event::Finish { .. } => b"finish",
        Event::Start => b"start",
        Event::Disk { .. } => b"disk",
        Event::Tick { .. } => b"tick",
        Event::Map { .. } => b"map",
        Event::Connect { .. } => b"connect",
        Event::Give { .. } => b"give",
        Event::Take { .. } => b"take",
        Event::Cut { .. } => b"cut",
        Event::Crash { .. } => b"crash",
        Event::Host { .. } => b"host",
        Event::Round { .. } => b"round",
    }
}

fn ok_or_bad(ok: bool) -> &'static [u8]
    ensures word { result.now ≡ ok_or_bad ok }
    ensures length { length result.now ≤ 3 }
{
    if ok { b"ok" } else { b"bad" }
}

fn disk_words(which: DiskWhich, ok: bool, out: &mut LineBuf)
    requires { length out.old ≤ 100 }
    ensures text { out.new ≡ out.old ++ words_behind (disk_words which ok) }
    ensures length { length out.new ≤ length out.old + 31 }
{
    match which {
        DiskWhich::Write(page) => {
            word(out, b"write");
            number(out, u64::from(page.0));
            word(out, ok_or_bad(ok));
        }
        DiskWhich::Read(caller) => {
            word(out, b"read");
            number(out, u64::from(caller.0));
            word(out, ok_or_bad(ok));
        }
    }
}

/// Appends the words of an event behind its first.
fn event_rest(event: &Event, out: &mut LineBuf)
    requires { length out.old ≤ 100 }
    ensures text { out.new ≡ out.old ++ words_behind (event_rest event.now) }
    ensures length { length out.new ≤ length out.old + 63 }
{
    match *event {
        Event::PageOut { caller, page } | Event::PageIn { caller, page } => {
            two_numbers(out, u64::from(caller.0), u64::from(page.0))
        }
        Event::Finish { caller } => number(out, u64::from(caller.0)),
        Event::Start => {}
        Event::Disk { which, ok } => disk_words(which, ok, out),
        Event::Tick { word } | Event::Round { word } => number(out, word),
        Event::Map { slab, lender } => { two_numbers(out, u64::from(slab.0), u64::from(lender.0)) }
        Event::Connect { lender }
        | Event::Give { lender }
        | Event::Take { lender }
        | Event::Crash { lender } => number(out, u64::from(lender.0)),
        Event::Cut {
            lender,
            to_lender,
            to_device,
        } => three_numbers(
            out,
            u64::from(lender.0),
            u64::from(to_lender),
            u64::from(to_device),
        ),
        Event::Host { lender, used, word } => {
            three_numbers(out, u64::from(lender.0), u64::from(used), word)
        }
    }
}

/// Appends an entry's text behind a space.
fn entry_words(history: &Record, entry: EntryNo, out: &mut LineBuf)
    requires entry { entry.0 < length history.now.history }
    requires room { length out.old ≤ 1_000 }
    ensures text { out.new ≡ out.old ++ words_behind (entry_words history.now.history entry) }
    ensures length { length out.new ≤ length out.old + 8_401 }
{
    out.text(b" ");
    history.entry_text(entry, out);
}

fn via_words(via: Via, out: &mut LineBuf)
    requires { length out.old ≤ 9_900 }
    ensures text { out.new ≡ out.old ++ words_behind (via_words via) }
    ensures length { length out.new ≤ length out.old + 28 }
{
    match via {
        Via::Disk => word(out, b"disk"),
        Via::Lender(lender) => {
            word(out, b"lender");
            number(out, u64::from(lender.0));
        }
    }
}

fn sent_words(sent: Option<Lender>, out: &mut LineBuf)
    requires { length out.old ≤ 9_900 }
    ensures text { out.new ≡ out.old ++ words_behind (sent_words sent) }
    ensures length { length out.new ≤ length out.old + 24 }
{
    if let Some(lender) = sent {
        word(out, b"to");
        number(out, u64::from(lender.0));
    }
}

/// Appends a word of at most 7 bytes and a number.
fn named_number(out: &mut LineBuf, name: &[u8], n: u64)
    requires name { length name.now ≤ 7 }
    requires room { length out.old ≤ 1_000 }
    ensures text { out.new ≡ out.old ++ words_behind (name.now ∷ decimal n ∷ []) }
    ensures length { length out.new ≤ length out.old + 29 }
{
    word(out, name);
    number(out, n);
}

fn msg_name(msg: &Msg) -> &'static [u8]
    ensures word { result.now ≡ msg_name msg.now }
    ensures length { length result.now ≤ 7 }
{
    match msg {
        Msg::Hello { .. } => b"hello",
        Msg::Query { .. } => b"query",
        Msg::Borrow { .. } => b"borrow",
        Msg::Write { .. } => b"write",
        Msg::Read { .. } => b"read",
        Msg::Rates { .. } => b"rates",
        Msg::Done { .. } => b"done",
        Msg::Room { .. } => b"room",
        Msg::Lent { .. } => b"lent",
        Msg::Refused { .. } => b"refused",
        Msg::Wrote { .. } => b"wrote",
        Msg::PageIs { .. } => b"page",
        Msg::AskRates { .. } => b"ask",
        Msg::Evict { .. } => b"evict",
    }
}

/// Appends the numbers of a message.
fn msg_rest(msg: &Msg, out: &mut LineBuf)
    requires { length out.old ≤ 1_000 }
    ensures text { out.new ≡ out.old ++ words_behind (msg_rest msg.now) }
    ensures length { length out.new ≤ length out.old + 42 }
{
    match *msg {
        Msg::Hello { version, .. } => number(out, u64::from(version)),
        Msg::Query { slab } | Msg::Borrow { slab } | Msg::Refused { slab } => {
            number(out, u64::from(slab.0))
        }
        Msg::Write { lease, place }
        | Msg::Read { lease, place }
        | Msg::Wrote { lease, place }
        | Msg::PageIs { lease, place } => { two_numbers(out, u64::from(lease.0), u64::from(place)) }
        Msg::Rates { lease, value } => two_numbers(out, u64::from(lease.0), value),
        Msg::Done { lease } | Msg::AskRates { lease } | Msg::Evict { lease } => {
            number(out, u64::from(lease.0))
        }
        Msg::Room { slab, free } => two_numbers(out, u64::from(slab.0), u64::from(free)),
        Msg::Lent { slab, lease } => two_numbers(out, u64::from(slab.0), u64::from(lease.0)),
    }
}

fn msg_words(msg: &Msg, out: &mut LineBuf)
    requires { length out.old ≤ 900 }
    ensures text { out.new ≡ out.old ++ words_behind (msg_words msg.now) }
    ensures length { length out.new ≤ length out.old + 50 }
{
    word(out, msg_name(msg));
    msg_rest(msg, out);
}

fn reply_words(reply: &Option<Msg>, out: &mut LineBuf)
    requires { length out.old ≤ 800 }
    ensures text { out.new ≡ out.old ++ words_behind (reply_words reply.now) }
    ensures length { length out.new ≤ length out.old + 52 }
{
    if let Some(msg) = reply {
        word(out, b">");
        msg_words(msg, out);
    }
}

/// Appends a slot, if a set has it.
fn slot_word(set: u64, slot: u32, out: &mut LineBuf)
    requires { length out.old ≤ 9_000 }
    ensures text { out.new
        ≡ out.old ++ words_behind (if has set slot then decimal slot ∷ [] else []) }
    ensures length { length out.new ≤ length out.old + 21 }
{
    if has_slot(set, slot) {
        number(out, u64::from(slot));
    }
}

/// Appends the slots of a set, ascending.
fn slot_words(set: u64, out: &mut LineBuf)
    requires { length out.old ≤ 2_000 }
    ensures text { out.new ≡ out.old ++ words_behind (map decimal (slots set)) }
    ensures length { length out.new ≤ length out.old + 1_344 }
{
    for slot in 0..SLOTS {
        slot_word(set, slot, out);
    }
}

/// Appends a word of at most 5 bytes and the slots of a set, if it has some.
fn slots_behind(name: &[u8], set: u64, out: &mut LineBuf)
    requires name { length name.now ≤ 5 }
    requires room { length out.old ≤ 1_500 }
    ensures text { out.new ≡ out.old ++ words_behind (slots_behind name.now set) }
    ensures length { length out.new ≤ length out.old + 1_350 }
{
    if set != 0 {
        word(out, name);
        slot_words(set, out);
    }
}

fn evicted_words(set: u64, out: &mut LineBuf)
    requires { length out.old ≤ 1_500 }
    ensures text { out.new ≡ out.old ++ words_behind (evicted_words set) }
    ensures length { length out.new ≤ length out.old + 1_350 }
{
    slots_behind(b"evict", set, out);
}

/// Appends a slab and the lenders that were asked for room.
fn asked_words(slab: Slab, first: Lender, second: Option<Lender>, out: &mut LineBuf)
    requires { length out.old ≤ 1_000 }
    ensures text { out.new ≡ out.old
        ++ words_behind (codes "ask" ∷ decimal slab.0 ∷ decimal first.0 ∷ second_words second) }
    ensures length { length out.new ≤ length out.old + 80 }
{
    word(out, b"ask");
    two_numbers(out, u64::from(slab.0), u64::from(first.0));
    if let Some(lender) = second {
        number(out, u64::from(lender.0));
    }
}

/// Appends what a lender did with a message: the message that it took, its reply, and the slots
/// that were told to go.
fn gave_words(taken: &Msg, reply: &Option<Msg>, evicted: u64, out: &mut LineBuf)
    requires { length out.old ≤ 700 }
    ensures text { out.new ≡ out.old ++ words_behind (gave_words taken.now reply.now evicted) }
    ensures length { length out.new ≤ length out.old + 1_452 }
{
    msg_words(taken, out);
    reply_words(reply, out);
    evicted_words(evicted, out);
}

/// Appends the words of what was seen.
fn seen_words(seen: &Seen, history: &Record, out: &mut LineBuf)
    requires entry { HasEntry history.now.history seen.now }
    requires room { length out.old ≤ 500 }
    ensures text { out.new ≡ out.old ++ words_behind (seen_words history.now.history seen.now) }
    ensures length { length out.new ≤ length out.old + 8_425 }
{
    match *seen {
        Seen::Nothing => word(out, b"-"),
        Seen::Busy => word(out, b"busy"),
        Seen::Idle => word(out, b"idle"),
        Seen::Room => word(out, b"room"),
        Seen::Wait { via } => {
            word(out, b"wait");
            via_words(via, out);
        }
        Seen::Again { via } => {
            word(out, b"again");
            via_words(via, out);
        }
        Seen::Done { entry, sent } => {
            entry_words(history, entry, out);
            sent_words(sent, out);
        }
        Seen::Fault { entry } => entry_words(history, entry, out),
        Seen::Started { page, entry } => {
            named_number(out, b"write", u64::from(page.0));
            number(out, u64::from(entry.0));
        }
        Seen::Written { entry } => named_number(out, b"written", u64::from(entry.0)),
        Seen::WriteKept { entry } => named_number(out, b"kept", u64::from(entry.0)),
        Seen::WriteDropped { entry } => named_number(out, b"dropped", u64::from(entry.0)),
        Seen::ReadCame { page } => named_number(out, b"came", u64::from(page.0)),
        Seen::ReadFailed { page } => named_number(out, b"failed", u64::from(page.0)),
        Seen::Borrowing => word(out, b"borrow"),
        Seen::Linked { link } => named_number(out, b"link", u64::from(link.0)),
        Seen::Gave {
            ref msg,
            ref reply,
            evicted,
        } => gave_words(msg, reply, evicted, out),
        Seen::GaveEnd => word(out, b"end"),
        Seen::GaveEnded { ref msg } => {
            msg_words(msg, out);
            word(out, b"ended");
        }
        Seen::Took { ref msg } => msg_words(msg, out),
        Seen::Lost => word(out, b"lost"),
        Seen::Lied => word(out, b"lied"),
        Seen::Ticked => word(out, b"none"),
        Seen::Asked {
            slab,
            first,
            second,
        } => asked_words(slab, first, second, out),
        Seen::Cut => word(out, b"cut"),
        Seen::Crashed => word(out, b"crashed"),
        Seen::Hosted { mean, asked } => {
            number(out, mean);
            slots_behind(b"ask", asked, out);
        }
        Seen::Rounded { effects, mapped } => {
            number(out, u64::from(effects));
            named_number(out, b"mapped", u64::from(mapped));
        }
    }
}

/// Writes the line of an event into the emptied `out`: its words, and those of what was seen of it.
/// An entry that was answered must be one of the history.
pub fn event_line(event: &Event, seen: &Seen, history: &Record, out: &mut LineBuf)
    requires { HasEntry history.now.history seen.now }
    ensures { out.new ≡ line history.now.history (event.now, seen.now) }
{
    out.clear();
    out.text(event_name(event));
    event_rest(event, out);
    word(out, b"=");
    seen_words(seen, history, out);
    out.text(b"\n");
}
