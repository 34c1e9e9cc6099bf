ghost use Rattle.std.specs.Prelude.{◌≡◌, ℕ, ◌+◌, ◌≤◌, ◌<◌, ◌^◌, ◌++◌, length, take, drop, find, OnOk, OnErr};
ghost use Rattle.std.specs.Int.{w32, w64, from_be_bytes};
ghost use Rattle.swap_wire.specs.Frames.{form, form_of, word, long, fields, frame, page_with, NumbersFit, IsBytes, IsFrame};
ghost use Rattle.swap_wire.specs.Heads.{whole_length, same_side, agree, all_kinds, may_begin, judge_head, GoesAsFar, word_at, long_at, message, fields_in, page_of};
ghost use Rattle.swap_wire.specs.Buffer.{free_bytes, append_after};

use crate::buffer::{FrameBuf, NoPlace};
use crate::kind::{KINDS, Kind};
use crate::{Msg, Side};
use swap_base::{Lease, Slab};

/// Appends the frame of a message. The page matters only where the message has one, and is then of
/// a page's length.
///
/// `NoPlace` comes exactly where the frame is longer than what is free, and leaves the buffer as it
/// was.
pub fn encode(msg: &Msg, page: &[u8], out: &mut FrameBuf) -> Result<(), NoPlace>
    requires { length (page_with msg.now page.now) ≤ 4096 }
    ensures ok { OnOk result
        (out.new ≡ append_after out.old (frame msg.now (page_with msg.now page.now))) }
    ensures placed { OnOk result
        (length (frame msg.now (page_with msg.now page.now)) ≤ free_bytes out.old) }
    ensures no_place { OnErr result
        (free_bytes out.old < length (frame msg.now (page_with msg.now page.now))) }
    ensures is_frame { OnOk result
        (IsFrame (form_of msg.now).from (length page.now) msg.now (page_with msg.now page.now)
        (frame msg.now (page_with msg.now page.now))) }
    ensures unchanged { OnErr result (out.new ≡ out.old) }
{
    let form = Kind::of(msg).form();
    let page = if form.pages == 0 { &page[..0] } else { page };
    let length = 1 + (form.fields + page.len() as u32);
    if out.free() < 4 + length as usize {
        return Err(NoPlace);
    }
    out.append(&length.to_be_bytes());
    out.append(&[form.number]);
    put_fields(msg, out);
    out.append(page);
    Ok(())
}

/// Appends a message's fields, which have room.
fn put_fields(msg: &Msg, out: &mut FrameBuf)
    requires { length (fields msg.now) ≤ free_bytes out.old }
    ensures fields { out.new ≡ append_after out.old (fields msg.now) }
    ensures numbers { NumbersFit msg.now }
{
    match *msg {
        Msg::Hello {
            version,
            page_bytes,
            pages_per_slab,
        } => put_three(version, page_bytes, pages_per_slab, out),
        Msg::Query { slab } | Msg::Borrow { slab } | Msg::Refused { slab } => {
            put_one(slab.0, out);
        }
        Msg::Write { lease, place }
        | Msg::Read { lease, place }
        | Msg::Wrote { lease, place }
        | Msg::PageIs { lease, place } => put_two(lease.0, place, out),
        Msg::Rates { lease, value } => put_rate(lease.0, value, out),
        Msg::Done { lease } | Msg::AskRates { lease } | Msg::Evict { lease } => {
            put_one(lease.0, out);
        }
        Msg::Room { slab, free } => put_two(slab.0, free, out),
        Msg::Lent { slab, lease } => put_two(slab.0, lease.0, out),
    }
}

fn put_one(first: u32, out: &mut FrameBuf)
    requires { 4 ≤ free_bytes out.old }
    ensures word { out.new ≡ append_after out.old (word first) }
    ensures fits { first < 2 ^ 32 }
{
    out.append(&first.to_be_bytes());
}

fn put_two(first: u32, second: u32, out: &mut FrameBuf)
    requires { 8 ≤ free_bytes out.old }
    ensures words { out.new ≡ append_after out.old (word first ++ word second) }
    ensures fits { (first < 2 ^ 32) × (second < 2 ^ 32) }
{
    put_one(first, out);
    put_one(second, out);
}

fn put_three(first: u32, second: u32, third: u32, out: &mut FrameBuf)
    requires { 12 ≤ free_bytes out.old }
    ensures words { out.new ≡ append_after out.old (word first ++ word second ++ word third) }
    ensures fits { (first < 2 ^ 32) × (second < 2 ^ 32) × (third < 2 ^ 32) }
{
    put_one(first, out);
    put_one(second, out);
    put_one(third, out);
}

fn put_rate(first: u32, second: u64, out: &mut FrameBuf)
    requires { 12 ≤ free_bytes out.old }
    ensures words { out.new ≡ append_after out.old (word first ++ long second) }
    ensures fits { (first < 2 ^ 32) × (second < 2 ^ 64) }
{
    put_one(first, out);
    out.append(&second.to_be_bytes());
}

/// What bytes are to a decoder: they begin with a whole frame of a kind, they are a proper front of
/// a frame, or no further bytes make them one.
#[derive(Clone, Copy)]
pub(crate) enum Judged {
    Whole(Kind),
    Partial,
    Hopeless,
}

/// What the bytes are, by their first five.
pub(crate) fn judge(side: Side, page_bytes: u32, bytes: &[u8]) -> Judged
    requires { page_bytes ≤ 4096 }
    ensures judged { result ≡ judge_head side page_bytes bytes.now }
    ensures whole { GoesAsFar page_bytes bytes.now result }
    ensures bytes { IsBytes bytes.now }
{
    let Some(kind) = kind_in_front(side, page_bytes, bytes) else {
        return Judged::Hopeless;
    };
    if bytes.len() < kind.form().whole_length(page_bytes) {
        Judged::Partial
    } else {
        Judged::Whole(kind)
    }
}

/// The first kind of the side whose head agrees with the bytes.
fn kind_in_front(side: Side, page_bytes: u32, bytes: &[u8]) -> Option<Kind>
    requires { page_bytes ≤ 4096 }
    ensures { result ≡ find (may_begin side page_bytes bytes.now) all_kinds }
{
    KINDS
        .iter()
        .copied()
        .find(|kind| may_begin(side, page_bytes, bytes, *kind))
}

/// Whether a frame of the kind may begin so.
fn may_begin(side: Side, page_bytes: u32, bytes: &[u8], kind: Kind) -> bool
    requires { page_bytes ≤ 4096 }
    ensures { result ≡ may_begin side page_bytes bytes.now kind }
{
    let form = kind.form();
    is_same(side, form.from) && agree(&form.head(page_bytes), bytes)
}

fn is_same(side: Side, other: Side) -> bool
    ensures { result ≡ same_side side other }
{
    match (side, other) {
        (Side::Device, Side::Device) | (Side::Lender, Side::Lender) => true,
        (Side::Device, Side::Lender) | (Side::Lender, Side::Device) => false,
    }
}

/// Whether two lists of bytes are the same as far as both go.
fn agree(xs: &[u8], ys: &[u8]) -> bool
    ensures { result ≡ agree xs.now ys.now }
{
    let n = xs.len().min(ys.len());
    xs[..n] == ys[..n]
}

/// The message of a whole frame of a kind. Its page goes to the front of the buffer.
pub(crate) fn read_frame(kind: Kind, page_bytes: u32, frame: &[u8], page: &mut [u8]) -> Msg
    requires frame { length frame.now ≡ whole_length page_bytes (form kind) }
    requires page { length page.old ≡ page_bytes }
    ensures msg { result ≡ message kind (fields_in kind frame.now) }
    ensures page { page.new ≡ page_of kind frame.now
        ++ drop (length (page_of kind frame.now)) page.old }
{
    let at = 5 + kind.form().fields as usize;
    let n = frame.len() - at;
    page[..n].copy_from_slice(&frame[at..]);
    message(kind, &frame[5..at])
}

/// The message of a kind with these fields.
fn message(kind: Kind, bytes: &[u8]) -> Msg
    requires { length bytes.now ≡ (form kind).fields }
    ensures { result ≡ message kind bytes.now }
{
    let lease = |at| Lease(word_at(bytes, at));
    let slab = Slab(word_at(bytes, 0));
    match kind {
        Kind::Hello => Msg::Hello {
            version: word_at(bytes, 0),
            page_bytes: word_at(bytes, 4),
            pages_per_slab: word_at(bytes, 8),
        },
        Kind::Query => Msg::Query { slab },
        Kind::Borrow => Msg::Borrow { slab },
        Kind::Write => Msg::Write {
            lease: lease(0),
            place: word_at(bytes, 4),
        },
        Kind::Read => Msg::Read {
            lease: lease(0),
            place: word_at(bytes, 4),
        },
        Kind::Rates => Msg::Rates {
            lease: lease(0),
            value: long_at(bytes, 4),
        },
        Kind::Done => Msg::Done { lease: lease(0) },
        Kind::Room => Msg::Room {
            slab,
            free: word_at(bytes, 4),
        },
        Kind::Lent => Msg::Lent {
            slab,
            lease: lease(4),
        },
        Kind::Refused => Msg::Refused { slab },
        Kind::Wrote => Msg::Wrote {
            lease: lease(0),
            place: word_at(bytes, 4),
        },
        Kind::PageIs => Msg::PageIs {
            lease: lease(0),
            place: word_at(bytes, 4),
        },
        Kind::AskRates => Msg::AskRates { lease: lease(0) },
        Kind::Evict => Msg::Evict { lease: lease(0) },
    }
}

fn word_at(bytes: &[u8], at: usize) -> u32
    requires { at + 4 ≤ length bytes.now }
    ensures { result ≡ word_at bytes.now at }
{
    let (front, _) = bytes[at..].split_at(4);
    u32::from_be_bytes([front[0], front[1], front[2], front[3]])
}

fn long_at(bytes: &[u8], at: usize) -> u64
    requires { at + 8 ≤ length bytes.now }
    ensures { result ≡ long_at bytes.now at }
{
    let (front, _) = bytes[at..].split_at(8);
    u64::from_be_bytes([
        front[0], front[1], front[2], front[3], front[4], front[5], front[6], front[7],
    ])
}
