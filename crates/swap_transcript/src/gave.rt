//! What a lender did with a message, and the slots of a set.
ghost use Rattle.std.specs.Prelude.{◌≡◌, ◌≤◌, ◌∷◌};
ghost use Rattle.swap_transcript.specs.Gave.{slots_from, slots_of, evicted_of, reply_of, ended_of, gave_behind};

use super::messages::msg_at;
use swap_base::Geometry;
use swap_choice::{SLOTS, with_slot};
use swap_script::forms::{is_word, small};
use swap_script::text::Words;
use swap_wire::{Msg, Seen};

/// The slots of a set, ascending, behind those below `least`.
fn slots_from(mut least: u32, mut set: u64, mut words: Words<'_>) -> Option<u64>
    requires { least ≤ 64 }
    ensures { result ≡ slots_from least set words.entry }
{
    'slots: while let Some(word) = words.next() {
        let slot = small(word)?;
        if slot < least || slot >= SLOTS {
            return None;
        }
        set = with_slot(set, slot);
        least = slot + 1;
    }
    Some(set)
}

/// One slot or more.
pub fn slots_of(words: Words<'_>) -> Option<u64>
    ensures { result ≡ slots_of words.entry }
{
    let set = slots_from(0, 0, words)?;
    if set == 0 { None } else { Some(set) }
}

fn evicted_behind(msg: Msg, reply: Option<Msg>, first: &[u8], words: Words<'_>) -> Option<Seen>
    ensures { result ≡ evicted_of msg reply (first.now ∷ words.entry) }
{
    if is_word(first, b"evict") {
        let evicted = slots_of(words)?;
        Some(Seen::Gave {
            msg,
            reply,
            evicted,
        })
    } else {
        None
    }
}

/// The slots that were told to go, if some were.
fn evicted_of(msg: Msg, reply: Option<Msg>, mut words: Words<'_>) -> Option<Seen>
    ensures { result ≡ evicted_of msg reply words.entry }
{
    match words.next() {
        None => Some(Seen::Gave {
            msg,
            reply,
            evicted: 0,
        }),
        Some(first) => evicted_behind(msg, reply, first, words),
    }
}

/// Behind the message that a lender took: its reply, and the slots; or that it ended the link.
pub fn gave_behind(geometry: &Geometry, msg: Msg, mut words: Words<'_>) -> Option<Seen>
    ensures { result ≡ gave_behind geometry.now msg words.entry }
{
    let Some(first) = words.next() else {
        return Some(Seen::Gave {
            msg,
            reply: None,
            evicted: 0,
        });
    };
    if is_word(first, b">") {
        let reply = msg_at(geometry, &mut words)?;
        evicted_of(msg, Some(reply), words)
    } else if is_word(first, b"ended") {
        words.none()?;
        Some(Seen::GaveEnded { msg })
    } else {
        evicted_behind(msg, None, first, words)
    }
}
