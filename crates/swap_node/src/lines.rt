ghost use Rattle.std.specs.Prelude.{◌≡◌, ℕ, ◌+◌, ◌≤◌, ◌<◌, [], ◌∷◌, ◌++◌, true, false, length, sum_by, replicate, if◌then◌else◌, IfOk, MatchOption, None, Some};
ghost use Rattle.swap_wire.specs.Frames.{frame, page_with};
ghost use Rattle.swap_node.specs.Boards.{Board, line_at, with_line, is_down, fits_line, weight, IsFor, PutsLine, PutsOn, empty_board, count_unsettled};

use crate::Replies;
use std::alloc::Global;
use std::marker::Model;
use swap_base::{Link, NoMemory};
use swap_io::Sink;
use swap_wire::Msg;

/// A link's replies, if it has some.
#[derive(Drop)]
pub(crate) struct Line<K: Sink + Drop> {
    replies: Option<Replies<K>>,
}

impl<K: Sink + Drop> Model for Line<K> {
    ghost use Rattle.std.specs.Prelude.{Option};
    ghost use Rattle.swap_node.specs.RepliesView.{RepliesView};

    ghost Value = { Option (RepliesView K) };

    ghost view = { λ l. l.replies };
}

impl<K: Sink + Drop> Line<K> {
    /// Puts a message, unless there are no replies or an earlier put failed; whether it failed.
    #[tactic(auto, using(crate::proofs::Puts::line_failed, crate::proofs::Puts::line_open))]
    fn put(&mut self, msg: &Msg, page: &[u8]) -> bool
        requires { IsFor (length page.now) self.old }
        ensures puts { PutsLine K.taken K.faults self.old
            (frame msg.now (page_with msg.now page.now)) self.new result }
        ensures weight { weight self.new + (if result then 1 else 0) ≡ weight self.old }
        ensures page { IsFor (length page.now) self.new }
    {
        let Some(replies) = &mut self.replies else {
            return false;
        };
        if replies.has_failed() {
            return false;
        }
        replies.post(msg, page)
    }

    fn is_down(&self) -> bool
        ensures { result ≡ is_down self.now }
    {
        match &self.replies {
            Some(replies) => replies.has_failed(),
            None => false,
        }
    }
}

/// The replies of each link that arrived and isn't gone, and the links on which a put failed and of
/// which the lender wasn't told yet. All memory is taken at `make`.
#[derive(Drop)]
pub(crate) struct Lines<K: Sink + Drop> {
    list: Vec<Line<K>>,
    failed: Vec<Link>,
    page_bytes: u32,
}

impl<K: Sink + Drop> Model for Lines<K> {
    ghost use Rattle.std.specs.Prelude.{◌≡◌, ◌+◌, ◌≤◌, All, sum_by, length, vec_capacity};
    ghost use Rattle.swap_node.specs.Boards.{Board, IsFor, weight};

    ghost Value = { Board K };

    ghost view = { λ l.
        record { lines = l.list.items; failed = l.failed.items; page_bytes = l.page_bytes } };

    ghost invariant = { λ l. All (λ o. IsFor l.page_bytes o) l.list.items
        × (sum_by (λ o. weight o) l.list.items + length l.failed.items ≤ vec_capacity l.failed)
        × (length l.list.items ≤ vec_capacity l.failed) };
}

/// So many links without replies.
fn make_list<K: Sink + Drop>(alloc: Global, links: u32) -> Result<Vec<Line<K>>, NoMemory>
    ensures { IfOk result (λ v. v.items ≡ replicate links None) }
{
    let Ok(mut list) = Vec::with_capacity(alloc, links as usize) else {
        return Err(NoMemory);
    };
    for _ in 0..links {
        list.push_reserved(Line { replies: None });
    }
    Ok(list)
}

impl<K: Sink + Drop> Lines<K> {
    /// No link has replies yet, of so many that there may be.
    pub(crate) fn make(alloc: Global, links: u32, page_bytes: u32) -> Result<Lines<K>, NoMemory>
        ensures { IfOk result (λ l. l ≡ empty_board links page_bytes) }
    {
        let list = make_list(alloc, links)?;
        let Ok(failed) = Vec::with_capacity(alloc, links as usize) else {
            return Err(NoMemory);
        };
        Ok(Lines {
            list,
            failed,
            page_bytes,
        })
    }

    /// Puts a message on a link's replies; it is dropped where the link has none or an earlier put
    /// failed.
    pub(crate) fn put(&mut self, link: Link, msg: &Msg, page: &[u8])
        requires { length page.now ≡ self.old.page_bytes }
        ensures puts { PutsOn K.taken K.faults self.old link
            (frame msg.now (page_with msg.now page.now)) self.new }
        ensures unsettled { count_unsettled self.new ≡ count_unsettled self.old }
        ensures page_bytes { self.new.page_bytes ≡ self.old.page_bytes }
        ensures number { length self.new.lines ≡ length self.old.lines }
    {
        let place = link.0 as usize;
        if place >= self.list.len() {
            return;
        }
        if self.list[place].put(msg, page) {
            self.failed.push_reserved(link);
        }
    }

    /// The first of the links on which a put failed.
    pub(crate) fn next_failed(&mut self) -> Option<Link>
        ensures first { MatchOption result ((self.old.failed ≡ []) × (self.new ≡ self.old))
            (λ link. self.old.failed ≡ link ∷ self.new.failed) }
        ensures rest { self.new ≡ record self.old { failed = self.new.failed } }
    {
        if self.failed.is_empty() {
            return None;
        }
        Some(self.failed.remove(0))
    }

    /// Takes a link's replies out where a put on them failed.
    #[tactic(auto, using(crate::proofs::Rows::past_none, crate::proofs::Rows::past_same))]
    pub(crate) fn take_down(&mut self, link: Link) -> Option<Replies<K>>
        ensures down { MatchOption result (is_down (line_at self.old link) ≡ false)
            (λ r. is_down (line_at self.old link) ≡ true) }
        ensures replies { MatchOption result (self.new ≡ self.old)
            (λ r. (line_at self.old link ≡ Some r) × (self.new ≡ with_line self.old link None)) }
    {
        let place = link.0 as usize;
        if place >= self.list.len() {
            return None;
        }
        if !self.list[place].is_down() {
            return None;
        }
        self.remove(link)
    }

    /// Takes a link's replies out.
    #[tactic(auto, using(crate::proofs::Rows::past_none, crate::proofs::Rows::past_same))]
    pub(crate) fn remove(&mut self, link: Link) -> Option<Replies<K>>
        ensures replies { result ≡ line_at self.old link }
        ensures lines { self.new ≡ with_line self.old link None }
    {
        let place = link.0 as usize;
        if place >= self.list.len() {
            return None;
        }
        self.list[place].replies.take()
    }

    /// Whether a link may have these replies: its number is one of those that there may be, and the
    /// pages fit.
    pub(crate) fn fits(&self, link: Link, replies: &Replies<K>) -> bool
        ensures { result ≡ fits_line self.now link replies.now }
    {
        (link.0 as usize) < self.list.len() && replies.page_bytes() == self.page_bytes
    }

    /// A link has these replies from now on.
    #[tactic(auto, using(crate::proofs::Rows::fits_both))]
    pub(crate) fn set(&mut self, link: Link, replies: Replies<K>)
        requires fits { fits_line self.old link replies ≡ true }
        requires settled { self.old.failed ≡ [] }
        ensures { self.new ≡ with_line self.old link (Some replies) }
    {
        self.list[link.0 as usize] = Line {
            replies: Some(replies),
        };
    }
}
