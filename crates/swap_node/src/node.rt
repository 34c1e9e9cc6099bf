ghost use Rattle.std.specs.Prelude.{◌≡◌, ◌+◌, ◌<◌, ◌^◌, ◌*◌, ◌==◌, true, false, length, if◌then◌else◌, IfOk, Some};
ghost use Rattle.swap_lender.specs.Core.{IsLending};
ghost use Rattle.swap_node.specs.NodeView.{office_at_start, is_welcome, arrive_after, IsBeside, Departs, Arrives, Takes, Looks, Counts, Serves, PERIOD};
ghost use Rattle.swap_node.specs.Boards.{fits_line, with_line};
ghost use Rattle.swap_node.specs.Delivery.{Delivers, heard_one};
ghost use Rattle.rand_pcg.specs.Pcg.{pcg32_of_seed};
ghost use Rattle.rand_core.specs.Pcg32Seed.{pcg32_seed};

use crate::Replies;
use crate::lines::Lines;
use crate::send::send;
use rand_core::SeedableRng;
use rand_core::utils::NextWord;
use rand_pcg::Pcg32;
use std::alloc::Global;
use std::marker::Model;
use swap_base::{LenderSpec, Link, NoMemory};
use swap_io::Sink;
use swap_lender::{LenderCore, Outbox, Served};
use swap_wire::Msg;

/// What has been delivered of a link: how many messages, and whether the last one ended it. It is
/// made where the link arrives.
#[derive(Debug, Drop)]
pub struct Ear {
    link: Link,
    count: u64,
    ended: bool,
}

/// What became of a message: it was served, it ended its link, or its link was lost before, as a
/// reply couldn't be written.
#[derive(Drop)]
pub enum Delivered<K: Sink + Drop> {
    Fine,
    End,
    Down(Replies<K>),
}

impl Ear {
    /// Nothing was delivered yet.
    pub(crate) fn new(link: Link) -> Ear
        ensures { result ≡ record { link = link; count = 0; ended = false } }
    {
        Ear {
            link,
            count: 0,
            ended: false,
        }
    }

    /// The link's number.
    pub fn link(&self) -> Link
        ensures { result ≡ self.now.link }
    {
        self.link
    }

    /// How many messages were delivered; the count stops at 2^64 - 1.
    pub fn count(&self) -> u64
        ensures { result ≡ self.now.count }
    {
        self.count
    }

    /// Whether the last message ended the link.
    pub fn ended(&self) -> bool
        ensures { result ≡ self.now.ended }
    {
        self.ended
    }
}

/// A lender with the replies of its links. All memory is taken at `make`.
#[derive(Drop)]
pub struct Node<K: Sink + Drop> {
    core: LenderCore,
    lines: Lines<K>,
    out: Outbox,
    page: Vec<u8>,
    used: u32,
    since: u32,
    words: Pcg32,
}

impl<K: Sink + Drop> Model for Node<K> {
    ghost use Rattle.std.specs.Prelude.{◌≡◌, ◌<◌, [], length};
    ghost use Rattle.swap_lender.specs.Outbox.{IsReady};
    ghost use Rattle.swap_node.specs.NodeView.{NodeView, PERIOD};

    ghost Value = { NodeView K };

    ghost view = { λ n.
        record {
          core = n.core;
          board = n.lines;
          used = n.used;
          since = n.since;
          words = n.words;
        } };

    ghost invariant = { λ n. IsReady n.out n.core.lending
        × (length n.page.items ≡ n.core.lending.page_bytes)
        × (n.lines.page_bytes ≡ n.core.lending.page_bytes) × (n.lines.failed ≡ [])
        × (n.since < PERIOD) };
}

/// After so many messages the host is looked at.
const PERIOD_OF_LOOKS: u32 = 64;

impl<K: Sink + Drop> Node<K> {
    /// A lender as it is made, for so many links, whose host uses so many slots itself. The words
    /// that it chooses slots by are those of the Pcg32 of 1.
    pub fn make(
        alloc: Global,
        spec: LenderSpec,
        page_bytes: u32,
        pages_per_slab: u32,
        links: u32,
        used: u32,
    ) -> Result<Node<K>, NoMemory>
        requires limits { IsLending
            (record {
              spec = spec;
              page_bytes = page_bytes;
              pages_per_slab = pages_per_slab;
              links = links;
            }) }
        requires bytes { spec.slots * (pages_per_slab * page_bytes) < 2 ^ 64 }
        ensures { IfOk result
            (λ n. n
            ≡ office_at_start
            (record {
              spec = spec;
              page_bytes = page_bytes;
              pages_per_slab = pages_per_slab;
              links = links;
            })
            used
            (pcg32_of_seed (pcg32_seed 16 1))) }
    {
        let core = LenderCore::make(alloc, spec, page_bytes, pages_per_slab, links)?;
        let lines = Lines::make(alloc, links, page_bytes)?;
        let out = Outbox::make(alloc, spec.slots, page_bytes)?;
        let Ok(page) = vec![in alloc; 0; page_bytes as usize] else {
            return Err(NoMemory);
        };
        Ok(Node {
            core,
            lines,
            out,
            page,
            used,
            since: 0,
            words: Pcg32::seed_from_u64(1),
        })
    }

    /// A link is gone: its slots are free, and what that sends to others is put on their links.
    pub fn gone(&mut self, link: Link)
        ensures departs { Departs K.taken K.faults self.old link self.new }
        ensures lending { self.new.core.lending ≡ self.old.core.lending }
        ensures number { length self.new.board.lines ≡ length self.old.board.lines }
    {
        drop(self.lines.remove(link));
        self.core.gone(link, &mut self.out);
        send(
            &mut self.core,
            &mut self.lines,
            &mut self.out,
            self.page.as_mut_slice(),
        );
    }

    /// A link arrives, with its replies. An older link of its number is gone first. One whose
    /// number isn't below the number of links, or whose replies are for other pages, isn't there.
    pub fn arrive(&mut self, link: Link, replies: Replies<K>) -> Ear
        ensures ear { result ≡ record { link = link; count = 0; ended = false } }
        ensures arrives { Arrives K.taken K.faults self.old link replies self.new }
        ensures lending { self.new.core.lending ≡ self.old.core.lending }
        ensures number { length self.new.board.lines ≡ length self.old.board.lines }
    {
        self.gone(link);
        if self.lines.fits(link, &replies) {
            self.settle_in(link, replies);
        }
        Ear::new(link)
    }

    /// The lender knows of a link from now on, and it has its replies.
    fn settle_in(&mut self, link: Link, replies: Replies<K>)
        requires { fits_line self.old.board link replies ≡ true }
        ensures state { self.new
            ≡ record self.old {
              core = arrive_after self.old.core link;
              board = with_line self.old.board link (Some replies);
            } }
        ensures lending { self.new.core.lending ≡ self.old.core.lending }
        ensures number { length self.new.board.lines ≡ length self.old.board.lines }
    {
        if !self.core.stands(link) {
            self.core.arrive(link);
        }
        self.lines.set(link, replies);
    }

    /// A device's message comes from the ear's link, with its page where it has one.
    ///
    /// `Down` comes exactly where a put on the link's replies failed before; they are given up.
    /// Else `End` comes exactly where the link isn't there or may not send the message, or the page
    /// hasn't the length of a page; it is gone then. Else the message is served, what the lender
    /// sends is put on the links that it names, and after each 64th message the lender looks at its
    /// host.
    pub fn deliver(&mut self, ear: &mut Ear, msg: &Msg, page: &[u8]) -> Delivered<K>
        ensures delivers { Delivers K.taken K.faults self.old ear.old.link msg.now page.now
            result self.new }
        ensures ear { ear.new ≡ heard_one result ear.old }
        ensures lending { self.new.core.lending ≡ self.old.core.lending }
        ensures number { length self.new.board.lines ≡ length self.old.board.lines }
    {
        let link = ear.link;
        ear.count = ear.count.saturating_add(1);
        ear.ended = false;
        if let Some(replies) = self.lines.take_down(link) {
            return Delivered::Down(replies);
        }
        if !self.take(link, msg, page) {
            self.gone(link);
            ear.ended = true;
            return Delivered::End;
        }
        self.count();
        Delivered::Fine
    }

    /// Takes a message and puts what is sent in answer; false where the link isn't there or may not
    /// send it.
    fn take(&mut self, link: Link, msg: &Msg, page: &[u8]) -> bool
        ensures welcome { result ≡ is_welcome self.old.core link msg.now page.now }
        ensures takes { result ≡ true
            → Takes K.taken K.faults self.old link msg.now page.now self.new }
        ensures refused { result ≡ false → self.new ≡ self.old }
        ensures lending { self.new.core.lending ≡ self.old.core.lending }
        ensures number { length self.new.board.lines ≡ length self.old.board.lines }
    {
        if page.len() != self.page.len() || !self.core.stands(link) {
            return false;
        }
        match self.core.took(link, msg, page, &mut self.out) {
            Served::End => false,
            Served::Fine => {
                send(
                    &mut self.core,
                    &mut self.lines,
                    &mut self.out,
                    self.page.as_mut_slice(),
                );
                true
            }
        }
    }

    /// One message more was taken, and the host is looked at where it is time to.
    fn count(&mut self)
        ensures counts { Counts K.taken K.faults (self.old.since + 1 == PERIOD) self.old self.new }
        ensures lending { self.new.core.lending ≡ self.old.core.lending }
        ensures number { length self.new.board.lines ≡ length self.old.board.lines }
    {
        if self.since + 1 == PERIOD_OF_LOOKS {
            self.look();
        } else {
            self.since += 1;
        }
    }

    /// The host is looked at, and what the lender then asks is put on its links.
    fn look(&mut self)
        ensures looks { Looks K.taken K.faults self.old self.new }
        ensures lending { self.new.core.lending ≡ self.old.core.lending }
        ensures number { length self.new.board.lines ≡ length self.old.board.lines }
    {
        let word = u64::from(self.words.next_word());
        self.since = 0;
        self.core.host(self.used, word, &mut self.out);
        send(
            &mut self.core,
            &mut self.lines,
            &mut self.out,
            self.page.as_mut_slice(),
        );
    }
}
