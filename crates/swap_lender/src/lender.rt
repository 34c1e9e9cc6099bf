ghost use Rattle.std.specs.Prelude.{map, ◌+◌, ◌-◌, ◌≡◌, ℕ, ◌<◌, ◌≤◌, ◌^◌, ◌*◌, ◌&&◌, not, ◌==◌, IfOk, MatchOption, IsTrue, false, length, if◌then◌else◌, option_map, is_none, nat_lt};
ghost use Rattle.std.specs.List.{list_any};
ghost use Rattle.swap_wire.specs.declared.Msg.TheVariants as msg;
ghost use Rattle.swap_activity.specs.Rates.{ceiling};
ghost use Rattle.swap_choice.specs.Slots.{size};
ghost use Rattle.swap_evict.specs.Rounds.{round_at_start, answer, waits_for};
ghost use Rattle.swap_lender.specs.Lender.{lender_at_start, is_evicting, is_free, first_where, has_lease, slot_in, holds, slot_of, stands, has_greeted, used_slots, held_slots, lends, slots_free};
ghost use Rattle.swap_lender.specs.Outbox.{outbox_with, IsReady};
ghost use Rattle.swap_lender.specs.Table.{mark_slots, quiet_turn, hello, may_hello, query, may_borrow, borrow, lend, may_reach, write, read, is_awaited, may_rates, rates, may_done, done_after, may_send, serve, took_after, served_by, measure_after, staying_slots, missing, to_evict, to_ask, asked_slots, opens, open_round, host_after, host_result_after, host, host_result, has_room, arrive, free_slot, round_left, without_peer, gone_after, restart, slots_due, settle};
ghost use Rattle.swap_lender.specs.Core.{IsLending, IsLender, IsBatch, IsWaiting};

use crate::peers::{forget, greet, has_greeted, stands};
use crate::slots::{
    count_held, free_all, has_slab, is_evicting, leave, lowest_free, mark, slot_by_lease, staying,
};
use crate::{LEASES, Lending, Notice, Outbox, Peer, Served, SlotState};
use std::alloc::Global;
use std::marker::Model;
use swap_activity::{ONE, average};
use swap_base::{Lease, LenderSpec, Link, NoMemory, Slab};
use swap_choice::{picked, slot_count};
use swap_evict::EvictRound;
use swap_store::Slabs;
use swap_wire::{Hosted, Msg, WIRE_VERSION};

/// A lender of slots. All memory is taken at `make`.
#[derive(Drop)]
pub struct LenderCore {
    lending: Lending,
    slots: Vec<SlotState>,
    contents: Slabs,
    peers: Vec<Peer>,
    usage: u64,
    next_lease: u32,
    round: Option<EvictRound>,
}

impl Model for LenderCore {
    ghost use Rattle.std.specs.Prelude.{◌≤◌, vec_capacity};
    ghost use Rattle.swap_activity.specs.Rates.{greatest};
    ghost use Rattle.swap_lender.specs.Lender.{Lender};
    ghost use Rattle.swap_lender.specs.Core.{SlotsFit, ContentsFit, PeersFit};

    ghost Value = { Lender };

    ghost view = { λ l.
        record {
          lending = l.lending;
          slots = l.slots.items;
          contents = l.contents.slabs;
          peers = l.peers.items;
          usage = l.usage;
          next_lease = l.next_lease;
          round = l.round;
        } };

    ghost invariant = { λ l. SlotsFit l.lending l.slots.items × ContentsFit l.lending l.contents
        × PeersFit l.lending l.peers.items (vec_capacity l.peers) × (l.usage ≤ greatest) };
}

/// A usage as whole slots, rounded up.
fn whole(usage: u64) -> u64
    ensures { result ≡ ceiling usage }
{
    usage.div_ceil(ONE)
}

impl LenderCore {
    /// A lender that lends nothing yet, with no links. It has 1 to 64 slots, and at most 64 of
    /// headroom and of extra; the bytes of all its slots are below 2^64.
    pub fn make(
        alloc: Global,
        spec: LenderSpec,
        page_bytes: u32,
        pages_per_slab: u32,
        links: u32,
    ) -> Result<LenderCore, NoMemory>
        requires limits { IsLending
            (record {
              spec = spec;
              page_bytes = page_bytes;
              pages_per_slab = pages_per_slab;
              links = links;
            }) }
        requires bytes { spec.slots * (pages_per_slab * page_bytes) < 2 ^ 64 }
        ensures { IfOk result
            (λ l. l
            ≡ lender_at_start
            (record {
              spec = spec;
              page_bytes = page_bytes;
              pages_per_slab = pages_per_slab;
              links = links;
            })) }
    {
        let Ok(slots) = vec![in alloc; SlotState::Free; spec.slots as usize] else {
            return Err(NoMemory);
        };
        let Ok(contents) = Slabs::make(
            alloc,
            spec.slots as usize,
            pages_per_slab as usize,
            page_bytes as usize,
        ) else {
            return Err(NoMemory);
        };
        let Ok(peers) = Vec::with_capacity(alloc, links as usize) else {
            return Err(NoMemory);
        };
        Ok(LenderCore {
            lending: Lending {
                spec,
                page_bytes,
                pages_per_slab,
                links,
            },
            slots,
            contents,
            peers,
            usage: 0,
            next_lease: 0,
            round: None,
        })
    }

    /// What every lender keeps.
    pub fn keeps(&self)
        ensures { IsLender self.now }
    {
        let _next = self.next_lease;
    }

    /// How many slots are free to be lent.
    pub fn free(&self) -> u32
        ensures { result ≡ slots_free self.now }
    {
        if self.next_lease == LEASES {
            return 0;
        }
        self.vacancies()
    }

    /// How many slots are free to be lent, as long as leases are left.
    fn vacancies(&self) -> u32
        ensures { result
            ≡ self.now.lending.spec.slots
            - (used_slots self.now + held_slots self.now + self.now.lending.spec.headroom) }
    {
        let slots = u64::from(self.lending.spec.slots);
        let taken = whole(self.usage)
            + count_held(&self.slots) as u64
            + u64::from(self.lending.spec.headroom);
        slots.saturating_sub(taken) as u32
    }

    /// A slot's state.
    pub fn slot(&self, i: u32) -> SlotState
        requires { i < length self.now.slots }
        ensures { result ≡ slot_in self.now.slots i }
    {
        self.slots[i as usize]
    }

    /// Whether a link stands.
    pub fn stands(&self, link: Link) -> bool
        ensures { result ≡ stands self.now link }
    {
        stands(&self.peers, link)
    }

    /// A link stands from now on. False exactly where as many as there may be stand.
    pub fn arrive(&mut self, link: Link) -> bool
        requires { stands self.old link ≡ false }
        ensures room { result ≡ has_room self.old }
        ensures state { self.new ≡ arrive self.old link }
        ensures lending { self.new.lending ≡ self.old.lending }
    {
        if self.peers.len() >= self.lending.links as usize {
            return false;
        }
        self.peers.push_reserved(Peer {
            link,
            greeted: false,
        });
        true
    }

    /// A message comes from a standing link. `End` exactly where the table doesn't let that link
    /// send it now: nothing changes, and the caller then tells that the link is `gone`. A reply
    /// and, where a round of eviction is over, what goes to the links of its slots are left in the
    /// outbox.
    pub fn took(&mut self, link: Link, msg: &Msg, page: &[u8], out: &mut Outbox) -> Served
        requires link { IsTrue (stands self.old link) }
        requires page { length page.now ≡ self.old.lending.page_bytes }
        requires out { IsReady out.old self.old.lending }
        ensures served { result ≡ served_by (may_send self.old link msg.now) }
        ensures state { self.new ≡ (took_after self.old link msg.now page.now).lender }
        ensures lending { self.new.lending ≡ self.old.lending }
        ensures waits { IsWaiting self.old.round → IsWaiting self.new.round }
        ensures outbox { out.new
            ≡ outbox_with out.old (took_after self.old link msg.now page.now).parcels
            (took_after self.old link msg.now page.now).evicted }
        ensures batch { IsBatch (took_after self.old link msg.now page.now).closed
            (took_after self.old link msg.now page.now).evicted }
    {
        out.begin();
        match *msg {
            Msg::Hello {
                version,
                page_bytes,
                pages_per_slab,
            } => self.hello(link, version, page_bytes, pages_per_slab),
            Msg::Query { slab } => self.query(link, slab, out),
            Msg::Borrow { slab } => self.borrow(link, slab, out),
            Msg::Write { lease, place } => self.write(link, lease, place, page, out),
            Msg::Read { lease, place } => self.read(link, lease, place, out),
            Msg::Rates { lease, value } => self.rates(link, lease, value, out),
            Msg::Done { lease } => self.done(link, lease),
            _ => Served::End,
        }
    }

    /// The link greets.
    fn hello(&mut self, link: Link, version: u32, page_bytes: u32, pages_per_slab: u32) -> Served
        ensures served { result
            ≡ served_by (may_hello self.old link version page_bytes pages_per_slab) }
        ensures state { self.new
            ≡ (if may_hello self.old link version page_bytes pages_per_slab
            then hello self.old link else quiet_turn self.old).lender }
        ensures lending { self.new.lending ≡ self.old.lending }
        ensures round { self.new.round ≡ self.old.round }
    {
        let may = !has_greeted(&self.peers, link)
            && version == WIRE_VERSION
            && page_bytes == self.lending.page_bytes
            && pages_per_slab == self.lending.pages_per_slab;
        if !may {
            return Served::End;
        }
        greet(&mut self.peers, link);
        Served::Fine
    }

    /// The link asks how many slots are free.
    fn query(&mut self, link: Link, slab: Slab, out: &mut Outbox) -> Served
        requires out { IsReady out.old self.old.lending }
        ensures served { result ≡ served_by (has_greeted self.old link) }
        ensures state { self.new
            ≡ (if has_greeted self.old link then query self.old link slab
            else quiet_turn self.old).lender }
        ensures lending { self.new.lending ≡ self.old.lending }
        ensures round { self.new.round ≡ self.old.round }
        ensures outbox { out.new
            ≡ outbox_with out.old
            (if has_greeted self.old link then query self.old link slab
            else quiet_turn self.old).parcels
            out.old.evicted }
    {
        if !has_greeted(&self.peers, link) {
            return Served::End;
        }
        let free = self.free();
        out.put(link, Msg::Room { slab, free });
        Served::Fine
    }

    /// The link borrows a slot for a slab.
    fn borrow(&mut self, link: Link, slab: Slab, out: &mut Outbox) -> Served
        requires out { IsReady out.old self.old.lending }
        ensures served { result ≡ served_by (may_borrow self.old link slab) }
        ensures state { self.new
            ≡ (if may_borrow self.old link slab then borrow self.old link slab
            else quiet_turn self.old).lender }
        ensures lending { self.new.lending ≡ self.old.lending }
        ensures round { self.new.round ≡ self.old.round }
        ensures outbox { out.new
            ≡ outbox_with out.old
            (if may_borrow self.old link slab then borrow self.old link slab
            else quiet_turn self.old).parcels
            out.old.evicted }
    {
        if !has_greeted(&self.peers, link) || has_slab(&self.slots, link, slab) {
            return Served::End;
        }
        if self.free() == 0 {
            out.put(link, Msg::Refused { slab });
        } else {
            let lease = self.lend(link, slab);
            out.put(link, Msg::Lent { slab, lease });
        }
        Served::Fine
    }

    /// The lowest free slot is held by the next lease, all zeros.
    fn lend(&mut self, link: Link, slab: Slab) -> Lease
        requires { IsTrue (lends self.old) }
        ensures lease { result ≡ record { 0 = self.old.next_lease } }
        ensures state { self.new
            ≡ (lend self.old link slab (first_where is_free self.old.slots)).lender }
        ensures lending { self.new.lending ≡ self.old.lending }
    {
        let slot = lowest_free(&self.slots).unwrap();
        let lease = Lease(self.next_lease);
        self.slots[slot] = SlotState::Held {
            link,
            slab,
            lease,
            evicting: false,
        };
        self.contents.clear(slot);
        self.next_lease += 1;
        lease
    }

    /// The link writes a page.
    fn write(
        &mut self,
        link: Link,
        lease: Lease,
        place: u32,
        page: &[u8],
        out: &mut Outbox,
    ) -> Served
        requires page { length page.now ≡ self.old.lending.page_bytes }
        requires out { IsReady out.old self.old.lending }
        ensures served { result ≡ served_by (may_reach self.old link lease place) }
        ensures state { self.new
            ≡ (if may_reach self.old link lease place
            then write self.old link lease place page.now else quiet_turn self.old).lender }
        ensures lending { self.new.lending ≡ self.old.lending }
        ensures round { self.new.round ≡ self.old.round }
        ensures outbox { out.new
            ≡ outbox_with out.old
            (if may_reach self.old link lease place
            then write self.old link lease place page.now else quiet_turn self.old).parcels
            out.old.evicted }
    {
        let Some(slot) = slot_by_lease(&self.slots, link, lease) else {
            return Served::End;
        };
        if place >= self.lending.pages_per_slab {
            return Served::End;
        }
        self.contents.write(slot, place as usize, page);
        out.put(link, Msg::Wrote { lease, place });
        Served::Fine
    }

    /// The link reads a page.
    fn read(&mut self, link: Link, lease: Lease, place: u32, out: &mut Outbox) -> Served
        requires out { IsReady out.old self.old.lending }
        ensures served { result ≡ served_by (may_reach self.old link lease place) }
        ensures state { self.new
            ≡ (if may_reach self.old link lease place then read self.old link lease place
            else quiet_turn self.old).lender }
        ensures lending { self.new.lending ≡ self.old.lending }
        ensures round { self.new.round ≡ self.old.round }
        ensures outbox { out.new
            ≡ outbox_with out.old
            (if may_reach self.old link lease place then read self.old link lease place
            else quiet_turn self.old).parcels
            out.old.evicted }
    {
        let Some(slot) = slot_by_lease(&self.slots, link, lease) else {
            return Served::End;
        };
        if place >= self.lending.pages_per_slab {
            return Served::End;
        }
        out.put_page(link, lease, place, self.contents.page(slot, place as usize));
        Served::Fine
    }

    /// The link tells the rate of a slot that it was asked for.
    fn rates(&mut self, link: Link, lease: Lease, value: u64, out: &mut Outbox) -> Served
        requires out { IsReady out.old self.old.lending }
        requires none { out.old.evicted ≡ 0 }
        ensures served { result ≡ served_by (may_rates self.old link lease) }
        ensures state { self.new
            ≡ (if may_rates self.old link lease then rates self.old link lease value
            else quiet_turn self.old).lender }
        ensures lending { self.new.lending ≡ self.old.lending }
        ensures waits { IsWaiting self.old.round → IsWaiting self.new.round }
        ensures outbox { out.new
            ≡ outbox_with out.old
            (if may_rates self.old link lease then rates self.old link lease value
            else quiet_turn self.old).parcels
            (if may_rates self.old link lease then rates self.old link lease value
            else quiet_turn self.old).evicted }
        ensures batch { IsBatch
            (if may_rates self.old link lease then rates self.old link lease value
            else quiet_turn self.old).closed
            (if may_rates self.old link lease then rates self.old link lease value
            else quiet_turn self.old).evicted }
    {
        let Some(slot) = slot_by_lease(&self.slots, link, lease) else {
            return Served::End;
        };
        if !self.note_rate(slot, value) {
            return Served::End;
        }
        self.settle(out);
        Served::Fine
    }

    /// Notes a rate, where the open round waits for it.
    fn note_rate(&mut self, slot: usize, value: u64) -> bool
        requires { slot < length self.old.slots }
        ensures waits { result ≡ is_awaited self.old.round slot }
        ensures state { self.new
            ≡ (if is_awaited self.old.round slot
            then record self.old { round = option_map (answer slot value) self.old.round }
            else self.old) }
        ensures lending { self.new.lending ≡ self.old.lending }
    {
        let Some(round) = &mut self.round else {
            return false;
        };
        if !round.waits_for(slot as u32) {
            return false;
        }
        round.rate_came(slot as u32, value);
        true
    }

    /// The link gives back a slot that it was told to.
    fn done(&mut self, link: Link, lease: Lease) -> Served
        ensures served { result ≡ served_by (may_done self.old link lease) }
        ensures state { self.new
            ≡ (if may_done self.old link lease then done_after self.old link lease
            else quiet_turn self.old).lender }
        ensures lending { self.new.lending ≡ self.old.lending }
        ensures round { self.new.round ≡ self.old.round }
    {
        let Some(slot) = slot_by_lease(&self.slots, link, lease) else {
            return Served::End;
        };
        if !is_evicting(self.slots[slot]) {
            return Served::End;
        }
        self.slots[slot] = SlotState::Free;
        Served::Fine
    }

    /// The slots to evict, once the open round is ready.
    fn due(&self) -> Option<u64>
        ensures value { result ≡ slots_due self.now.round }
        ensures batch { MatchOption result (IsWaiting self.now.round)
            (λ set. IsBatch self.now.round set) }
    {
        match &self.round {
            Some(round) => round.ready(),
            None => None,
        }
    }

    /// Closes the open round where it is ready: its slots are told to go.
    fn settle(&mut self, out: &mut Outbox)
        requires out { IsReady out.old self.old.lending }
        requires none { out.old.evicted ≡ 0 }
        ensures state { self.new ≡ (settle self.old).lender }
        ensures lending { self.new.lending ≡ self.old.lending }
        ensures waits { IsWaiting self.new.round }
        ensures outbox { out.new
            ≡ outbox_with out.old (settle self.old).parcels (settle self.old).evicted }
        ensures batch { IsBatch (settle self.old).closed (settle self.old).evicted }
    {
        let Some(set) = self.due() else {
            return;
        };
        out.evict(set, &self.slots);
        self.close(set);
    }

    /// The round is over, and these slots are being evicted.
    fn close(&mut self, set: u64)
        ensures { self.new
            ≡ record self.old { slots = mark_slots set 0 self.old.slots; round = None } }
    {
        mark(&mut self.slots, set);
        self.round = None;
    }

    /// The host uses so many slots of memory itself. Where no round is open and slots are missing,
    /// a round asks the held slots that the word picks, some more than have to go. The answer is
    /// the host's average, rounded up, and the asked slots.
    pub fn host(&mut self, used: u32, word: u64, out: &mut Outbox) -> Hosted
        requires out { IsReady out.old self.old.lending }
        ensures answer { result ≡ host_result self.old used word }
        ensures state { self.new ≡ (host self.old used word).lender }
        ensures lending { self.new.lending ≡ self.old.lending }
        ensures waits { IsWaiting self.old.round → IsWaiting self.new.round }
        ensures outbox { out.new ≡ outbox_with out.old (host self.old used word).parcels 0 }
    {
        out.begin();
        self.measure(used);
        self.ask(word, out)
    }

    fn measure(&mut self, used: u32)
        ensures { self.new ≡ measure_after self.old used }
    {
        self.usage = average(self.usage, used);
    }

    /// How many of the held slots have to go, of so many that stay.
    fn to_evict(&self, count: u32) -> u32
        requires { count ≡ size (staying_slots self.now) }
        ensures value { result ≡ to_evict self.now }
        ensures few { result ≤ count }
    {
        let wanted = u64::from(self.lending.spec.headroom) + whole(self.usage) + u64::from(count);
        let missing = wanted.saturating_sub(u64::from(self.lending.spec.slots));
        missing.min(u64::from(count)) as u32
    }

    /// Opens a round where none is open and slots are missing.
    fn ask(&mut self, word: u64, out: &mut Outbox) -> Hosted
        requires out { IsReady out.old self.old.lending }
        requires none { out.old.evicted ≡ 0 }
        ensures answer { result ≡ host_result_after self.old word }
        ensures state { self.new ≡ (host_after self.old word).lender }
        ensures lending { self.new.lending ≡ self.old.lending }
        ensures waits { IsWaiting self.old.round → IsWaiting self.new.round }
        ensures outbox { out.new ≡ outbox_with out.old (host_after self.old word).parcels 0 }
    {
        let mean = whole(self.usage);
        let staying = staying(&self.slots);
        let count = slot_count(staying);
        let evict = self.to_evict(count);
        if self.round.is_some() || evict == 0 {
            return Hosted { mean, asked: 0 };
        }
        let asked = picked(
            word,
            staying,
            count.min(evict.saturating_add(self.lending.spec.extra)),
        );
        out.tell(Notice::AskRates, asked, &self.slots);
        self.round = Some(EvictRound::make(asked, evict));
        Hosted { mean, asked }
    }

    /// A link is gone, and its slots are free. The open round waits for none of them any more;
    /// where it is over, what goes to the links of its slots is left in the outbox.
    pub fn gone(&mut self, link: Link, out: &mut Outbox)
        requires out { IsReady out.old self.old.lending }
        ensures state { self.new ≡ (gone_after self.old link).lender }
        ensures lending { self.new.lending ≡ self.old.lending }
        ensures waits { IsWaiting self.new.round }
        ensures outbox { out.new
            ≡ outbox_with out.old (gone_after self.old link).parcels
            (gone_after self.old link).evicted }
        ensures batch { IsBatch (gone_after self.old link).closed
            (gone_after self.old link).evicted }
    {
        out.begin();
        self.leave_round(link);
        self.free_slots(link);
        self.forget(link);
        self.settle(out);
    }

    fn leave_round(&mut self, link: Link)
        ensures { self.new
            ≡ record self.old {
              round = option_map
                  (round_left link self.old.slots) self.old.round;
            } }
    {
        if let Some(round) = &mut self.round {
            leave(round, &self.slots, link);
        }
    }

    fn free_slots(&mut self, link: Link)
        ensures { self.new
            ≡ record self.old { slots = map (λ state. free_slot link state) self.old.slots } }
    {
        free_all(&mut self.slots, link);
    }

    fn forget(&mut self, link: Link)
        ensures { self.new ≡ record self.old { peers = without_peer link self.old.peers } }
    {
        forget(&mut self.peers, link);
    }

    /// As it was made: a lender that crashed has no links, and all its slots are free and zeros.
    pub fn restart(&mut self)
        ensures { self.new ≡ restart self.old }
    {
        self.slots.as_mut_slice().fill(SlotState::Free);
        self.contents.clear_all();
        self.peers.clear();
        self.usage = 0;
        self.next_lease = 0;
        self.round = None;
    }
}
