ghost use Rattle.std.specs.Prelude.{◌≡◌, ◌<◌, ◌+◌, ◌^◌, length, true, false, is_some, option_map, IsTrue, Some, None};
ghost use Rattle.swap_base.specs.Sizes.{pages_of};
ghost use Rattle.swap_calls.specs.Calls.{state_of as calls_state_of, is_waiting};
ghost use Rattle.swap_slabs.specs.Slabs.{state_of, flying_of, asks};
ghost use Rattle.swap_slabs.specs.declared.SlabState.TheVariants as SlabState;
ghost use Rattle.swap_base.specs.declared.TheConstants.{MOST_LENDERS};
ghost use Rattle.swap_remote.specs.Remote.{state_for, mapped_by};
ghost use Rattle.swap_rings.specs.Rings as rings;
ghost use Rattle.swap_table.specs.Device.{query_reply, borrow_reply, write_reply, read_reply, rate_asked, taken_back, query_answered, borrow_answered, write_answered, read_answered, rate_told, heard_evict, follow, understand, link_take, map, connect_on, connect, without_link};
ghost use Rattle.swap_table.specs.declared.TheConstants.{MOST_LINKS};
ghost use Rattle.swap_device.specs.State.{Agree, Went, Became, IsReady, LeavesRest, IsHeard, MayFollow, IsServed, answered_of, heard_of, heard_with};
ghost use Rattle.swap_wire.specs.declared.TheConstants.{WIRE_VERSION};

use crate::losing::MOST_LOSSES;
use crate::machine::Machine;
use crate::state::State;
use swap_base::{Caller, EntryNo, Lease, Lender, Link, Page, Slab};
use swap_disk::DiskPort;
use swap_rings::Request;
use swap_table::{LinkStep, MOST_LINKS};
use swap_wire::{Fabric, Msg, Took, WIRE_VERSION};

/// What the device says at once in answer to a message, and the slab that it borrows then.
#[derive(Clone, Copy)]
struct Answer {
    word: Option<Msg>,
    choice: Option<(Slab, Lender)>,
}

impl<D: DiskPort, F: Fabric> Machine<D, F> {
    // What follows on a message in the same step.
    fn follow(&mut self, lender: Lender, answer: Answer)
        requires lender { lender.0 < self.old.device.lenders }
        requires may { MayFollow self.old.device.sizes (Some answer) }
        requires ready { IsReady F.Fabric self.old }
        ensures moved { Became D.moves F.moves
            (λ d. follow (heard_with d answer) lender) self.old self.new }
        ensures rest { LeavesRest self.old self.new }
    {
        self.say(lender, answer.word);
        self.choose(MOST_LOSSES, answer.choice);
    }

    // What a message does: it is heard, or its link is ended and lost.
    fn understand(&mut self, lender: Lender, msg: Msg, bytes: &[u8]) -> LinkStep
        requires lender { lender.0 < self.old.device.lenders }
        requires bytes { length bytes.now ≡ self.old.device.sizes.page_bytes }
        requires front { IsServed self.old.device lender
            (rings.oldest (rings.ring_of self.old.device.remote.links lender)) }
        requires ready { IsReady F.Fabric self.old }
        ensures moved { Went D.moves F.moves
            (λ d.
            understand d lender msg
            (heard_of self.old.device lender msg bytes.now
            (rings.oldest (rings.ring_of self.old.device.remote.links lender))))
            self.old self.new result }
        ensures spare { self.new.spare ≡ self.old.spare }
        ensures history { self.new.device.history ≡ self.old.device.history }
    {
        let Some(answer) = hear(&mut self.state, lender, &msg, bytes) else {
            self.end(lender);
            self.lose(lender);
            return LinkStep::Lied;
        };
        self.follow(lender, answer);
        LinkStep::Got(msg)
    }

    /// Takes a message from a link that is up; its page stands in `page` on its way.
    pub fn link_take(&mut self, lender: Lender, page: &mut [u8]) -> LinkStep
        requires lender { lender.0 < self.old.device.lenders }
        requires page { length page.old ≡ self.old.device.sizes.page_bytes }
        requires agree { Agree D.DiskPort F.Fabric self.old }
        ensures moved { Went D.moves F.moves (λ d. link_take d lender) self.old self.new result }
        ensures spare { self.new.spare ≡ self.old.spare }
        ensures history { self.new.device.history ≡ self.old.device.history }
    {
        if !self.state.is_up(lender) {
            return LinkStep::Nothing;
        }
        match self.take(lender, page) {
            Took::Nothing => LinkStep::Nothing,
            Took::Lost => {
                self.lose(lender);
                LinkStep::Lost
            }
            Took::Got(msg) => self.understand(lender, msg, page),
        }
    }

    /// Asks a lender to lend a slab.
    pub fn map(&mut self, slab: Slab, lender: Lender) -> bool
        requires slab { slab.0 < self.old.device.sizes.slabs }
        requires lender { lender.0 < self.old.device.lenders }
        requires agree { Agree D.DiskPort F.Fabric self.old }
        ensures moved { Went D.moves F.moves (λ d. map d slab lender) self.old self.new result }
        ensures spare { self.new.spare ≡ self.old.spare }
        ensures history { self.new.device.history ≡ self.old.device.history }
    {
        let may = self.state.may_map(slab, lender);
        self.choose(MOST_LOSSES, Some((slab, lender)));
        may
    }

    // Makes a link to a lender that none leads to, and greets it.
    fn open_link(&mut self, lender: Lender) -> Option<Link>
        requires lender { lender.0 < self.old.device.lenders }
        requires links { self.old.device.links_made < MOST_LINKS }
        requires ready { IsReady F.Fabric self.old }
        ensures moved { Went D.moves F.moves (λ d. connect_on d lender) self.old self.new result }
        ensures spare { self.new.spare ≡ self.old.spare }
        ensures history { self.new.device.history ≡ self.old.device.history }
    {
        let link = Link(self.state.links_made());
        let geometry = self.state.geometry();
        self.open(lender, link);
        self.state.raised(lender);
        let hello = Msg::Hello {
            version: WIRE_VERSION,
            page_bytes: geometry.page_bytes(),
            pages_per_slab: geometry.pages_per_slab(),
        };
        self.say(lender, Some(hello));
        Some(link)
    }

    // The link of a lender is lost, where it is up.
    fn let_go(&mut self, lender: Lender)
        requires lender { lender.0 < self.old.device.lenders }
        requires ready { IsReady F.Fabric self.old }
        ensures moved { Became D.moves F.moves (λ d. without_link d lender) self.old self.new }
        ensures ready { IsReady F.Fabric self.new }
        ensures rest { LeavesRest self.old self.new }
    {
        if self.state.is_up(lender) {
            self.lose(lender);
        }
    }

    /// Makes a link to a lender, in place of the one that is up.
    pub fn connect(&mut self, lender: Lender) -> Option<Link>
        requires lender { lender.0 < self.old.device.lenders }
        requires agree { Agree D.DiskPort F.Fabric self.old }
        ensures moved { Went D.moves F.moves (λ d. connect d lender) self.old self.new result }
        ensures spare { self.new.spare ≡ self.old.spare }
        ensures history { self.new.device.history ≡ self.old.device.history }
    {
        if self.state.links_made() == MOST_LINKS {
            return None;
        }
        self.let_go(lender);
        self.open_link(lender)
    }
}

// The slab that a message tells the free slots for, with their number.
fn query_reply(msg: &Msg) -> Option<(Slab, u32)>
    ensures { result ≡ query_reply msg.now }
{
    match *msg {
        Msg::Room { slab, free } => Some((slab, free)),
        _ => None,
    }
}

// The slab that a message lends or refuses, with its lease where it was lent.
fn borrow_reply(msg: &Msg) -> Option<(Slab, Option<Lease>)>
    ensures { result ≡ borrow_reply msg.now }
{
    match *msg {
        Msg::Lent { slab, lease } => Some((slab, Some(lease))),
        Msg::Refused { slab } => Some((slab, None)),
        _ => None,
    }
}

// The place that a message says was written.
fn write_reply(msg: &Msg) -> Option<(Lease, u32)>
    ensures { result ≡ write_reply msg.now }
{
    match *msg {
        Msg::Wrote { lease, place } => Some((lease, place)),
        _ => None,
    }
}

// The place whose page a message brings.
fn read_reply(msg: &Msg) -> Option<(Lease, u32)>
    ensures { result ≡ read_reply msg.now }
{
    match *msg {
        Msg::PageIs { lease, place } => Some((lease, place)),
        _ => None,
    }
}

// The lease whose rate a message asks for.
fn rate_asked(msg: &Msg) -> Option<Lease>
    ensures { result ≡ rate_asked msg.now }
{
    match *msg {
        Msg::AskRates { lease } => Some(lease),
        _ => None,
    }
}

// The lease that a message takes back.
fn taken_back(msg: &Msg) -> Option<Lease>
    ensures { result ≡ taken_back msg.now }
{
    match *msg {
        Msg::Evict { lease } => Some(lease),
        _ => None,
    }
}

// A lease is given back, where there is one to give.
fn giving_back(lease: Option<Lease>) -> Answer
    ensures word { result.word ≡ option_map (λ lease. Msg.Done lease) lease }
    ensures choice { result.choice ≡ None }
{
    let word = match lease {
        Some(lease) => Some(Msg::Done { lease }),
        None => None,
    };
    Answer { word, choice: None }
}

// A lender that was asked tells how many slots are free.
fn hear_query(state: &mut State, lender: Lender, slab: Slab, msg: &Msg) -> Option<Answer>
    requires lender { lender.0 < MOST_LENDERS }
    requires slab { slab.0 < state.old.device.sizes.slabs }
    requires asks { IsTrue (asks lender (state_of state.old.device.remote.slabs slab)) }
    ensures heard { IsHeard
        (query_answered state.old.device lender slab (query_reply msg.now)) state.old.device
        state.new.device result }
    ensures may { MayFollow state.old.device.sizes result }
    ensures spare { state.new.spare ≡ state.old.spare }
    ensures history { state.new.device.history ≡ state.old.device.history }
{
    let (of, free) = query_reply(msg)?;
    if of.0 != slab.0 {
        return None;
    }
    let choice = state.told(lender, slab, free);
    Some(Answer { word: None, choice })
}

// A slab that was asked for is lent or refused.
fn hear_borrow(state: &mut State, lender: Lender, slab: Slab, msg: &Msg) -> Option<Answer>
    requires lender { lender.0 < MOST_LENDERS }
    requires slab { slab.0 < state.old.device.sizes.slabs }
    requires borrowing { state_of state.old.device.remote.slabs slab ≡ SlabState.Borrowing lender }
    ensures heard { IsHeard
        (borrow_answered state.old.device lender slab (borrow_reply msg.now)) state.old.device
        state.new.device result }
    ensures may { MayFollow state.old.device.sizes result }
    ensures spare { state.new.spare ≡ state.old.spare }
    ensures history { state.new.device.history ≡ state.old.device.history }
{
    let (of, lease) = borrow_reply(msg)?;
    if of.0 != slab.0 {
        return None;
    }
    let Some(lease) = lease else {
        state.refused(lender, slab);
        return Some(giving_back(None));
    };
    if state.is_leased(lender, lease) {
        return None;
    }
    state.lent(lender, slab, lease);
    Some(giving_back(None))
}

// A write came back.
fn hear_write(
    state: &mut State,
    lender: Lender,
    page: Page,
    entry: EntryNo,
    msg: &Msg,
) -> Option<Answer>
    requires lender { lender.0 < MOST_LENDERS }
    requires page { page.0 < pages_of state.old.device.sizes }
    requires flying { 0
        < flying_of (state_for state.old.device.sizes state.old.device.remote.slabs page) }
    ensures heard { IsHeard
        (write_answered state.old.device lender page entry (write_reply msg.now))
        state.old.device state.new.device result }
    ensures may { MayFollow state.old.device.sizes result }
    ensures spare { state.new.spare ≡ state.old.spare }
    ensures history { state.new.device.history ≡ state.old.device.history }
{
    let (lease, place) = write_reply(msg)?;
    if !state.names_page(lender, page, lease, place) {
        return None;
    }
    Some(giving_back(state.written(lender, page, entry)))
}

// A read came back with its page.
fn hear_read(
    state: &mut State,
    lender: Lender,
    caller: Caller,
    page: Page,
    msg: &Msg,
    bytes: &[u8],
) -> Option<Answer>
    requires lender { lender.0 < MOST_LENDERS }
    requires caller { caller.0 < state.old.device.sizes.callers }
    requires page { page.0 < pages_of state.old.device.sizes }
    requires bytes { length bytes.now ≡ state.old.device.sizes.page_bytes }
    requires waiting { is_waiting (calls_state_of state.old.device.calls caller) ≡ true }
    requires flying { 0
        < flying_of (state_for state.old.device.sizes state.old.device.remote.slabs page) }
    ensures heard { IsHeard
        (read_answered state.old.device lender caller page bytes.now (read_reply msg.now))
        state.old.device state.new.device result }
    ensures may { MayFollow state.old.device.sizes result }
    ensures spare { state.new.spare ≡ state.old.spare }
    ensures history { state.new.device.history ≡ state.old.device.history }
{
    let (lease, place) = read_reply(msg)?;
    if !state.names_page(lender, page, lease, place) {
        return None;
    }
    Some(giving_back(state.brought(lender, caller, page, bytes)))
}

// Hears a message that answers the oldest request of its link.
fn hear_answer(state: &mut State, lender: Lender, msg: &Msg, bytes: &[u8]) -> Option<Answer>
    requires lender { lender.0 < MOST_LENDERS }
    requires bytes { length bytes.now ≡ state.old.device.sizes.page_bytes }
    requires front { IsServed state.old.device lender
        (rings.oldest (rings.ring_of state.old.device.remote.links lender)) }
    ensures heard { IsHeard
        (answered_of state.old.device lender msg.now bytes.now
        (rings.oldest (rings.ring_of state.old.device.remote.links lender)))
        state.old.device state.new.device result }
    ensures may { MayFollow state.old.device.sizes result }
    ensures spare { state.new.spare ≡ state.old.spare }
    ensures history { state.new.device.history ≡ state.old.device.history }
{
    match state.oldest(lender) {
        None => None,
        Some(Request::Query { slab }) => hear_query(state, lender, slab, msg),
        Some(Request::Borrow { slab }) => hear_borrow(state, lender, slab, msg),
        Some(Request::Write { page, entry }) => hear_write(state, lender, page, entry, msg),
        Some(Request::Read { caller, page }) => {
            hear_read(state, lender, caller, page, msg, bytes)
        }
    }
}

// A lender asks for the rate of a slab.
fn tell_rate(state: &State, lender: Lender, lease: Lease) -> Option<Answer>
    requires lender { lender.0 < MOST_LENDERS }
    ensures heard { IsHeard
        (rate_told state.now.device lease
        (mapped_by state.now.device.remote.slabs lender lease))
        state.now.device state.now.device result }
    ensures may { MayFollow state.now.device.sizes result }
{
    let slab = state.mapped_by(lender, lease)?;
    let value = state.rate_of(slab);
    Some(Answer {
        word: Some(Msg::Rates { lease, value }),
        choice: None,
    })
}

// A lender takes a slab back.
fn evict(state: &mut State, lender: Lender, lease: Lease) -> Option<Answer>
    requires lender { lender.0 < MOST_LENDERS }
    ensures heard { IsHeard
        (heard_evict state.old.device (mapped_by state.old.device.remote.slabs lender lease))
        state.old.device state.new.device result }
    ensures may { MayFollow state.old.device.sizes result }
    ensures spare { state.new.spare ≡ state.old.spare }
    ensures history { state.new.device.history ≡ state.old.device.history }
{
    let slab = state.mapped_by(lender, lease)?;
    Some(giving_back(state.evict(slab)))
}

// Hears a message, where it is allowed.
fn hear(state: &mut State, lender: Lender, msg: &Msg, bytes: &[u8]) -> Option<Answer>
    requires lender { lender.0 < MOST_LENDERS }
    requires bytes { length bytes.now ≡ state.old.device.sizes.page_bytes }
    requires front { IsServed state.old.device lender
        (rings.oldest (rings.ring_of state.old.device.remote.links lender)) }
    ensures heard { IsHeard
        (heard_of state.old.device lender msg.now bytes.now
        (rings.oldest (rings.ring_of state.old.device.remote.links lender)))
        state.old.device state.new.device result }
    ensures may { MayFollow state.old.device.sizes result }
    ensures spare { state.new.spare ≡ state.old.spare }
    ensures history { state.new.device.history ≡ state.old.device.history }
{
    if let Some(lease) = rate_asked(msg) {
        return tell_rate(state, lender, lease);
    }
    if let Some(lease) = taken_back(msg) {
        return evict(state, lender, lease);
    }
    hear_answer(state, lender, msg, bytes)
}
