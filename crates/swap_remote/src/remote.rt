ghost use Rattle.std.specs.Prelude.{◌≡◌, ◌<◌, ◌≤◌, ◌+◌, ℕ, length, not, IfOk, IfSome, IsTrue, is_some, Some, None};
ghost use Rattle.swap_base.specs.Sizes.{pages_of, slab_of, place_of};
ghost use Rattle.swap_slabs.specs.Slabs as slabs;
ghost use Rattle.swap_slabs.specs.Kept.{IsSlabs, IsNew};
ghost use Rattle.swap_choice.specs.Asked as choice;
ghost use Rattle.swap_base.specs.declared.TheConstants.{MOST_LENDERS, MOST_WINDOW};
ghost use Rattle.swap_rings.specs.Rings as rings;
ghost use Rattle.swap_remote.specs.Remote.{remote_at_start, slab_for, state_for, mapping, open_at, target, up_from, fresh_lenders, other_lenders, has_page, names_page, changed_after, sent_for, query_sent, told_after, gone_after, borrow_sent, lent_after, refused_after, settled_for, with_page_if, written_after, mapped_by, evicted_after, left_from, lost_after, raised_after};
ghost use Rattle.swap_remote.specs.Kept.{MayAsk, AreAsked};

use arrayvec::ArrayVec;
use std::alloc::Global;
use std::marker::Model;
use swap_base::{Geometry, Lease, Lender, MOST_LENDERS, NoMemory, Page, Slab};
use swap_bits::{PageBits, is_a_set};
use swap_choice::{Asked, two_lenders};
use swap_rings::{Request, Rings};
use swap_slabs::{Chosen, Reply, SlabState, Slabs};

/// The pages that remote memory has, the states of the slabs, and the links. All memory is taken at
/// `make`.
#[derive(Drop)]
pub struct Remote {
    geometry: Geometry,
    bits: PageBits,
    slabs: Slabs,
    rings: Rings,
}

impl Model for Remote {
    ghost use Rattle.swap_remote.specs.Remote.{RemoteView};
    ghost use Rattle.swap_remote.specs.Kept.{AreTables};

    ghost Value = { RemoteView };

    ghost view = { λ r.
        record {
          sizes = r.geometry;
          remote = record { bits = r.bits; slabs = r.slabs; links = r.rings.links };
        } };

    ghost invariant = { λ r. AreTables r.geometry r.bits r.slabs r.rings };
}

// Where a slab is mapped.
fn mapping(state: SlabState) -> Option<(Lender, Lease)>
    ensures { result ≡ mapping state }
{
    match state {
        SlabState::Mapped { lender, lease, .. } => Some((lender, lease)),
        _ => None,
    }
}

// Whether a slab is mapped.
fn is_mapped(state: SlabState) -> bool
    ensures { result ≡ slabs.is_mapped state }
{
    matches!(state, SlabState::Mapped { .. })
}

// Whether a slab has this lease of a lender.
fn has_lease(state: SlabState, lender: Lender, lease: Lease) -> bool
    ensures { result ≡ slabs.has_lease lender lease state }
{
    match state {
        SlabState::Mapped {
            lender: other,
            lease: its,
            ..
        } => { other.0 == lender.0 && its.0 == lease.0 }
        SlabState::Draining {
            lender: other,
            lease: its,
            ..
        } => { other.0 == lender.0 && its.0 == lease.0 }
        _ => false,
    }
}

fn is_waiting(reply: Reply) -> bool
    ensures { result ≡ slabs.is_waiting reply }
{
    matches!(reply, Reply::Waiting)
}

// Whether a reply of a lender is waited for.
fn asks(state: SlabState, lender: Lender) -> bool
    ensures { result ≡ slabs.asks lender state }
{
    match state {
        SlabState::Asking(pair) => {
            (pair.first.0 == lender.0 && is_waiting(pair.one))
                || (pair.second.is_some_and(|second| second.0 == lender.0) && is_waiting(pair.two))
        }
        _ => false,
    }
}

// The lenders whose link is up, ascending: those that hold no slab, and the others.
#[derive(Drop)]
struct Askable {
    fresh: ArrayVec<u32, 8>,
    others: ArrayVec<u32, 8>,
}

fn lenders_up(rings: &Rings, states: &Slabs) -> Askable
    requires { length rings.now.links ≡ MOST_LENDERS }
    ensures fresh { result.fresh.items
        ≡ up_from (λ l. not (slabs.holds states.now l)) rings.now.links 0 }
    ensures others { result.others.items
        ≡ up_from (λ l. slabs.holds states.now l) rings.now.links 0 }
{
    let mut fresh = ArrayVec::new();
    let mut others = ArrayVec::new();
    for lender in 0..MOST_LENDERS {
        if rings.is_up(Lender(lender)) {
            if states.holds(Lender(lender)) {
                others.push(lender);
            } else {
                fresh.push(lender);
            }
        }
    }
    Askable { fresh, others }
}

// Each slab at a lender is local, with its bits cleared.
fn send_home(geometry: &Geometry, states: &mut Slabs, bits: &mut PageBits, lender: Lender)
    requires lender { lender.0 < MOST_LENDERS }
    requires states { length states.old ≡ geometry.now.slabs }
    requires bits { length bits.old ≡ pages_of geometry.now }
    ensures states { states.new ≡ slabs.lost_after states.old lender }
    ensures bits { bits.new ≡ left_from geometry.now states.old lender bits.old 0 }
{
    let each = geometry.pages_per_slab();
    geometry.limits();
    is_a_set();
    while let Some(slab) = states.one_at(lender) {
        bits.clear_range(slab.0 * each, slab.0 * each + each);
        states.send_home(slab);
    }
}

impl Remote {
    /// No link is up, no slab mapped, no bit set. No other call of `Remote` takes memory.
    pub fn make(alloc: Global, geometry: Geometry) -> Result<Remote, NoMemory>
        ensures { IfOk result (λ r. r
            ≡ record { sizes = geometry; remote = remote_at_start geometry }) }
    {
        Ok(Remote {
            geometry,
            bits: PageBits::make(alloc, geometry.pages())?,
            slabs: Slabs::make(alloc, &geometry)?,
            rings: Rings::make(alloc, &geometry, MOST_LENDERS)?,
        })
    }

    /// What the tables keep: their sizes, and the states of the slabs.
    pub fn keeps(&self)
        ensures slabs { IsSlabs self.now.remote.slabs }
        ensures slabs_len { length self.now.remote.slabs ≡ self.now.sizes.slabs }
        ensures bits_len { length self.now.remote.bits ≡ pages_of self.now.sizes }
        ensures links_len { length self.now.remote.links ≡ MOST_LENDERS }
        ensures rings { rings.AreWithin self.now.sizes.window self.now.remote.links }
    {
        self.slabs.keeps();
        self.rings.keeps();
    }

    /// Whether remote memory can be read for a page.
    pub fn has_page(&self, page: Page) -> bool
        requires { page.0 < pages_of self.now.sizes }
        ensures { result ≡ has_page self.now.remote page }
    {
        self.bits.get(page.0)
    }

    /// Where a request for a page may go now: the lender and the lease of its slab.
    pub fn target(&self, page: Page) -> Option<(Lender, Lease)>
        requires { page.0 < pages_of self.now.sizes }
        ensures { result ≡ target self.now.sizes self.now.remote page }
    {
        self.slabs.keeps();
        let (lender, lease) = mapping(self.slabs.state(self.geometry.slab_of(page)))?;
        if self.rings.may_send(lender) {
            Some((lender, lease))
        } else {
            None
        }
    }

    /// Whether a link is up.
    pub fn is_up(&self, lender: Lender) -> bool
        requires { lender.0 < MOST_LENDERS }
        ensures { result ≡ rings.is_up self.now.remote.links lender }
    {
        self.rings.is_up(lender)
    }

    /// Whether a link takes a request now.
    pub fn may_send(&self, lender: Lender) -> bool
        requires { lender.0 < MOST_LENDERS }
        ensures { result
            ≡ rings.may_send self.now.sizes.window (rings.link_of self.now.remote.links lender) }
    {
        self.rings.may_send(lender)
    }

    /// The request on a link that was sent first, of those that no answer came to.
    pub fn oldest(&self, lender: Lender) -> Option<Request>
        requires { lender.0 < MOST_LENDERS }
        ensures { result ≡ rings.oldest (rings.ring_of self.now.remote.links lender) }
    {
        self.rings.oldest(lender)
    }

    /// Whether a slab is local.
    pub fn is_local(&self, slab: Slab) -> bool
        requires { slab.0 < self.now.sizes.slabs }
        ensures { result ≡ slabs.is_local (slabs.state_of self.now.remote.slabs slab) }
    {
        matches!(self.slabs.state(slab), SlabState::Local)
    }

    /// Whether a message names a page: the page's slab has this lease of the lender, and the page
    /// this place.
    pub fn names_page(&self, lender: Lender, page: Page, lease: Lease, place: u32) -> bool
        requires { page.0 < pages_of self.now.sizes }
        ensures { result ≡ names_page self.now.sizes self.now.remote lender page lease place }
    {
        let state = self.slabs.state(self.geometry.slab_of(page));
        has_lease(state, lender, lease) && self.geometry.place_in_slab(page) == place
    }

    /// Whether a slab has this lease of the lender.
    pub fn is_leased(&self, lender: Lender, lease: Lease) -> bool
        requires { lender.0 < MOST_LENDERS }
        ensures { result ≡ is_some (slabs.by_lease self.now.remote.slabs lender lease) }
    {
        self.slabs.by_lease(lender, lease).is_some()
    }

    /// Whether a reply of a lender about a slab is waited for.
    pub fn asks(&self, slab: Slab, lender: Lender) -> bool
        requires { slab.0 < self.now.sizes.slabs }
        ensures { result ≡ slabs.asks lender (slabs.state_of self.now.remote.slabs slab) }
    {
        asks(self.slabs.state(slab), lender)
    }

    /// The slab that is mapped at a lender with this lease.
    pub fn mapped_by(&self, lender: Lender, lease: Lease) -> Option<Slab>
        requires { lender.0 < MOST_LENDERS }
        ensures slab { result ≡ mapped_by self.now.remote.slabs lender lease }
        ensures within { IfSome result (λ slab. slab.0 < self.now.sizes.slabs) }
        ensures mapped { IfSome result
            (λ slab. IsTrue (slabs.is_mapped (slabs.state_of self.now.remote.slabs slab))) }
    {
        let slab = self.slabs.by_lease(lender, lease)?;
        if is_mapped(self.slabs.state(slab)) {
            Some(slab)
        } else {
            None
        }
    }

    /// The lenders that a word picks to be asked for a slab: of those whose link is up, first those
    /// that hold none.
    pub fn to_ask(&self, word: u64) -> Asked
        ensures asked { result
            ≡ choice.two_asked word (fresh_lenders self.now.remote)
            (other_lenders self.now.remote) }
        ensures lenders { AreAsked result }
    {
        let askable = lenders_up(&self.rings, &self.slabs);
        two_lenders(word, askable.fresh.as_slice(), askable.others.as_slice())
    }

    /// The states of the slabs.
    pub fn slabs(&self) -> &Slabs
        ensures { result.now ≡ self.now.remote.slabs }
    {
        &self.slabs
    }

    /// How many slabs are mapped.
    pub fn mapped(&self) -> u32
        ensures { result ≡ slabs.mapped_count self.now.remote.slabs }
    {
        self.slabs.mapped()
    }

    /// A page was changed: remote memory can't be read for it.
    pub fn changed(&mut self, page: Page)
        requires { page.0 < pages_of self.old.sizes }
        ensures { self.new ≡ record self.old { remote = changed_after self.old.remote page } }
    {
        self.bits.clear(page.0);
    }

    /// A request for a page was sent to the lender of its slab.
    pub fn sent_for(&mut self, lender: Lender, page: Page, request: Request)
        requires page { page.0 < pages_of self.old.sizes }
        requires lender { lender.0 < MOST_LENDERS }
        requires mapped { IsTrue
            (slabs.is_mapped (state_for self.old.sizes self.old.remote.slabs page)) }
        requires flying { slabs.flying_of (state_for self.old.sizes self.old.remote.slabs page)
            < MOST_WINDOW }
        requires room { length (rings.ring_of self.old.remote.links lender)
            < self.old.sizes.window }
        ensures { self.new
            ≡ record self.old
            { remote = sent_for self.old.sizes self.old.remote lender page request } }
    {
        self.slabs.begin(self.geometry.slab_of(page));
        self.rings.send(lender, request);
    }

    /// A slab was asked for: of one lender, or of a second beside the first.
    pub fn query_sent(&mut self, slab: Slab, first: Option<Lender>, lender: Lender)
        requires slab { slab.0 < self.old.sizes.slabs }
        requires lender { lender.0 < MOST_LENDERS }
        requires state { MayAsk first lender (slabs.state_of self.old.remote.slabs slab) }
        requires room { length (rings.ring_of self.old.remote.links lender)
            < self.old.sizes.window }
        ensures { self.new
            ≡ record self.old { remote = query_sent self.old.remote slab first lender } }
    {
        self.rings.send(lender, Request::Query { slab });
        match first {
            None => self.slabs.ask(slab, lender, None),
            Some(first) => self.slabs.ask_second(slab, first, lender),
        }
    }

    /// A lender that was asked tells how many slots are free. Once no reply is waited for, the
    /// answer is the choice.
    pub fn told(&mut self, lender: Lender, slab: Slab, free: u32) -> Option<Chosen>
        requires slab { slab.0 < self.old.sizes.slabs }
        requires lender { lender.0 < MOST_LENDERS }
        requires asks { IsTrue (slabs.asks lender (slabs.state_of self.old.remote.slabs slab)) }
        ensures tables { self.new
            ≡ record self.old { remote = told_after self.old.remote lender slab free } }
        ensures choice { result
            ≡ slabs.answer_choice (slabs.state_of self.old.remote.slabs slab) lender
            (Reply.Free free) }
    {
        self.rings.answer(lender);
        self.slabs.answer(slab, lender, Reply::Free(free))
    }

    /// A lender that was asked is gone. Once no reply is waited for, the answer is the choice.
    pub fn gone(&mut self, lender: Lender, slab: Slab) -> Option<Chosen>
        requires slab { slab.0 < self.old.sizes.slabs }
        requires asks { IsTrue (slabs.asks lender (slabs.state_of self.old.remote.slabs slab)) }
        ensures tables { self.new
            ≡ record self.old { remote = gone_after self.old.remote lender slab } }
        ensures choice { result
            ≡ slabs.answer_choice (slabs.state_of self.old.remote.slabs slab) lender Reply.Gone }
    {
        self.slabs.answer(slab, lender, Reply::Gone)
    }

    /// A slab was asked to be lent.
    pub fn borrow_sent(&mut self, slab: Slab, lender: Lender)
        requires slab { slab.0 < self.old.sizes.slabs }
        requires lender { lender.0 < MOST_LENDERS }
        requires local { IsTrue (slabs.is_local (slabs.state_of self.old.remote.slabs slab)) }
        requires room { length (rings.ring_of self.old.remote.links lender)
            < self.old.sizes.window }
        ensures { self.new ≡ record self.old { remote = borrow_sent self.old.remote slab lender } }
    {
        self.slabs.borrow_from(slab, lender);
        self.rings.send(lender, Request::Borrow { slab });
    }

    /// A slab was lent: it is mapped.
    pub fn lent(&mut self, lender: Lender, slab: Slab, lease: Lease)
        requires slab { slab.0 < self.old.sizes.slabs }
        requires lender { lender.0 < MOST_LENDERS }
        requires borrowing { slabs.state_of self.old.remote.slabs slab
            ≡ SlabState.Borrowing lender }
        requires lease { slabs.by_lease self.old.remote.slabs lender lease ≡ None }
        ensures { self.new
            ≡ record self.old { remote = lent_after self.old.remote lender slab lease } }
    {
        self.slabs.lent(slab, lease);
        self.rings.answer(lender);
    }

    /// A slab wasn't lent: it is local.
    pub fn refused(&mut self, lender: Lender, slab: Slab)
        requires slab { slab.0 < self.old.sizes.slabs }
        requires lender { lender.0 < MOST_LENDERS }
        requires borrowing { slabs.state_of self.old.remote.slabs slab
            ≡ SlabState.Borrowing lender }
        ensures { self.new
            ≡ record self.old { remote = refused_after self.old.remote lender slab } }
    {
        self.slabs.refused(slab);
        self.rings.answer(lender);
    }

    /// The oldest request on a link, one for this page, was answered. The lease of its slab is
    /// given back where that was the last to fly for a slab that drains.
    pub fn settled_for(&mut self, lender: Lender, page: Page) -> Option<Lease>
        requires page { page.0 < pages_of self.old.sizes }
        requires lender { lender.0 < MOST_LENDERS }
        requires flying { 0
            < slabs.flying_of (state_for self.old.sizes self.old.remote.slabs page) }
        ensures tables { self.new
            ≡ record self.old { remote = settled_for self.old.sizes self.old.remote lender page } }
        ensures lease { result
            ≡ slabs.settled_lease (state_for self.old.sizes self.old.remote.slabs page) }
    {
        self.rings.answer(lender);
        self.slabs.settled(self.geometry.slab_of(page))
    }

    /// It was a write: remote memory can be read for the page where its slab is mapped and the
    /// write was of the page's newest entry.
    pub fn written(&mut self, lender: Lender, page: Page, newest: bool) -> Option<Lease>
        requires page { page.0 < pages_of self.old.sizes }
        requires lender { lender.0 < MOST_LENDERS }
        requires flying { 0
            < slabs.flying_of (state_for self.old.sizes self.old.remote.slabs page) }
        ensures tables { self.new
            ≡ record self.old
            { remote = written_after self.old.sizes self.old.remote lender page newest } }
        ensures lease { result
            ≡ slabs.settled_lease (state_for self.old.sizes self.old.remote.slabs page) }
    {
        let is_mapped = is_mapped(self.slabs.state(self.geometry.slab_of(page)));
        let lease = self.settled_for(lender, page);
        if newest && is_mapped {
            self.bits.set(page.0);
        }
        lease
    }

    /// A mapped slab is taken back: no page of it can be read, and it drains. Its lease is given
    /// back where no request flies for it.
    pub fn evict(&mut self, slab: Slab) -> Option<Lease>
        requires slab { slab.0 < self.old.sizes.slabs }
        requires mapped { IsTrue (slabs.is_mapped (slabs.state_of self.old.remote.slabs slab)) }
        ensures tables { self.new
            ≡ record self.old { remote = evicted_after self.old.sizes self.old.remote slab } }
        ensures lease { result ≡ slabs.evicted_lease (slabs.state_of self.old.remote.slabs slab) }
    {
        let each = self.geometry.pages_per_slab();
        self.geometry.limits();
        self.bits.clear_range(slab.0 * each, slab.0 * each + each);
        self.slabs.evict(slab)
    }

    /// A link was lost: it is down, and the slabs at its lender are local with their bits cleared.
    pub fn lost(&mut self, lender: Lender)
        requires { lender.0 < MOST_LENDERS }
        ensures { self.new
            ≡ record self.old { remote = lost_after self.old.sizes self.old.remote lender } }
    {
        send_home(&self.geometry, &mut self.slabs, &mut self.bits, lender);
        self.rings.lose(lender);
    }

    /// A link was made: it is up, with nothing under way.
    pub fn raised(&mut self, lender: Lender)
        requires { lender.0 < MOST_LENDERS }
        ensures { self.new ≡ record self.old { remote = raised_after self.old.remote lender } }
    {
        self.rings.raise(lender);
    }
}
