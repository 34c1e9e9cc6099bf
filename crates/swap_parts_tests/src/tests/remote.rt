use swap_base::{Caller, EntryNo, Geometry, Lease, Lender, Page, Slab};
use swap_choice::Asked;
use swap_remote::Remote;
use swap_rings::Request;
use swap_slabs::Chosen;

// The write of page 3 goes to the lender of slab 0, whose answer sets the page's bit; a loss clears
// it.
#[test]
fn a_page_is_written_to_its_lender(rt: HostRuntime) {
    let Ok(geometry) = Geometry::checked(8, 4, 2, 4, 2, 2, 20) else {
        assert!(rt; false);
        return;
    };
    let Ok(mut remote) = Remote::make(rt.alloc(), geometry) else {
        assert!(rt; false);
        return;
    };
    let (lender, slab, page) = (Lender(1), Slab(0), Page(3));
    let write = Request::Write {
        page,
        entry: EntryNo(0),
    };
    remote.raised(lender);
    assert!(rt; remote.target(page).is_none());
    remote.borrow_sent(slab, lender);
    remote.lent(lender, slab, Lease(5));
    assert!(rt; remote.target(page) == Some((lender, Lease(5))) && remote.mapped() == 1);
    remote.sent_for(lender, page, write);
    assert!(rt; remote.names_page(lender, page, Lease(5), 3) && !remote.has_page(page));
    assert!(rt; remote.written(lender, page, true).is_none());
    assert!(rt; remote.has_page(page) && !remote.has_page(Page(2)));
    remote.lost(lender);
    assert!(rt; !remote.has_page(page) && remote.is_local(slab) && !remote.is_up(lender));
}

// Two lenders are asked, and the one that has more free slots is chosen; one that is gone is not.
#[test]
fn two_lenders_are_asked(rt: HostRuntime) {
    let Ok(geometry) = Geometry::checked(8, 4, 2, 4, 2, 2, 20) else {
        assert!(rt; false);
        return;
    };
    let Ok(mut remote) = Remote::make(rt.alloc(), geometry) else {
        assert!(rt; false);
        return;
    };
    let (slab, first, second) = (Slab(1), Lender(1), Lender(2));
    assert!(rt; remote.to_ask(0) == Asked::Nobody);
    remote.raised(first);
    remote.raised(second);
    assert!(rt; remote.to_ask(0) == Asked::Two(1, 2) && remote.to_ask(1) == Asked::Two(2, 1));
    remote.query_sent(slab, None, first);
    remote.query_sent(slab, Some(first), second);
    assert!(rt; remote.asks(slab, first) && remote.asks(slab, second));
    assert!(rt; remote.oldest(second) == Some(Request::Query { slab }));
    assert!(rt; remote.told(first, slab, 3).is_none());
    assert!(rt; remote.told(second, slab, 5) == Some(Chosen::Lender(second)));
    assert!(rt; remote.is_local(slab) && remote.oldest(second).is_none());
    remote.query_sent(slab, None, first);
    assert!(rt; remote.gone(first, slab) == Some(Chosen::Nobody));
    assert!(rt; remote.is_local(slab) && remote.oldest(first).is_some());
}

// A slab that is taken back drains while a read flies, and then its lease is given back.
#[test]
fn a_slab_is_taken_back(rt: HostRuntime) {
    let Ok(geometry) = Geometry::checked(8, 4, 2, 4, 2, 2, 20) else {
        assert!(rt; false);
        return;
    };
    let Ok(mut remote) = Remote::make(rt.alloc(), geometry) else {
        assert!(rt; false);
        return;
    };
    let (lender, slab, page, lease) = (Lender(1), Slab(1), Page(5), Lease(7));
    let write = Request::Write {
        page,
        entry: EntryNo(0),
    };
    let read = Request::Read {
        caller: Caller(0),
        page,
    };
    remote.raised(lender);
    remote.borrow_sent(slab, lender);
    remote.lent(lender, slab, lease);
    assert!(rt; remote.slabs().holds(lender) && remote.to_ask(0) == Asked::One(1));
    remote.sent_for(lender, page, write);
    assert!(rt; remote.written(lender, page, true).is_none() && remote.has_page(page));
    remote.sent_for(lender, page, read);
    assert!(rt; remote.mapped_by(lender, lease) == Some(slab));
    assert!(rt; remote.evict(slab).is_none() && !remote.has_page(page));
    assert!(rt; remote.mapped_by(lender, lease).is_none() && remote.is_leased(lender, lease));
    assert!(rt; remote.settled_for(lender, page) == Some(lease) && remote.is_local(slab));
}
