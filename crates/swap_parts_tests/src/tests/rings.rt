use swap_base::{EntryNo, Geometry, Lender, Page, Slab};
use swap_rings::{Request, Rings};

#[test]
fn a_ring_of_two(rt: HostRuntime) {
    let Ok(geometry) = Geometry::checked(8, 4, 2, 4, 2, 2, 20) else {
        assert!(rt; false);
        return;
    };
    let Ok(mut rings) = Rings::make(rt.alloc(), &geometry, 2) else {
        assert!(rt; false);
        return;
    };
    let one = Lender(1);
    let borrow = Request::Borrow { slab: Slab(0) };
    let write = Request::Write {
        page: Page(3),
        entry: EntryNo(0),
    };
    assert!(rt; !rings.may_send(one));
    rings.raise(one);
    assert!(rt; rings.may_send(one) && !rings.is_up(Lender(0)));
    rings.send(one, borrow);
    rings.send(one, write);
    assert!(rt; !rings.may_send(one));
    assert!(rt; rings.oldest(one) == Some(borrow));
    rings.answer(one);
    assert!(rt; rings.may_send(one) && rings.oldest(one) == Some(write));
    rings.lose(one);
    assert!(rt; !rings.is_up(one) && rings.oldest(one).is_none());
}
