use swap_base::{Geometry, Lender, Slab};
use swap_rates::Rates;
use swap_slabs::Slabs;

// Of two slabs with the same hits the first is hottest, and a busier one before it; once that is
// borrowed it is not.
#[test]
fn the_hottest_local_slab_is_found(rt: HostRuntime) {
    let Ok(geometry) = Geometry::checked(8, 4, 4, 2, 2, 4, 1) else {
        assert!(rt; false);
        return;
    };
    let (Ok(mut rates), Ok(mut slabs)) = (
        Rates::make(rt.alloc(), geometry.slabs()),
        Slabs::make(rt.alloc(), &geometry),
    ) else {
        assert!(rt; false);
        return;
    };
    assert!(rt; rates.hottest(1, &slabs).is_none());
    for _ in 0..5 {
        rates.hit(Slab(1));
        rates.hit(Slab(2));
    }
    assert!(rt; rates.value(Slab(1)) == 0);
    rates.end_periods();
    assert!(rt; rates.value(Slab(1)) == 65_536 && rates.value(Slab(0)) == 0);
    assert!(rt; rates.hottest(1, &slabs) == Some(Slab(1)));
    assert!(rt; rates.hottest(2, &slabs).is_none());
    rates.hit(Slab(2));
    rates.end_periods();
    assert!(rt; rates.hottest(0, &slabs) == Some(Slab(2)));
    slabs.borrow_from(Slab(2), Lender(0));
    assert!(rt; rates.hottest(0, &slabs) == Some(Slab(1)));
}
