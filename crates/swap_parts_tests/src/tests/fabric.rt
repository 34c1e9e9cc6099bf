ghost use Rattle.std.specs.Prelude.{◌≡◌, ◌<◌, length};

use std::test::Fail;
use swap_base::{Geometry, Lease, Lender, Link};
use swap_wire::{Fabric, Gave, Hosted, Msg, Sent, Took};

// A fabric that promises nothing of pages: it throws away what it is sent, and hands over what
// nobody sent.
#[derive(Drop)]
struct Liar {
    geometry: Geometry,
    lenders: u32,
    says: Msg,
}

impl Fabric for Liar {
    ghost use Rattle.std.specs.Prelude.{◌≡◌};
    ghost use Rattle.std.proofs.Common.{ap};
    ghost use Rattle.swap_wire.specs.Fabric.{TakenFits};

    ghost of = { λ f. record { sizes = f.geometry; lenders = f.lenders } };

    ghost moves = { λ f c r g. (g ≡ f) × TakenFits f.geometry.page_bytes c r };

    ghost fresh = { λ f o. record { sizes = f.geometry; lenders = f.lenders } ≡ o };

    ghost keeps = { λ f l k i bytes. Unit {0} };

    ghost owes = { λ f l pages. Unit {0} };

    ghost answers = { λ page given. Unit {0} };

    fn connect(&mut self, _lender: Lender, _link: Link) {}

    fn send(&mut self, _lender: Lender, _msg: &Msg, _page: &[u8]) -> Sent {
        Sent::Sent
    }

    fn take(&mut self, _lender: Lender, page: &mut [u8]) -> Took {
        page.fill(0xff);
        Took::Got(self.says)
    }

    fn end(&mut self, _lender: Lender) {}

    fn give(&mut self, _lender: Lender) -> Gave {
        Gave::Nothing
    }

    fn cut(&mut self, _lender: Lender, _to_lender: u32, _to_device: u32) -> bool {
        false
    }

    fn crash(&mut self, _lender: Lender) -> bool {
        false
    }

    fn host(&mut self, _lender: Lender, _used: u32, _word: u64) -> Option<Hosted> {
        None
    }

    ghost fresh_is_of = { λ f o is. is };

    ghost moves_keep_of = { λ f c r g moved.
        ap (λ h. record { sizes = h.geometry; lenders = h.lenders }) moved.0 };

    ghost taken_fits = { λ f l p g moved. moved.1 };

    ghost write_is_kept = { λ f l k i bytes g moved. tt };

    ghost kept_until = { λ f c r g l k i bytes moved kept until. tt };

    ghost new_link_owes_none = { λ f l n g moved. tt };

    ghost read_is_owed = { λ f l k i bytes pages g moved owed kept. tt };

    ghost page_was_owed = { λ f l p g page rest moved is owed. tt };

    ghost page_answers = { λ f l p g page rest moved is owed. tt };

    ghost owed_until = { λ f c r g l pages moved owed until. tt };
}

// A read of a page that was written, over any fabric.
fn read_back<F: Fabric>(fabric: &mut F, lender: Lender, page: &mut [u8]) -> Took
    requires lender { lender.0 < (F.of fabric.old).lenders }
    requires page { length page.old ≡ (F.of fabric.old).sizes.page_bytes }
{
    let lease = Lease(0);
    fabric.send(lender, &Msg::Write { lease, place: 0 }, page);
    fabric.send(lender, &Msg::Read { lease, place: 0 }, &[]);
    fabric.take(lender, page)
}

#[test]
fn a_fabric_may_promise_nothing(rt: HostRuntime) -> Result<(), Fail> {
    let geometry = Geometry::checked(8, 4, 2, 2, 2, 4, 20).map_err(|_| "sizes")?;
    let says = Msg::PageIs {
        lease: Lease(9),
        place: 7,
    };
    let mut liar = Liar {
        geometry,
        lenders: 1,
        says,
    };
    let mut page = [0xaa; 8];
    assert!(rt; geometry.page_bytes() == 8);
    assert!(rt; read_back(&mut liar, Lender(0), &mut page) == Took::Got(says));
    assert!(rt; page == [0xff; 8]);
    Ok(())
}
