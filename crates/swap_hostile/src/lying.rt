ghost use Rattle.std.specs.Prelude.{◌≡◌, ◌<◌, length, replicate, if◌then◌else◌};
ghost use Rattle.swap_hostile.specs.Lying.{new_lying};

use std::marker::Model;
use swap_base::{Lender, Link};
use swap_link::Harbor;
use swap_wire::{Fabric, Gave, Hosted, Msg, Sent, Took};

/// The lenders in memory behind a fabric that lies once: in place of the message of one number that
/// came, counted from 0 over all lenders, it gives the message that it is told, with a page of ones
/// where that carries one. It promises nothing of pages.
#[derive(Drop)]
pub struct LyingFabric {
    harbor: Harbor,
    says: Msg,
    at: u64,
    came: u64,
}

impl Model for LyingFabric {
    ghost use Rattle.swap_hostile.specs.Lying.{Lying};

    ghost Value = { Lying };

    ghost view = { λ f. record { harbor = f.harbor; says = f.says; at = f.at; came = f.came } };
}

impl LyingFabric {
    /// Over these lenders, which says this in place of the message of that number.
    pub fn make(harbor: Harbor, says: Msg, at: u64) -> LyingFabric
        ensures { result ≡ new_lying harbor says at }
    {
        LyingFabric {
            harbor,
            says,
            at,
            came: 0,
        }
    }
}

// What is told where a message came: itself, or the lie with a page of ones.
fn told(lies: bool, says: Msg, msg: Msg, page: &mut [u8]) -> Msg
    ensures msg { result ≡ (if lies then says else msg) }
    ensures page { page.new ≡ (if lies then replicate (length page.old) 255 else page.old) }
{
    if !lies {
        return msg;
    }
    page.fill(255);
    says
}

impl Fabric for LyingFabric {
    ghost use Rattle.swap_hostile.specs.Lying.{of_lying, Moves, IsFresh};
    ghost use Rattle.swap_hostile.specs.lemmas.LyingLaws;

    ghost of = { of_lying };

    ghost moves = { Moves };

    ghost fresh = { IsFresh };

    ghost keeps = { λ f l k i bytes. Unit {0} };

    ghost owes = { λ f l pages. Unit {0} };

    ghost answers = { λ page given. Unit {0} };

    fn connect(&mut self, lender: Lender, link: Link) {
        self.harbor.connect(lender, link);
    }

    fn send(&mut self, lender: Lender, msg: &Msg, page: &[u8]) -> Sent {
        self.harbor.send(lender, msg, page)
    }

    fn take(&mut self, lender: Lender, page: &mut [u8]) -> Took {
        let took = self.harbor.take(lender, page);
        let Took::Got(msg) = took else {
            return took;
        };
        let lies = self.came == self.at;
        self.came = self.came.saturating_add(1);
        Took::Got(told(lies, self.says, msg, page))
    }

    fn end(&mut self, lender: Lender) {
        self.harbor.end(lender);
    }

    fn give(&mut self, lender: Lender) -> Gave {
        self.harbor.give(lender)
    }

    fn cut(&mut self, lender: Lender, to_lender: u32, to_device: u32) -> bool {
        self.harbor.cut(lender, to_lender, to_device)
    }

    fn crash(&mut self, lender: Lender) -> bool {
        self.harbor.crash(lender)
    }

    fn host(&mut self, lender: Lender, used: u32, word: u64) -> Option<Hosted> {
        self.harbor.host(lender, used, word)
    }

    ghost fresh_is_of = { λ f o fresh. fresh.is };

    ghost moves_keep_of = { LyingLaws.moves_keep_of };

    ghost taken_fits = { LyingLaws.taken_fits };

    ghost write_is_kept = { λ f l k i bytes g moved. tt };

    ghost kept_until = { λ f c r g l k i bytes moved kept until. tt };

    ghost new_link_owes_none = { λ f l n g moved. tt };

    ghost read_is_owed = { λ f l k i bytes pages g moved owed kept. tt };

    ghost page_was_owed = { λ f l p g page rest moved is owed. tt };

    ghost page_answers = { λ f l p g page rest moved is owed. tt };

    ghost owed_until = { λ f c r g l pages moved owed until. tt };
}
