ghost use Rattle.std.specs.Prelude.{◌≡◌, ◌<◌, ◌+◌, ◌^◌};
ghost use Rattle.swap_table.specs.Device.{choose, lose, say_after};
ghost use Rattle.swap_device.specs.State.{Became, IsReady, LeavesRest, MayBorrow, IsPlain, lose_in_turn, given_up, said_parcel};

use crate::machine::Machine;
use swap_base::{Lender, MOST_LENDERS, Slab};
use swap_disk::DiskPort;
use swap_wire::{Fabric, Msg, Sent};

// How many links may be lost one after another. Each loss after the first is of a link that was up,
// and puts it down; no link is raised between two of them. So no more follow on the first than
// there are lenders, and a loss with none left to follow is never reached.
pub(crate) const MOST_LOSSES: u32 = MOST_LENDERS + 1;

impl<D: DiskPort, F: Fabric> Machine<D, F> {
    // A link is lost, and at most so many with it: the slabs at its lender are local, the calls
    // that wait through it are lost, and each slab that asked its lender waits no more.
    #[cycle(losing)]
    fn fall(&mut self, more: u32, lender: Lender)
        requires lender { lender.0 < self.old.device.lenders }
        requires ready { IsReady F.Fabric self.old }
        ensures moved { Became D.moves F.moves (λ d. lose_in_turn more d lender) self.old self.new }
        ensures ready { IsReady F.Fabric self.new }
        ensures rest { LeavesRest self.old self.new }
    {
        self.state.keeps_remote();
        self.state.lost(lender);
        if more == 0 {
            return;
        }
        let slabs = self.state.geometry().slabs();
        for number in 0..slabs {
            self.give_up(more - 1, lender, Slab(number));
        }
    }

    // A slab that asked a lender which is gone waits no more for its reply.
    #[cycle(losing)]
    fn give_up(&mut self, more: u32, lender: Lender, slab: Slab)
        requires slab { slab.0 < self.old.device.sizes.slabs }
        requires ready { IsReady F.Fabric self.old }
        ensures moved { Became D.moves F.moves
            (λ d. given_up (lose_in_turn more) d lender slab) self.old self.new }
        ensures ready { IsReady F.Fabric self.new }
        ensures rest { LeavesRest self.old self.new }
    {
        if self.state.asks(slab, lender) {
            let choice = self.state.gone(lender, slab);
            self.choose(more, choice);
        }
    }

    // A slab whose lenders have all replied is borrowed from the one that was chosen.
    #[cycle(losing)]
    pub(crate) fn choose(&mut self, more: u32, choice: Option<(Slab, Lender)>)
        requires choice { MayBorrow self.old.device.sizes choice }
        requires ready { IsReady F.Fabric self.old }
        ensures moved { Became D.moves F.moves
            (λ d. choose (lose_in_turn more) d choice) self.old self.new }
        ensures ready { IsReady F.Fabric self.new }
        ensures rest { LeavesRest self.old self.new }
    {
        let Some((slab, lender)) = choice else {
            return;
        };
        if !self.state.may_map(slab, lender) {
            return;
        }
        match self.send(lender, &Msg::Borrow { slab }, &[]) {
            Sent::Sent => self.state.borrow_sent(slab, lender),
            Sent::Down => self.fall(more, lender),
        }
    }

    /// A link is lost.
    pub fn lose(&mut self, lender: Lender)
        requires lender { lender.0 < self.old.device.lenders }
        requires ready { IsReady F.Fabric self.old }
        ensures moved { Became D.moves F.moves (λ d. lose d lender) self.old self.new }
        ensures ready { IsReady F.Fabric self.new }
        ensures rest { LeavesRest self.old self.new }
    {
        self.fall(MOST_LOSSES, lender);
    }

    /// Says something on a link that isn't a request.
    pub fn say(&mut self, lender: Lender, word: Option<Msg>)
        requires lender { lender.0 < self.old.device.lenders }
        requires plain { IsPlain word }
        requires ready { IsReady F.Fabric self.old }
        ensures moved { Became D.moves F.moves (λ d. say_after d lender
            (said_parcel word)) self.old self.new }
        ensures ready { IsReady F.Fabric self.new }
        ensures rest { LeavesRest self.old self.new }
    {
        let Some(word) = word else {
            return;
        };
        if let Sent::Down = self.send(lender, &word, &[]) {
            self.lose(lender);
        }
    }
}
