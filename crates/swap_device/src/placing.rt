ghost use Rattle.std.specs.Prelude.{◌≡◌, ◌<◌, length, true, Some, None};
ghost use Rattle.swap_slabs.specs.Slabs.{state_of, pair_of};
ghost use Rattle.swap_slabs.specs.declared.SlabState.TheVariants as SlabState;
ghost use Rattle.swap_base.specs.declared.TheConstants.{MOST_LENDERS};
ghost use Rattle.swap_remote.specs.Kept.{AreAsked};
ghost use Rattle.swap_table.specs.Device.{query, ask, ask_one, ask_second, place, tick};
ghost use Rattle.swap_device.specs.State.{Agree, Went, IsReady, LeavesRest, IsAskedAlone};

use crate::machine::Machine;
use swap_base::{Lender, Slab};
use swap_choice::Asked;
use swap_disk::DiskPort;
use swap_table::Placed;
use swap_wire::{Fabric, Msg, Sent};

impl<D: DiskPort, F: Fabric> Machine<D, F> {
    // Asks for a slab of one lender, or of a second beside the first. True where the query was
    // sent.
    fn query(&mut self, slab: Slab, first: Option<Lender>, lender: Lender) -> bool
        requires slab { slab.0 < self.old.device.sizes.slabs }
        requires lender { lender.0 < MOST_LENDERS }
        requires alone { IsAskedAlone first lender (state_of self.old.device.remote.slabs slab) }
        requires ready { IsReady F.Fabric self.old }
        ensures moved { Went D.moves F.moves
            (λ d. query d slab first lender) self.old self.new result }
        ensures ready { IsReady F.Fabric self.new }
        ensures rest { LeavesRest self.old self.new }
        ensures asking { result ≡ true → first ≡ None
            → state_of self.new.device.remote.slabs slab ≡ SlabState.Asking (pair_of lender None) }
    {
        if !self.state.may_ask(slab, first, lender) {
            return false;
        }
        match self.send(lender, &Msg::Query { slab }, &[]) {
            Sent::Sent => {
                self.state.keeps_remote();
                self.state.query_sent(slab, first, lender);
                true
            }
            Sent::Down => {
                self.lose(lender);
                false
            }
        }
    }

    // Asks one lender for a slab.
    fn ask_one(&mut self, slab: Slab, lender: Lender) -> Option<Placed>
        requires slab { slab.0 < self.old.device.sizes.slabs }
        requires lender { lender.0 < MOST_LENDERS }
        requires ready { IsReady F.Fabric self.old }
        ensures moved { Went D.moves F.moves (λ d. ask_one d slab lender) self.old self.new result }
        ensures rest { LeavesRest self.old self.new }
    {
        if self.query(slab, None, lender) {
            Some(Placed {
                slab,
                first: lender,
                second: None,
            })
        } else {
            None
        }
    }

    // Asks a second lender for a slab, beside the first where that was asked.
    fn ask_second(
        &mut self,
        slab: Slab,
        first: Lender,
        second: Lender,
        sent: bool,
    ) -> Option<Placed>
        requires slab { slab.0 < self.old.device.sizes.slabs }
        requires second { second.0 < MOST_LENDERS }
        requires other { second.0 ≡ first.0 → ⊥ }
        requires alone { sent ≡ true
            → state_of self.old.device.remote.slabs slab ≡ SlabState.Asking (pair_of first None) }
        requires ready { IsReady F.Fabric self.old }
        ensures moved { Went D.moves F.moves
            (λ d. ask_second slab first second (d, sent)) self.old self.new result }
        ensures rest { LeavesRest self.old self.new }
    {
        if !sent {
            return self.ask_one(slab, second);
        }
        if self.query(slab, Some(first), second) {
            return Some(Placed {
                slab,
                first,
                second: Some(second),
            });
        }
        Some(Placed {
            slab,
            first,
            second: None,
        })
    }

    // Asks for a slab.
    fn ask(&mut self, slab: Slab, asked: Asked) -> Option<Placed>
        requires slab { slab.0 < self.old.device.sizes.slabs }
        requires asked { AreAsked asked }
        requires ready { IsReady F.Fabric self.old }
        ensures moved { Went D.moves F.moves (λ d. ask d slab asked) self.old self.new result }
        ensures rest { LeavesRest self.old self.new }
    {
        match asked {
            Asked::Nobody => None,
            Asked::One(n) => self.ask_one(slab, Lender(n)),
            Asked::Two(n, m) => {
                let sent = self.query(slab, None, Lender(n));
                self.ask_second(slab, Lender(n), Lender(m), sent)
            }
        }
    }

    // Asks for the hottest local slab.
    fn place(&mut self, word: u64) -> Option<Placed>
        requires ready { IsReady F.Fabric self.old }
        ensures moved { Went D.moves F.moves (λ d. place d word) self.old self.new result }
        ensures rest { LeavesRest self.old self.new }
    {
        let slab = self.state.hottest()?;
        let asked = self.state.to_ask(word);
        self.ask(slab, asked)
    }

    /// Each slab's period ends, and the hottest local slab is asked for.
    pub fn tick(&mut self, word: u64) -> Option<Placed>
        requires agree { Agree D.DiskPort F.Fabric self.old }
        ensures moved { Went D.moves F.moves (λ d. tick d word) self.old self.new result }
        ensures spare { self.new.spare ≡ self.old.spare }
        ensures history { self.new.device.history ≡ self.old.device.history }
    {
        self.state.end_periods();
        self.place(word)
    }
}
