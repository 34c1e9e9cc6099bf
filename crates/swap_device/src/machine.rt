ghost use Rattle.std.specs.Prelude.{◌≡◌, ◌<◌, length, true};
ghost use Rattle.swap_disk.specs.Port.{LetFinish};
ghost use Rattle.swap_wire.specs.Fabric.{carries_page, parcel_of, handed_of, Connect, Send, Take, End, Give, Cut, Crash, Host};
ghost use Rattle.swap_table.specs.Device.{of_device};

use crate::state::State;
use std::marker::Model;
use swap_base::{DiskWhich, Lender, Link};
use swap_disk::DiskPort;
use swap_wire::{Fabric, Gave, Hosted, Msg, Sent, Took};

/// A device's tables beside its disk and its lenders' links.
#[derive(Drop)]
pub(crate) struct Machine<D: DiskPort, F: Fabric> {
    pub(crate) state: State,
    pub(crate) disk: D,
    pub(crate) fabric: F,
}

impl<D: DiskPort, F: Fabric> Model for Machine<D, F> {
    ghost use Rattle.swap_table.specs.Device.{Core};

    ghost Value = { Core D F };

    ghost view = { λ m.
        record {
          device = m.state.device;
          disk = m.disk;
          fabric = m.fabric;
          spare = m.state.spare;
        } };
}

impl<D: DiskPort, F: Fabric> Machine<D, F> {
    /// Sends a message on a lender's link.
    pub fn send(&mut self, lender: Lender, msg: &Msg, page: &[u8]) -> Sent
        requires lender { lender.0 < self.old.device.lenders }
        requires page { carries_page msg.now ≡ true
            → length page.now ≡ self.old.device.sizes.page_bytes }
        requires of { F.of self.old.fabric ≡ of_device self.old.device }
        ensures rest { self.new ≡ record self.old { fabric = self.new.fabric } }
        ensures moved { F.moves self.old.fabric
            (Send lender (parcel_of msg.now page.now)) result self.new.fabric }
        ensures of { F.of self.new.fabric ≡ of_device self.old.device }
    {
        self.fabric.send(lender, msg, page)
    }

    /// Takes what came from a lender.
    pub fn take(&mut self, lender: Lender, page: &mut [u8]) -> Took
        requires lender { lender.0 < self.old.device.lenders }
        requires page { length page.old ≡ self.old.device.sizes.page_bytes }
        requires of { F.of self.old.fabric ≡ of_device self.old.device }
        ensures rest { self.new ≡ record self.old { fabric = self.new.fabric } }
        ensures moved { F.moves self.old.fabric (Take lender)
            (handed_of result page.new) self.new.fabric }
        ensures of { F.of self.new.fabric ≡ of_device self.old.device }
    {
        self.fabric.take(lender, page)
    }

    /// Ends a link.
    pub fn end(&mut self, lender: Lender)
        requires lender { lender.0 < self.old.device.lenders }
        requires of { F.of self.old.fabric ≡ of_device self.old.device }
        ensures rest { self.new ≡ record self.old { fabric = self.new.fabric } }
        ensures moved { F.moves self.old.fabric (End lender) tt self.new.fabric }
        ensures of { F.of self.new.fabric ≡ of_device self.old.device }
    {
        self.fabric.end(lender);
    }

    /// Opens a link to a lender.
    pub fn open(&mut self, lender: Lender, link: Link)
        requires lender { lender.0 < self.old.device.lenders }
        requires of { F.of self.old.fabric ≡ of_device self.old.device }
        ensures rest { self.new ≡ record self.old { fabric = self.new.fabric } }
        ensures moved { F.moves self.old.fabric (Connect lender link) tt self.new.fabric }
        ensures of { F.of self.new.fabric ≡ of_device self.old.device }
    {
        self.fabric.connect(lender, link);
    }

    /// Lets an operation of a disk in memory finish.
    pub fn let_finish(&mut self, which: DiskWhich, ok: bool) -> bool
        ensures rest { self.new ≡ record self.old { disk = self.new.disk } }
        ensures moved { D.moves self.old.disk (LetFinish which ok) result self.new.disk }
    {
        self.disk.finish(which, ok)
    }

    /// Lets a lender take the next message of its link.
    pub fn give(&mut self, lender: Lender) -> Gave
        requires { lender.0 < (F.of self.old.fabric).lenders }
        ensures rest { self.new ≡ record self.old { fabric = self.new.fabric } }
        ensures moved { F.moves self.old.fabric (Give lender) result self.new.fabric }
    {
        self.fabric.give(lender)
    }

    /// Cuts a link in memory.
    pub fn cut(&mut self, lender: Lender, to_lender: u32, to_device: u32) -> bool
        requires { lender.0 < (F.of self.old.fabric).lenders }
        ensures rest { self.new ≡ record self.old { fabric = self.new.fabric } }
        ensures moved { F.moves self.old.fabric
            (Cut lender to_lender to_device) result self.new.fabric }
    {
        self.fabric.cut(lender, to_lender, to_device)
    }

    /// Makes a lender in memory start anew.
    pub fn crash(&mut self, lender: Lender) -> bool
        requires { lender.0 < (F.of self.old.fabric).lenders }
        ensures rest { self.new ≡ record self.old { fabric = self.new.fabric } }
        ensures moved { F.moves self.old.fabric (Crash lender) result self.new.fabric }
    {
        self.fabric.crash(lender)
    }

    /// Tells a lender in memory how much its host uses.
    pub fn host(&mut self, lender: Lender, used: u32, word: u64) -> Option<Hosted>
        requires { lender.0 < (F.of self.old.fabric).lenders }
        ensures rest { self.new ≡ record self.old { fabric = self.new.fabric } }
        ensures moved { F.moves self.old.fabric (Host lender used word) result self.new.fabric }
    {
        self.fabric.host(lender, used, word)
    }
}
