ghost use Rattle.std.specs.Prelude.{◌≡◌, ℕ, ◌+◌, ◌*◌, ◌<◌, ◌^◌, length, [], IfOk, Some, true, false};
ghost use Rattle.swap_wire.specs.Fabric.{carries_page, parcel_of, handed_of};
ghost use Rattle.swap_lender.specs.Lender.{lender_at_start};
ghost use Rattle.swap_lender.specs.Outbox.{outbox_with};
ghost use Rattle.swap_lender.specs.Core.{IsLending};
ghost use Rattle.swap_lender.specs.Table.{host, host_result};
ghost use Rattle.swap_link.specs.Channel.{channel_at_start, let_go, connect_after, send_after, take_after, end_after, post_after, forward_after, deliver_after, is_evict, reply_of, leave_after, serve_after, give_after, cut_after, crash_after};
ghost use Rattle.swap_link.specs.Fits.{IsChannel};

use crate::lane::Lane;
use std::alloc::Global;
use std::marker::Model;
use swap_base::{Geometry, LenderSpec, Link, NoMemory};
use swap_lender::{LenderCore, Outbox, Served};
use swap_wire::{Gave, Hosted, Msg, Sent, Took};

/// A lender in memory, and its present link.
#[derive(Drop)]
pub(crate) struct Channel {
    geometry: Geometry,
    lender: LenderCore,
    outbox: Outbox,
    number: Link,
    to_lender: Lane,
    to_device: Lane,
    device_gone: bool,
    lender_gone: bool,
}

impl Model for Channel {
    ghost use Rattle.swap_link.specs.Channel.{Channel as Linked, channel_in};
    ghost use Rattle.swap_link.specs.Fits.{ChannelFits};

    ghost Value = { Linked };

    ghost view = { λ c.
        channel_in c.geometry c.lender c.number c.to_lender c.to_device c.device_gone
        c.lender_gone };

    ghost invariant = { λ c.
        ChannelFits c.geometry c.lender c.number c.to_lender c.to_device c.lender_gone c.outbox };
}

/// A message goes on its way, where it is for this link.
fn post(lane: &mut Lane, number: Link, link: Link, msg: &Msg, page: &[u8])
    requires { carries_page msg.now ≡ true → length page.now ≡ lane.old.page_bytes }
    ensures lane { lane.new ≡ post_after number lane.old link (parcel_of msg.now page.now) }
    ensures page { lane.new.page_bytes ≡ lane.old.page_bytes }
{
    if link.0 == number.0 {
        lane.append(msg, page);
    }
}

/// All that a lender sends goes on its way, where it is for this link.
fn post_all(lane: &mut Lane, number: Link, outbox: &mut Outbox, page: &mut [u8])
    requires page { length page.old ≡ outbox.old.page_bytes }
    requires same { lane.old.page_bytes ≡ outbox.old.page_bytes }
    ensures lane { lane.new ≡ forward_after number lane.old outbox.old.parcels }
    ensures outbox { outbox.new ≡ outbox_with outbox.old [] outbox.old.evicted }
    ensures page { lane.new.page_bytes ≡ lane.old.page_bytes }
{
    while let Some((link, msg)) = outbox.pop(page) {
        post(lane, number, link, &msg, page);
    }
}

fn is_evict(msg: &Msg) -> bool
    ensures { result ≡ is_evict msg.now }
{
    matches!(msg, Msg::Evict { .. })
}

/// The same, with the reply among it.
fn reply(lane: &mut Lane, number: Link, outbox: &mut Outbox, page: &mut [u8]) -> Option<Msg>
    requires page { length page.old ≡ outbox.old.page_bytes }
    requires same { lane.old.page_bytes ≡ outbox.old.page_bytes }
    ensures reply { result ≡ reply_of outbox.old.parcels }
    ensures lane { lane.new ≡ forward_after number lane.old outbox.old.parcels }
    ensures outbox { outbox.new ≡ outbox_with outbox.old [] outbox.old.evicted }
    ensures page { lane.new.page_bytes ≡ lane.old.page_bytes }
{
    let (link, msg) = outbox.pop(page)?;
    post(lane, number, link, &msg, page);
    post_all(lane, number, outbox, page);
    if is_evict(&msg) { None } else { Some(msg) }
}

/// What a lender sends to links that are gone is dropped.
fn discard(outbox: &mut Outbox, page: &mut [u8])
    requires { length page.old ≡ outbox.old.page_bytes }
    ensures { outbox.new ≡ outbox_with outbox.old [] outbox.old.evicted }
{
    while outbox.pop(page).is_some() {}
}

impl Channel {
    /// A lender that lends nothing yet, and no link to it. Its lanes have room for the requests
    /// that may be under way on a link, for a message about each slot, and for one more.
    pub(crate) fn make(
        alloc: Global,
        geometry: &Geometry,
        spec: LenderSpec,
    ) -> Result<Channel, NoMemory>
        requires limits { IsLending
            (record {
              spec = spec;
              page_bytes = geometry.now.page_bytes;
              pages_per_slab = geometry.now.pages_per_slab;
              links = 1;
            }) }
        requires bytes { spec.slots * (geometry.now.pages_per_slab * geometry.now.page_bytes)
            < 2 ^ 64 }
        ensures { IfOk result
            (λ c. c
            ≡ channel_at_start geometry.now
            (lender_at_start
            (record {
              spec = spec;
              page_bytes = geometry.now.page_bytes;
              pages_per_slab = geometry.now.pages_per_slab;
              links = 1;
            }))
            (geometry.now.window + spec.slots + 1)) }
    {
        let page_bytes = geometry.page_bytes();
        let room = geometry.window() as usize + spec.slots as usize + 1;
        let lender = LenderCore::make(alloc, spec, page_bytes, geometry.pages_per_slab(), 1)?;
        let outbox = Outbox::make(alloc, spec.slots, page_bytes)?;
        let Ok(to_lender) = Lane::make(alloc, room, page_bytes as usize) else {
            return Err(NoMemory);
        };
        let Ok(to_device) = Lane::make(alloc, room, page_bytes as usize) else {
            return Err(NoMemory);
        };
        Ok(Channel {
            geometry: *geometry,
            lender,
            outbox,
            number: Link(0),
            to_lender,
            to_device,
            device_gone: true,
            lender_gone: true,
        })
    }

    /// What every channel keeps.
    pub(crate) fn keeps(&self)
        ensures { IsChannel self.now }
    {
        self.to_device.keeps();
    }

    pub(crate) fn lender(&self) -> &LenderCore
        ensures { result.now ≡ self.now.lender }
    {
        &self.lender
    }

    /// The slots of a link whose lender's end stands are free again.
    fn let_go(&mut self, page: &mut [u8])
        requires { length page.old ≡ self.old.sizes.page_bytes }
        ensures { self.new ≡ record self.old { lender = let_go self.old; lender_gone = true } }
    {
        if self.lender_gone {
            return;
        }
        self.lender.gone(self.number, &mut self.outbox);
        discard(&mut self.outbox, page);
        self.lender_gone = true;
    }

    /// A new link; an older one whose lender's end stands is gone for its lender.
    pub(crate) fn connect(&mut self, number: Link, page: &mut [u8])
        requires { length page.old ≡ self.old.sizes.page_bytes }
        ensures { self.new ≡ connect_after self.old number }
    {
        self.let_go(page);
        self.lender.arrive(number);
        self.number = number;
        self.to_lender.open();
        self.to_device.open();
        self.device_gone = false;
        self.lender_gone = false;
    }

    /// Appends a message for the lender. Down exactly where the device's end is gone.
    pub(crate) fn send(&mut self, msg: &Msg, page: &[u8]) -> Sent
        requires { carries_page msg.now ≡ true → length page.now ≡ self.old.sizes.page_bytes }
        ensures { (result, self.new) ≡ send_after self.old (parcel_of msg.now page.now) }
    {
        if self.device_gone {
            return Sent::Down;
        }
        self.to_lender.append(msg, page);
        Sent::Sent
    }

    /// Takes the first message for the device. Lost exactly where there is none and the lane has
    /// ended.
    pub(crate) fn take(&mut self, page: &mut [u8]) -> Took
        requires { length page.old ≡ self.old.sizes.page_bytes }
        ensures { (handed_of result page.new, self.new) ≡ take_after self.old }
    {
        if self.device_gone {
            return Took::Nothing;
        }
        if let Some(msg) = self.to_device.pop(page) {
            return Took::Got(msg);
        }
        if !self.to_device.has_ended() {
            return Took::Nothing;
        }
        self.to_lender.end();
        self.device_gone = true;
        Took::Lost
    }

    /// The device's end leaves.
    pub(crate) fn end(&mut self)
        ensures { self.new ≡ end_after self.old }
    {
        self.to_lender.end();
        self.to_device.cut(0);
        self.device_gone = true;
    }

    /// The lender's end leaves.
    fn abandon(&mut self, page: &mut [u8])
        requires stands { self.old.lender_gone ≡ false }
        requires page { length page.old ≡ self.old.sizes.page_bytes }
        ensures { self.new ≡ leave_after self.old }
    {
        self.lender.gone(self.number, &mut self.outbox);
        discard(&mut self.outbox, page);
        self.to_lender.cut(0);
        self.to_device.end();
        self.lender_gone = true;
    }

    /// The lender takes a message, and answers it or ends the link.
    fn serve(&mut self, msg: Msg, page: &mut [u8]) -> Gave
        requires stands { self.old.lender_gone ≡ false }
        requires page { length page.old ≡ self.old.sizes.page_bytes }
        ensures { (result, self.new) ≡ serve_after self.old (parcel_of msg page.old) }
    {
        match self.lender.took(self.number, &msg, page, &mut self.outbox) {
            Served::Fine => {
                let evicted = self.outbox.evicted();
                let reply = reply(&mut self.to_device, self.number, &mut self.outbox, page);
                Gave::Got {
                    msg,
                    reply,
                    evicted,
                }
            }
            Served::End => {
                self.abandon(page);
                Gave::Ended { msg }
            }
        }
    }

    /// Lets the lender take its first message. `End` exactly where there is none and the lane has
    /// ended.
    pub(crate) fn give(&mut self, page: &mut [u8]) -> Gave
        requires { length page.old ≡ self.old.sizes.page_bytes }
        ensures { (result, self.new) ≡ give_after self.old }
    {
        if self.lender_gone {
            return Gave::Nothing;
        }
        if let Some(msg) = self.to_lender.pop(page) {
            return self.serve(msg, page);
        }
        if !self.to_lender.has_ended() {
            return Gave::Nothing;
        }
        self.abandon(page);
        Gave::End
    }

    /// Both lanes end and keep their first messages. False exactly where that changes nothing.
    pub(crate) fn cut(&mut self, to_lender: u32, to_device: u32) -> bool
        ensures { (result, self.new) ≡ cut_after self.old to_lender to_device }
    {
        let same = self.to_lender.is_cut(to_lender as usize)
            && self.to_device.is_cut(to_device as usize);
        self.to_lender.cut(to_lender as usize);
        self.to_device.cut(to_device as usize);
        !same
    }

    /// The lender starts anew, and its end leaves.
    pub(crate) fn crash(&mut self)
        ensures { self.new ≡ crash_after self.old }
    {
        self.lender.restart();
        if !self.lender_gone {
            self.to_lender.cut(0);
            self.to_device.end();
            self.lender_gone = true;
        }
    }

    /// Tells the lender what its host uses; what it sends goes on its way.
    pub(crate) fn host(&mut self, used: u32, word: u64, page: &mut [u8]) -> Hosted
        requires { length page.old ≡ self.old.sizes.page_bytes }
        ensures answer { result ≡ host_result self.old.lender used word }
        ensures channel { self.new ≡ deliver_after self.old (host self.old.lender used word) }
    {
        let hosted = self.lender.host(used, word, &mut self.outbox);
        post_all(&mut self.to_device, self.number, &mut self.outbox, page);
        hosted
    }
}
