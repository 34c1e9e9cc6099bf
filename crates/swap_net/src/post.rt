ghost use Rattle.std.specs.Prelude.{◌≡◌, ◌≤◌, length, true, Some};
ghost use Rattle.swap_wire.specs.Fabric.{handed_of, carries_page};
ghost use Rattle.swap_net.specs.Posts.{Ended, Looked, Opened, Posted, stands_as};

use std::marker::Model;
use std::sync::Wait;
use swap_base::Link;
use swap_ends::{End, SharedBell};
use swap_wire::{FrameBuf, Msg, Sent, Took, encode};

/// What the writer is asked for.
#[derive(Drop)]
pub(crate) enum Order {
    Connect(Link),
    Frame(Link, FrameBuf),
    End(Link),
}

/// What the reader found: a message, or the end of its link.
#[derive(Clone, Copy, Debug)]
pub enum Item {
    Got(Msg),
    End,
}

/// An item that arrived on a link. A page stands in the bytes.
#[derive(Drop)]
pub struct Arrival {
    pub(crate) link: Link,
    pub(crate) item: Item,
    pub(crate) page: Vec<u8>,
}

/// A thread: the bell that it waits by, and the one that it stops as it ends.
pub(crate) struct Worker<R: Wait + Copy> {
    rt: R,
    bell: SharedBell,
    gone: SharedBell,
}

impl<R: Wait + Copy> Worker<R> {
    pub(crate) fn new(rt: R, bell: SharedBell, gone: SharedBell) -> Worker<R> {
        Worker { rt, bell, gone }
    }

    pub(crate) fn ring(&self) {
        self.bell.ring();
    }

    /// Tells the thread to stop.
    pub(crate) fn stop(&self) {
        self.bell.stop();
    }
}

impl<R: Wait + Copy> Drop for Worker<R> {
    fn drop(self) {
        let Worker { rt, bell, gone } = self;
        bell.stop();
        gone.wait_for_stop(&rt);
    }
}

fn is_same(link: Link, other: Link) -> bool
    ensures { result ≡ stands_as (Some link) other }
{
    link.0 == other.0
}

/// A buffer is the reader's again.
fn give_back<R: Wait + Copy>(rt: &R, pages: &mut End<Vec<u8>>, reader: &Worker<R>, page: Vec<u8>) {
    let _ = pages.push(rt, page);
    reader.ring();
}

/// The device's end of the link to one lender, and its queues. Where it is dropped, its threads end
/// the link and stop.
#[derive(Drop)]
pub(crate) struct Post<R: Wait + Copy> {
    pub(crate) rt: R,
    pub(crate) link: Option<Link>,
    pub(crate) orders: End<Order>,
    pub(crate) frames: End<FrameBuf>,
    pub(crate) arrivals: End<Arrival>,
    pub(crate) pages: End<Vec<u8>>,
    pub(crate) writer: Worker<R>,
    pub(crate) reader: Worker<R>,
}

impl<R: Wait + Copy> Model for Post<R> {
    ghost use Rattle.swap_net.specs.Posts.{PostState};

    ghost Value = { PostState };

    ghost view = { λ p. record { link = p.link; came = p.arrivals } };
}

impl<R: Wait + Copy> Post<R> {
    /// Tells both threads to stop.
    pub(crate) fn stop(&self) {
        self.writer.stop();
        self.reader.stop();
    }

    /// A new link, in the place of an older one. Where its order can't be given there is none.
    pub(crate) fn connect(&mut self, link: Link)
        ensures { Opened link self.old self.new }
    {
        self.link = Some(link);
        if self.orders.push(&self.rt, Order::Connect(link)).is_err() {
            self.link = None;
        }
        self.writer.ring();
    }

    /// Ends the link that stands. The writer shuts it, or does so when the next one comes.
    pub(crate) fn end(&mut self)
        ensures { Ended self.old self.new }
    {
        if let Some(link) = self.link {
            let _ = self.orders.push(&self.rt, Order::End(link));
            self.writer.ring();
        }
        self.link = None;
    }

    /// Gives a message to the writer. A full queue to the peer ends the link.
    pub(crate) fn send(&mut self, msg: &Msg, page: &[u8]) -> Sent
        requires { carries_page msg.now ≡ true → length page.now ≤ 4096 }
        ensures { Posted result self.old self.new }
    {
        let Some(link) = self.link else {
            return Sent::Down;
        };
        let Some(mut frame) = self.frames.pop(&self.rt) else {
            self.end();
            return Sent::Down;
        };
        let held = frame.bytes().len();
        frame.drop_front(held);
        if encode(msg, page, &mut frame).is_err()
            || self
                .orders
                .push(&self.rt, Order::Frame(link, frame))
                .is_err()
        {
            self.end();
            return Sent::Down;
        }
        self.writer.ring();
        Sent::Sent
    }

    /// What arrived first, if something of the link that stands did. A message whose bytes don't
    /// fill the buffer ends the link.
    pub(crate) fn take(&mut self, page: &mut [u8]) -> Took
        ensures looked { Looked (length page.old) self.old (handed_of result page.new) self.new }
        ensures page { length page.new ≡ length page.old }
    {
        let Some(link) = self.link else {
            return Took::Nothing;
        };
        let Some(arrival) = self.arrivals.pop(&self.rt) else {
            return Took::Nothing;
        };
        if !is_same(link, arrival.link) {
            give_back(&self.rt, &mut self.pages, &self.reader, arrival.page);
            return Took::Nothing;
        }
        let Arrival {
            link: _,
            item,
            page: bytes,
        } = arrival;
        if let Item::Got(msg) = item {
            if bytes.len() == page.len() {
                page.copy_from_slice(&bytes);
                give_back(&self.rt, &mut self.pages, &self.reader, bytes);
                return Took::Got(msg);
            }
        }
        give_back(&self.rt, &mut self.pages, &self.reader, bytes);
        self.link = None;
        Took::Lost
    }
}
