ghost use Rattle.std.specs.Prelude.{◌≡◌, ◌<◌, length, IfOk, IsTrue, IsSome};
ghost use Rattle.swap_rings.specs.Rings.{all_down, link_of, is_up, ring_of, may_send, oldest, sent_after, answered_after, raised_after, lost_after, AreWithin};

use crate::Request;
use crate::link::Link;
use std::alloc::Global;
use std::marker::Model;
use swap_base::{Geometry, Lender, NoMemory};

/// The link to each lender, with the requests under way on it, at most a window of them. All memory
/// is taken at
/// `make`.
#[derive(Drop)]
pub struct Rings {
    links: Vec<Link>,
    window: u32,
}

impl Model for Rings {
    ghost use Rattle.std.specs.Prelude.{◌≤◌};
    ghost use Rattle.swap_rings.specs.Rings as specs;
    ghost use Rattle.swap_rings.specs.Rings.{AreWithin};
    ghost use Rattle.swap_base.specs.declared.TheConstants.{MOST_WINDOW};

    ghost Value = { specs.Rings };

    ghost view = { λ r. record { window = r.window; links = r.links.items } };

    ghost invariant = { λ r. (r.window ≤ MOST_WINDOW) × AreWithin r.window r.links.items };
}

fn make_links(alloc: Global, lenders: u32) -> Result<Vec<Link>, NoMemory>
    ensures { IfOk result (λ links. links.items ≡ all_down lenders) }
{
    let mut links = Vec::new(alloc);
    for _ in 0..lenders {
        let Ok(link) = Link::make(alloc) else {
            return Err(NoMemory);
        };
        if links.push(link).is_err() {
            return Err(NoMemory);
        }
    }
    Ok(links)
}

impl Rings {
    /// A link that is down for each of so many lenders. No other call of `Rings` takes memory.
    pub fn make(alloc: Global, geometry: &Geometry, lenders: u32) -> Result<Rings, NoMemory>
        ensures { IfOk result
            (λ r. r ≡ record { window = geometry.now.window; links = all_down lenders }) }
    {
        geometry.limits();
        Ok(Rings {
            links: make_links(alloc, lenders)?,
            window: geometry.window(),
        })
    }

    /// No ring is longer than the window.
    pub fn keeps(&self)
        ensures { AreWithin self.now.window self.now.links }
    {
        let _links = &self.links;
    }

    /// Whether the link is up.
    pub fn is_up(&self, lender: Lender) -> bool
        requires { lender.0 < length self.now.links }
        ensures { result ≡ is_up self.now.links lender }
    {
        self.links[lender.0 as usize].is_up()
    }

    /// Whether a request may be sent: the link is up, and its ring is shorter than the window.
    pub fn may_send(&self, lender: Lender) -> bool
        requires { lender.0 < length self.now.links }
        ensures { result ≡ may_send self.now.window (link_of self.now.links lender) }
    {
        self.links[lender.0 as usize].may_send(self.window)
    }

    /// The request that was sent first, of those that no answer came to.
    pub fn oldest(&self, lender: Lender) -> Option<Request>
        requires { lender.0 < length self.now.links }
        ensures { result ≡ oldest (ring_of self.now.links lender) }
    {
        self.links[lender.0 as usize].oldest()
    }

    /// A request was sent.
    pub fn send(&mut self, lender: Lender, request: Request)
        requires lender { lender.0 < length self.old.links }
        requires room { length (ring_of self.old.links lender) < self.old.window }
        ensures { self.new ≡ record self.old { links = sent_after self.old.links lender request } }
    {
        let link = &mut self.links[lender.0 as usize];
        link.send(request);
    }

    /// The oldest request was answered.
    pub fn answer(&mut self, lender: Lender)
        requires { lender.0 < length self.old.links }
        ensures { self.new ≡ record self.old { links = answered_after self.old.links lender } }
    {
        let link = &mut self.links[lender.0 as usize];
        link.answer();
    }

    /// A link was made: it is up, with nothing under way.
    pub fn raise(&mut self, lender: Lender)
        requires { lender.0 < length self.old.links }
        ensures { self.new ≡ record self.old { links = raised_after self.old.links lender } }
    {
        let link = &mut self.links[lender.0 as usize];
        link.raise();
    }

    /// A link was lost: it is down, with nothing under way.
    pub fn lose(&mut self, lender: Lender)
        requires { lender.0 < length self.old.links }
        ensures { self.new ≡ record self.old { links = lost_after self.old.links lender } }
    {
        let link = &mut self.links[lender.0 as usize];
        link.lose();
    }
}
