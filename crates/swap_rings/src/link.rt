ghost use Rattle.std.specs.Prelude.{◌≡◌, ◌<◌, IfOk, length};
ghost use Rattle.swap_rings.specs.Rings.{down, link_at_start, oldest, sent_on, answered_on, may_send};

use crate::Request;
use std::alloc::{AllocError, Global};
use std::collections::VecDeque;
use std::marker::Model;
use swap_base::MOST_WINDOW;

/// One link, with room for the longest ring.
#[derive(Drop)]
pub(crate) struct Link {
    up: bool,
    ring: VecDeque<Request>,
}

impl Model for Link {
    ghost use Rattle.std.specs.Prelude.{◌≤◌, length};
    ghost use Rattle.std.specs.VecDeque.{deque_capacity};
    ghost use Rattle.swap_rings.specs.Rings.{LinkState};
    ghost use Rattle.swap_base.specs.declared.TheConstants.{MOST_WINDOW};

    ghost Value = { LinkState };

    ghost view = { λ l. record { up = l.up; ring = l.ring.items } };

    ghost invariant = { λ l. MOST_WINDOW ≤ deque_capacity l.ring };
}

impl Link {
    /// A link that is down.
    pub(crate) fn make(alloc: Global) -> Result<Link, AllocError>
        ensures { IfOk result (λ l. l ≡ down) }
    {
        Ok(Link {
            up: false,
            ring: VecDeque::with_capacity(alloc, MOST_WINDOW as usize)?,
        })
    }

    pub(crate) fn is_up(&self) -> bool
        ensures { result ≡ self.now.up }
    {
        self.up
    }

    /// Whether a request may be sent, where so many may be under way.
    pub(crate) fn may_send(&self, window: u32) -> bool
        ensures { result ≡ may_send window self.now }
    {
        self.up && self.ring.len() < window as usize
    }

    /// The request that was sent first.
    pub(crate) fn oldest(&self) -> Option<Request>
        ensures { result ≡ oldest self.now.ring }
    {
        self.ring.front().copied()
    }

    pub(crate) fn send(&mut self, request: Request)
        requires { length self.old.ring < MOST_WINDOW }
        ensures { self.new ≡ sent_on self.old request }
    {
        self.ring.push_back_reserved(request);
    }

    pub(crate) fn answer(&mut self)
        ensures { self.new ≡ answered_on self.old }
    {
        let _oldest = self.ring.pop_front();
    }

    /// The link is up, with nothing under way.
    pub(crate) fn raise(&mut self)
        ensures { self.new ≡ link_at_start }
    {
        self.ring.clear();
        self.up = true;
    }

    /// The link is down, with nothing under way.
    pub(crate) fn lose(&mut self)
        ensures { self.new ≡ down }
    {
        self.ring.clear();
        self.up = false;
    }
}
