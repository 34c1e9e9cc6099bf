ghost use Rattle.std.specs.Prelude.{◌≡◌, length, IfOk, replicate, true};
ghost use Rattle.swap_calls.specs.Calls.{is_waiting, may_read, keeps_page, newer_if_reads, lost_if_through, arrived_state};

use super::{Arrived, CallState};
use std::alloc::Global;
use std::marker::Model;
use swap_base::{EntryNo, Lender, NoMemory, Page, Via};

impl CallState {
    /// Whether the page's bytes are kept for this call.
    pub(crate) fn keeps_page(self) -> bool
        ensures { result ≡ keeps_page self }
    {
        match self {
            CallState::Idle => false,
            CallState::Room { .. } => true,
            CallState::Reading { arrived, .. } => match arrived {
                Arrived::Came => true,
                Arrived::Waiting | Arrived::Failed | Arrived::Lost => false,
            },
        }
    }

    pub(crate) fn with_newer(self, paged_out: Page) -> CallState
        ensures { result ≡ newer_if_reads paged_out self }
    {
        match self {
            CallState::Reading {
                page,
                newest,
                via,
                arrived,
                newer,
                since,
            } => CallState::Reading {
                page,
                newest,
                via,
                arrived,
                newer: newer || paged_out.0 == page.0,
                since,
            },
            other => other,
        }
    }

    pub(crate) fn lost_through(self, lender: Lender) -> CallState
        ensures { result ≡ lost_if_through lender self }
    {
        match self {
            CallState::Reading {
                page,
                newest,
                via: Via::Lender(through),
                arrived: Arrived::Waiting,
                newer,
                since,
            } if through.0 == lender.0 => CallState::Reading {
                page,
                newest,
                via: Via::Lender(through),
                arrived: Arrived::Lost,
                newer,
                since,
            },
            other => other,
        }
    }

    pub(crate) fn arrived_as(self, how: Arrived) -> CallState
        ensures { result ≡ arrived_state how self }
    {
        match self {
            CallState::Reading {
                page,
                newest,
                via,
                arrived: Arrived::Waiting,
                newer,
                since,
            } => CallState::Reading {
                page,
                newest,
                via,
                arrived: how,
                newer,
                since,
            },
            other => other,
        }
    }
}

/// A caller's call, with a place for its page.
#[derive(Drop)]
pub struct KeptCall {
    state: CallState,
    page: Vec<u8>,
}

impl Model for KeptCall {
    ghost use Rattle.swap_calls.specs.Kept.{Kept};

    ghost Value = { Kept };

    ghost view = { λ k. record { state = k.state; page = k.page.items } };
}

impl KeptCall {
    /// No call, and a place for a page.
    pub fn make(alloc: Global, page_bytes: usize) -> Result<KeptCall, NoMemory>
        ensures { IfOk result
            (λ k. k ≡ record { state = CallState.Idle; page = replicate page_bytes 0 }) }
    {
        match vec![in alloc; 0u8; page_bytes] {
            Ok(page) => Ok(KeptCall {
                state: CallState::Idle,
                page,
            }),
            Err(_) => Err(NoMemory),
        }
    }

    pub fn state(&self) -> CallState
        ensures { result ≡ self.now.state }
    {
        self.state
    }

    pub fn page(&self) -> &[u8]
        ensures { result.now ≡ self.now.page }
    {
        self.page.as_slice()
    }

    pub fn set_state(&mut self, state: CallState)
        ensures { self.new ≡ record self.old { state = state } }
    {
        self.state = state;
    }

    /// Takes a page in, with the state that keeps it.
    pub fn keep(&mut self, state: CallState, bytes: &[u8])
        requires { length bytes.now ≡ length self.old.page }
        ensures { self.new ≡ record { state = state; page = bytes.now } }
    {
        self.state = state;
        self.page.copy_from_slice(bytes);
    }
}
