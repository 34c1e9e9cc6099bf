ghost use Rattle.std.specs.Prelude.{◌≡◌, ◌<◌, length, map, IfOk, true, if◌then◌else◌};
ghost use Rattle.swap_calls.specs.Calls.{all_idle, call_of, state_of, is_idle, is_waiting, may_read, keeps_page, end_after, waits_for_room, reads, came_after, failed_after, lost_after, lost_if_through, paged_out, newer_if_reads, IsTable};
ghost use Rattle.swap_calls.specs.Kept.{in_state};

use super::kept::KeptCall;
use super::{Arrived, CallState};
use std::alloc::Global;
use std::marker::Model;
use swap_base::{Caller, EntryNo, Geometry, Lender, NoMemory, Page, Via};

/// The call of each caller, with the page that is kept for it.
#[derive(Drop)]
pub struct Calls {
    calls: Vec<KeptCall>,
    page_bytes: usize,
}

impl Model for Calls {
    ghost use Rattle.std.specs.Prelude.{◌≡◌, length};
    ghost use Rattle.std.specs.List.{All};
    ghost use Rattle.swap_calls.specs.Calls.{CallsView};
    ghost use Rattle.swap_calls.specs.Kept.{calls_in};

    ghost Value = { CallsView };

    ghost view = { λ t. record { calls = calls_in t.calls.items; page_bytes = t.page_bytes } };

    ghost invariant = { λ t. All (λ kept. length kept.page ≡ t.page_bytes) t.calls.items };
}

impl Calls {
    /// No call for any of the geometry's callers. No other call of `Calls` takes memory.
    pub fn make(alloc: Global, geometry: &Geometry) -> Result<Calls, NoMemory>
        ensures { IfOk result
            (λ t. t
            ≡ record {
              calls = all_idle geometry.now.callers;
              page_bytes = geometry.now.page_bytes;
            }) }
    {
        let callers = geometry.callers() as usize;
        let page_bytes = geometry.page_bytes() as usize;
        let Ok(mut calls) = Vec::with_capacity(alloc, callers) else {
            return Err(NoMemory);
        };
        'callers: for _ in 0..callers {
            calls.push_reserved(KeptCall::make(alloc, page_bytes)?);
        }
        Ok(Calls { calls, page_bytes })
    }

    /// Each call keeps a whole page or nothing.
    pub fn keeps_pages(&self)
        ensures { IsTable self.now }
    {
        let _calls = &self.calls;
    }

    pub fn state(&self, caller: Caller) -> CallState
        requires { caller.0 < length self.now.calls }
        ensures { result ≡ state_of self.now.calls caller }
    {
        self.calls[caller.0 as usize].state()
    }

    /// The page kept for a call that waits for room, or whose page came; nothing for any other.
    pub fn bytes(&self, caller: Caller) -> &[u8]
        requires { caller.0 < length self.now.calls }
        ensures kept { result.now ≡ (call_of self.now.calls caller).bytes }
        ensures len { length result.now
            ≡ (if keeps_page (state_of self.now.calls caller) then self.now.page_bytes else 0) }
    {
        let call = &self.calls[caller.0 as usize];
        if call.state().keeps_page() {
            call.page()
        } else {
            &call.page()[..0]
        }
    }

    /// A page-out that waits for room, with its page's bytes.
    pub fn begin_room(&mut self, caller: Caller, page: Page, since: u64, bytes: &[u8])
        requires caller { caller.0 < length self.old.calls }
        requires idle { is_idle (state_of self.old.calls caller) ≡ true }
        requires bytes { length bytes.now ≡ self.old.page_bytes }
        ensures { self.new
            ≡ record self.old
            { calls = waits_for_room self.old.calls caller page since bytes.now } }
    {
        self.calls[caller.0 as usize].keep(CallState::Room { page, since }, bytes);
    }

    /// A read that waits for its answer: a caller's first, or another once the last has its answer.
    pub fn begin_read(&mut self, caller: Caller, page: Page, newest: EntryNo, via: Via, since: u64)
        requires caller { caller.0 < length self.old.calls }
        requires may_read { may_read (state_of self.old.calls caller) ≡ true }
        ensures { self.new
            ≡ record self.old { calls = reads self.old.calls caller page newest via since } }
    {
        self.calls[caller.0 as usize].set_state(CallState::Reading {
            page,
            newest,
            via,
            arrived: Arrived::Waiting,
            newer: false,
            since,
        });
    }

    /// The page came.
    pub fn came(&mut self, caller: Caller, bytes: &[u8])
        requires caller { caller.0 < length self.old.calls }
        requires waiting { is_waiting (state_of self.old.calls caller) ≡ true }
        requires bytes { length bytes.now ≡ self.old.page_bytes }
        ensures { self.new
            ≡ record self.old { calls = came_after self.old.calls caller bytes.now } }
    {
        let call = &mut self.calls[caller.0 as usize];
        let state = call.state().arrived_as(Arrived::Came);
        call.keep(state, bytes);
    }

    /// The read failed.
    pub fn failed(&mut self, caller: Caller)
        requires caller { caller.0 < length self.old.calls }
        requires waiting { is_waiting (state_of self.old.calls caller) ≡ true }
        ensures { self.new ≡ record self.old { calls = failed_after self.old.calls caller } }
    {
        let call = &mut self.calls[caller.0 as usize];
        let state = call.state().arrived_as(Arrived::Failed);
        call.set_state(state);
    }

    /// The lender's link is gone: each read that waits for it is lost.
    pub fn lost(&mut self, lender: Lender)
        ensures { self.new ≡ record self.old { calls = lost_after self.old.calls lender } }
    {
        lose(&mut self.calls, lender);
    }

    /// The page was paged out: each read of it is of older bytes than the newest.
    pub fn paged_out(&mut self, page: Page)
        ensures { self.new ≡ record self.old { calls = paged_out self.old.calls page } }
    {
        note_page_out(&mut self.calls, page);
    }

    /// The caller's call is over, whatever it was.
    pub fn end(&mut self, caller: Caller)
        requires { caller.0 < length self.old.calls }
        ensures { self.new ≡ record self.old { calls = end_after self.old.calls caller } }
    {
        self.calls[caller.0 as usize].set_state(CallState::Idle);
    }
}

fn lose(calls: &mut [KeptCall], lender: Lender)
    ensures { calls.new ≡ map (in_state (lost_if_through lender)) calls.old }
{
    'calls: for call in calls {
        let state = call.state().lost_through(lender);
        call.set_state(state);
    }
}

fn note_page_out(calls: &mut [KeptCall], page: Page)
    ensures { calls.new ≡ map (in_state (newer_if_reads page)) calls.old }
{
    'calls: for call in calls {
        let state = call.state().with_newer(page);
        call.set_state(state);
    }
}
