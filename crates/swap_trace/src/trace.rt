//! A text as a trace, and walks over its callers' calls and its operator's events.
ghost use Rattle.std.specs.Prelude.{◌≡◌, ◌<◌, ◌≤◌, length, IfSome};
ghost use Rattle.swap_wire.specs.Input.{IsInRange};
ghost use Rattle.swap_script.specs.Reading.{first_event, without_first, page_after};
ghost use Rattle.swap_trace.specs.Traces.{trace, calls_in, operators_in};

use std::marker::Model;
use swap_base::Caller;
use swap_script::{Grammar, Part, Script, ScriptRefused, TEXT_LIMIT, Walk, read_text};
use swap_wire::Event;

/// A text that was read as a trace.
#[derive(Drop)]
pub struct Trace<'t> {
    script: Script<'t>,
}

impl<'t> Model for Trace<'t> {
    ghost use Rattle.swap_script.specs.Reading.{Script};

    ghost Value = { Script };

    ghost view = { λ t. t.script };
}

impl<'t> Trace<'t> {
    /// The trace's sizes and lenders, its number of calls, and all of its events in their order.
    pub fn script(&self) -> &Script<'t>
        ensures { result.now ≡ self.now }
    {
        &self.script
    }

    /// A walk over the calls of a caller, in the order of their lines.
    pub fn caller(&self, caller: Caller) -> CallerWalk<'t>
        requires { caller.0 < self.now.sizes.callers }
        ensures { result ≡ calls_in caller self.now }
    {
        CallerWalk {
            walk: self.script.walk_of(Part::CallsOf(caller)),
        }
    }

    /// A walk over the operator's events, in the order of their lines.
    pub fn operator(&self) -> Walk<'t>
        ensures { result ≡ operators_in self.now }
    {
        self.script.walk_of(Part::Operator)
    }
}

/// The calls that are left of a caller.
#[derive(Drop)]
pub struct CallerWalk<'t> {
    walk: Walk<'t>,
}

impl<'t> Model for CallerWalk<'t> {
    ghost use Rattle.swap_script.specs.Reading.{Script};

    ghost Value = { Script };

    ghost view = { λ w. w.walk };
}

impl<'t> CallerWalk<'t> {
    /// The caller's next call; None exactly at the end. The page of a page-out is filled into
    /// `page`, which has the trace's `page_bytes`; a page-in leaves it.
    pub fn next(&mut self, page: &mut [u8]) -> Option<Event>
        requires { length page.old ≡ self.old.sizes.page_bytes }
        ensures event { result ≡ first_event self.old.inputs }
        ensures left { self.new ≡ without_first self.old }
        ensures page { page.new ≡ page_after self.old.inputs page.old }
        ensures in_range { IfSome result (IsInRange self.old.sizes (length self.old.lenders)) }
    {
        self.walk.next(page)
    }
}

/// Reads a text of at most `TEXT_LIMIT` bytes as a trace: a geometry line, lender lines, then lines
/// of calls, which begin with their caller, and of an operator's events. Where `tcp` is the number
/// of addresses by which lenders are reached, there are as many lenders, and no line moves their
/// far side.
/// Else the first line at fault is named, with the first fault of that line.
///
/// The text is checked whole, and no memory is taken: walks read it again.
pub fn read_trace<'t>(text: &'t [u8], tcp: Option<u32>) -> Result<Trace<'t>, ScriptRefused>
    requires { length text.now ≤ TEXT_LIMIT }
    ensures { result ≡ trace tcp text.now }
{
    match read_text(Grammar::Trace { tcp }, text) {
        Ok(script) => Ok(Trace { script }),
        Err(refused) => Err(refused),
    }
}
