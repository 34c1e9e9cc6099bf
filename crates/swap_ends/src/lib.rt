//! What two threads share: a bounded queue whose ends remember what moved through them, and a bell
//! to wait by.
#![tactic(auto)]

ghost use Rattle.std.specs.Prelude.{◌≡◌, ◌<◌, [], ◌∷◌, ◌++◌, IfOk, MatchResult, MatchOption};

use crossbeam_queue::protocol::{Lesson, Outcome, Protocol};
use crossbeam_queue::{Pass, RuledArrayQueue};
use std::alloc::{AllocError, Global};
use std::collections::LinkedList;
use std::marker::Model;
use std::sync::{Arc, Wait};

mod bell;

pub use bell::{Bell, SharedBell};

/// The rule of a queue that asks nothing: each end keeps a list of its own.
pub struct Logged;

impl<T> Protocol<T, LinkedList<T>> for Logged {
    ghost use Rattle.std.specs.Prelude.{[], ⊤};

    ghost holds = { λ items views. ⊤ };

    ghost first = { [] };
}

/// An item that an end gave, or took, joins its list.
pub struct Moved;

impl<T> Outcome<T, LinkedList<T>> for Moved {
    ghost use Rattle.std.specs.Prelude.{◌≡◌, [], ◌∷◌, ◌++◌};

    ghost then = { λ v x w. w ≡ v ++ x ∷ [] };
}

impl<T> Lesson<T, LinkedList<T>> for Moved {
    ghost use Rattle.std.specs.Prelude.{⊤};

    ghost fact = { λ v items. ⊤ };
}

type Ring<T> = RuledArrayQueue<T, LinkedList<T>, Logged>;

/// One end of a bounded queue. It means the items that moved through this end, oldest first.
#[derive(Drop)]
pub struct End<T: Drop> {
    ring: Arc<Ring<T>, Global>,
    pass: Pass<T, LinkedList<T>>,
}

impl<T: Drop> Model for End<T> {
    ghost use Rattle.std.specs.Prelude.{List};
    ghost use Rattle.std.specs.Arc.{arc_value};
    ghost use Rattle.crossbeam_queue.specs.Passes.{IsPassOf};
    ghost use Rattle.swap_ends.specs.Ends.{items_moved};

    ghost Value = { List T };

    ghost view = { λ e. items_moved e.pass };

    ghost invariant = { λ e. IsPassOf (arc_value e.ring) e.pass };
}

impl<T: Drop> End<T> {
    /// The two ends of a queue with room for so many items. All memory is taken here.
    pub fn pair(alloc: Global, room: usize) -> Result<(End<T>, End<T>), AllocError>
        requires { 0 < room }
        ensures { IfOk result (λ r. (r.0 ≡ []) × (r.1 ≡ [])) }
    {
        let (ring, pass) = Ring::<T>::ruled(alloc, room)?;
        let other = ring.pass();
        let ring = Arc::new(alloc, ring)?;
        let theirs = Arc::try_clone(&ring)?;
        Ok((
            End { ring, pass },
            End {
                ring: theirs,
                pass: other,
            },
        ))
    }

    /// Gives an item to the other end; it comes back where the queue was full.
    pub fn push<R: Wait>(&mut self, rt: &R, item: T) -> Result<(), T>
        ensures { MatchResult result (λ _. self.new ≡ self.old ++ item ∷ [])
            (λ x. (x ≡ item) × (self.new ≡ self.old)) }
    {
        self.ring.push_as::<Moved, R>(rt, &mut self.pass, item)
    }

    /// Takes the oldest item; none where the queue was empty when it looked.
    pub fn pop<R: Wait>(&mut self, rt: &R) -> Option<T>
        ensures { MatchOption result (self.new ≡ self.old) (λ x. self.new ≡ self.old ++ x ∷ []) }
    {
        self.ring.pop_as::<Moved, R>(rt, &mut self.pass)
    }
}
