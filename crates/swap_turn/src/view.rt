// What the seats of the lock know, and the rule of its table.
ghost use Rattle.std.specs.Prelude.{◌≡◌, length};
ghost use Rattle.swap_record.specs.History.{History};

use atomic_table::TableRule;
use std::collections::LinkedList;
use std::snapshot::Snapshot;
use swap_record::Row;

/// A value whose meaning is a history.
pub trait Told {
    ghost history: { Self → History };

    /// How many entries the history has.
    fn told(&self) -> u32
        ensures { result ≡ length (history self.now) };
}

pub enum Stage {
    Idle,
    Drawn(u64),
    Serving(u64),
}

/// What a seat knows. No value of it is made.
pub struct View {
    /// The seat was joined into another.
    pub spent: bool,
    pub number: u64,
    /// The lock's number of seats.
    pub seats: u64,
    pub seen: LinkedList<Row>,
    pub mine: LinkedList<Row>,
    pub stage: Stage,
    /// The numbers that `make` has not given yet.
    pub left: LinkedList<u64>,
    /// Number and entries of each seat that this one took in.
    pub joined: LinkedList<(u64, LinkedList<Row>)>,
}

/// What the table is told when it is made.
#[derive(Drop)]
pub struct Opening<T> {
    pub seats: u64,
    pub start: Snapshot<T>,
}

/// The rule of the table. Word 0 is the next ticket, 1 the ticket that is served, 2 the length of
/// the history, and 3 the number of seats.
pub struct Turning;

impl<T: Told> TableRule<Option<T>, View, Opening<T>> for Turning {
    ghost use Rattle.swap_turn.specs.Turns.{Turns, first_view};

    ghost holds = { λ _. Turns T.history };

    ghost first = { λ k. first_view k.seats (T.history k.start.value) };
}
