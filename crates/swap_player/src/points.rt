// What a gate said, kept until the next turn.
use swap_base::Lender;
use swap_board::Point;
use swap_choice::{SLOTS, has_slot, with_slot};

/// The points that a gate lets pass: the disk, and of each kind at a link the set of its lenders.
/// There are at most 8 lenders.
#[derive(Clone, Copy)]
pub(crate) struct OpenPoints {
    disk: bool,
    gives: u64,
    takes: u64,
}

// The set and this lender.
fn with_lender(set: u64, lender: Lender) -> u64 {
    if lender.0 < SLOTS {
        with_slot(set, lender.0)
    } else {
        set
    }
}

impl OpenPoints {
    /// No point.
    pub(crate) fn none() -> OpenPoints {
        OpenPoints {
            disk: false,
            gives: 0,
            takes: 0,
        }
    }

    /// These points and this one.
    pub(crate) fn with(self, point: Point) -> OpenPoints {
        match point {
            Point::Disk => OpenPoints { disk: true, ..self },
            Point::Give(lender) => OpenPoints {
                gives: with_lender(self.gives, lender),
                ..self
            },
            Point::Take(lender) => OpenPoints {
                takes: with_lender(self.takes, lender),
                ..self
            },
        }
    }

    /// Whether this point is one of them.
    pub(crate) fn has(self, point: Point) -> bool {
        match point {
            Point::Disk => self.disk,
            Point::Give(lender) => has_slot(self.gives, lender.0),
            Point::Take(lender) => has_slot(self.takes, lender.0),
        }
    }
}
