ghost use Rattle.std.specs.Prelude.{◌≡◌, ℕ, ◌+◌, ◌*◌, ◌≤◌, length};
ghost use Rattle.swap_wire.specs.Frames.{form, kind};
ghost use Rattle.swap_wire.specs.Heads.{counted_length, whole_length, head};

use crate::{Msg, Side};

/// The kinds of messages.
#[derive(Clone, Copy)]
pub(crate) enum Kind {
    Hello,
    Query,
    Borrow,
    Write,
    Read,
    Rates,
    Done,
    Room,
    Lent,
    Refused,
    Wrote,
    PageIs,
    AskRates,
    Evict,
}

/// What a frame of a kind holds: its kind byte, who sends it, how many bytes its fields take, and
/// how many pages follow them.
#[derive(Clone, Copy)]
pub(crate) struct Form {
    pub(crate) number: u8,
    pub(crate) from: Side,
    pub(crate) fields: u32,
    pub(crate) pages: u32,
}

/// Each kind once.
pub(crate) const KINDS: [Kind; 14] = [
    Kind::Hello,
    Kind::Query,
    Kind::Borrow,
    Kind::Write,
    Kind::Read,
    Kind::Rates,
    Kind::Done,
    Kind::Room,
    Kind::Lent,
    Kind::Refused,
    Kind::Wrote,
    Kind::PageIs,
    Kind::AskRates,
    Kind::Evict,
];

impl Kind {
    /// The kind of a message.
    pub(crate) fn of(msg: &Msg) -> Kind
        ensures { result ≡ kind msg.now }
    {
        match *msg {
            Msg::Hello { .. } => Kind::Hello,
            Msg::Query { .. } => Kind::Query,
            Msg::Borrow { .. } => Kind::Borrow,
            Msg::Write { .. } => Kind::Write,
            Msg::Read { .. } => Kind::Read,
            Msg::Rates { .. } => Kind::Rates,
            Msg::Done { .. } => Kind::Done,
            Msg::Room { .. } => Kind::Room,
            Msg::Lent { .. } => Kind::Lent,
            Msg::Refused { .. } => Kind::Refused,
            Msg::Wrote { .. } => Kind::Wrote,
            Msg::PageIs { .. } => Kind::PageIs,
            Msg::AskRates { .. } => Kind::AskRates,
            Msg::Evict { .. } => Kind::Evict,
        }
    }

    /// The table of kinds.
    pub(crate) fn form(self) -> Form
        ensures form { result ≡ form self }
        ensures fields { result.fields ≤ 12 }
        ensures pages { result.pages ≤ 1 }
    {
        let device = |number, fields, pages| Form {
            number,
            from: Side::Device,
            fields,
            pages,
        };
        let lender = |number, fields, pages| Form {
            number,
            from: Side::Lender,
            fields,
            pages,
        };
        match self {
            Kind::Hello => device(1, 12, 0),
            Kind::Query => device(2, 4, 0),
            Kind::Borrow => device(3, 4, 0),
            Kind::Write => device(4, 8, 1),
            Kind::Read => device(5, 8, 0),
            Kind::Rates => device(6, 12, 0),
            Kind::Done => device(7, 4, 0),
            Kind::Room => lender(8, 8, 0),
            Kind::Lent => lender(9, 8, 0),
            Kind::Refused => lender(10, 4, 0),
            Kind::Wrote => lender(11, 8, 0),
            Kind::PageIs => lender(12, 8, 1),
            Kind::AskRates => lender(13, 4, 0),
            Kind::Evict => lender(14, 4, 0),
        }
    }
}

impl Form {
    /// What the length of a frame counts: the kind byte, the fields and the pages.
    pub(crate) fn counted_length(self, page_bytes: u32) -> u32
        requires fields { self.fields ≤ 12 }
        requires pages { self.pages ≤ 1 }
        requires page_bytes { page_bytes ≤ 4096 }
        ensures { result ≡ counted_length page_bytes self }
    {
        1 + (self.fields + self.pages * page_bytes)
    }

    /// How many bytes a frame has.
    pub(crate) fn whole_length(self, page_bytes: u32) -> usize
        requires fields { self.fields ≤ 12 }
        requires pages { self.pages ≤ 1 }
        requires page_bytes { page_bytes ≤ 4096 }
        ensures { result ≡ whole_length page_bytes self }
    {
        4 + self.counted_length(page_bytes) as usize
    }

    /// The first five bytes of a frame.
    pub(crate) fn head(self, page_bytes: u32) -> [u8; 5]
        requires fields { self.fields ≤ 12 }
        requires pages { self.pages ≤ 1 }
        requires page_bytes { page_bytes ≤ 4096 }
        ensures { result ≡ head page_bytes self }
    {
        let [a, b, c, d] = self.counted_length(page_bytes).to_be_bytes();
        [a, b, c, d, self.number]
    }
}
