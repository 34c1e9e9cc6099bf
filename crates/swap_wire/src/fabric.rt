use crate::Msg;
use swap_base::{Lease, Lender, Link};

/// What a fabric says of a message that it is given: the link takes it, or there is no link.
#[derive(Clone, Copy, Debug, PartialEq, Eq)]
pub enum Sent {
    Sent,
    Down,
}

/// What a link brings to the device. The page of a `PageIs` stands in the buffer.
#[derive(Clone, Copy, Debug, PartialEq, Eq)]
pub enum Took {
    Got(Msg),
    Nothing,
    Lost,
}

/// What a lender did with its link: nothing, it saw the link's end, it took a message and answered,
/// or it took one that the link may not send, and ended it.
#[derive(Clone, Copy, Debug, PartialEq, Eq)]
pub enum Gave {
    Nothing,
    End,
    Got {
        msg: Msg,
        reply: Option<Msg>,
        evicted: u64,
    },
    Ended {
        msg: Msg,
    },
}

/// A host's average use in slots, rounded up, and the set of slots that are asked for their rates.
#[derive(Clone, Copy, Debug, PartialEq, Eq)]
pub struct Hosted {
    pub mean: u64,
    pub asked: u64,
}

/// The links of a device to its lenders.
///
/// A fabric tells what it does by `moves`, and what it promises of pages by three tests of its own.
/// `keeps` says that a lender holds bytes at a place of a lease, once it has taken what is under
/// way to it; `owes` says which pages answer the reads of a link that aren't answered yet, oldest
/// first; `answers` says what a page that was given may be where another was owed. A fabric that
/// promises nothing takes all three as always true.
pub trait Fabric {
    ghost use Rattle.std.specs.Prelude.{◌≡◌, ℕ, ◌<◌, Bool, true, false, List, [], ◌∷◌, ◌++◌, length};
    ghost use Rattle.swap_base.specs.declared.Lender.{Lender};
    ghost use Rattle.swap_base.specs.declared.Lease.{Lease};
    ghost use Rattle.swap_base.specs.declared.Link.{Link};
    ghost use Rattle.swap_wire.specs.Fabric.{Parcel, carries_page, parcel_of, write_parcel, read_parcel, Handed, Brought, handed_of, FabricCall, Connect, Send, Take, End, Give, Cut, Crash, Host, FabricAnswer, FabricOf, is_page, ends_keeping, changes_owing};
    ghost use Rattle.swap_wire.specs.declared.fabric.Sent.TheVariants as sent_is;

    /// What the fabric is of.
    ghost of: { Self → FabricOf };

    /// From a fabric, a call and its answer to the fabric after it.
    ghost moves: { Self → (c : FabricCall) → FabricAnswer c → Self → Type 0 };

    /// As it is made for these sizes and this number of lenders.
    ghost fresh: { Self → FabricOf → Type 0 };

    /// A lender keeps these bytes at a place of a lease.
    ghost keeps: { Self → Lender → Lease → ℕ → List ℕ → Type 0 };

    /// A lender's link owes these pages, one for each read that isn't answered, oldest first.
    ghost owes: { Self → Lender → List (List ℕ) → Type 0 };

    /// The page that was owed, and the one that was given.
    ghost answers: { List ℕ → List ℕ → Type 0 };

    /// Opens a link of this number to a lender; an older link to it is dropped.
    fn connect(&mut self, lender: Lender, link: Link)
        requires { lender.0 < (of self.old).lenders }
        ensures { moves self.old (Connect lender link) tt self.new };

    /// Hands a message to a lender's link. The page matters for `Write` and `PageIs` alone.
    fn send(&mut self, lender: Lender, msg: &Msg, page: &[u8]) -> Sent
        requires lender { lender.0 < (of self.old).lenders }
        requires page { carries_page msg.now ≡ true
            → length page.now ≡ (of self.old).sizes.page_bytes }
        ensures { moves self.old (Send lender (parcel_of msg.now page.now)) result self.new };

    /// Takes what came from a lender. The page of a `PageIs` fills the buffer.
    fn take(&mut self, lender: Lender, page: &mut [u8]) -> Took
        requires lender { lender.0 < (of self.old).lenders }
        requires page { length page.old ≡ (of self.old).sizes.page_bytes }
        ensures { moves self.old (Take lender) (handed_of result page.new) self.new };

    /// Closes the device's end of a link.
    fn end(&mut self, lender: Lender)
        requires { lender.0 < (of self.old).lenders }
        ensures { moves self.old (End lender) tt self.new };

    /// Lets a lender take the next message of its link, where the fabric holds the lender.
    fn give(&mut self, lender: Lender) -> Gave
        requires { lender.0 < (of self.old).lenders }
        ensures { moves self.old (Give lender) result self.new };

    /// Cuts a link in memory, so that only so many messages still come each way; false where
    /// nothing changed.
    fn cut(&mut self, lender: Lender, to_lender: u32, to_device: u32) -> bool
        requires { lender.0 < (of self.old).lenders }
        ensures { moves self.old (Cut lender to_lender to_device) result self.new };

    /// A lender in memory loses all that it holds, and starts anew.
    fn crash(&mut self, lender: Lender) -> bool
        requires { lender.0 < (of self.old).lenders }
        ensures { moves self.old (Crash lender) result self.new };

    /// Tells a lender in memory how many slots its host uses, with a word to choose from.
    fn host(&mut self, lender: Lender, used: u32, word: u64) -> Option<Hosted>
        requires { lender.0 < (of self.old).lenders }
        ensures { moves self.old (Host lender used word) result self.new };

    /// A fabric as made is of what it was made for.
    ghost fresh_is_of: { (f : Self) (o : FabricOf) → fresh f o → of f ≡ o };

    /// No call changes what a fabric is of.
    ghost moves_keep_of: { (f : Self) (c : FabricCall) (r : FabricAnswer c) (g : Self)
        → moves f c r g → of g ≡ of f };

    /// A page that is taken has the length of a page.
    ghost taken_fits: { (f : Self) (l : Lender) (p : Parcel) (g : Self)
        → moves f (Take l) (Brought p) g → carries_page p.msg ≡ true
        → length p.page ≡ (of f).sizes.page_bytes };

    /// A write that is sent is kept from then on.
    ghost write_is_kept: { (f : Self) (l : Lender) (k : Lease) (i : ℕ) (bytes : List ℕ)
        (g : Self)
        → moves f (Send l (write_parcel k i bytes)) sent_is.Sent g → keeps g l k i bytes };

    /// What is kept stays so until the place is written anew, the lease is done or lent anew, or
    /// the link ends.
    ghost kept_until: { (f : Self) (c : FabricCall) (r : FabricAnswer c) (g : Self) (l : Lender)
        (k : Lease) (i : ℕ) (bytes : List ℕ)
        → moves f c r g → keeps f l k i bytes → ends_keeping l k i c r ≡ false
        → keeps g l k i bytes };

    /// A new link owes no page.
    ghost new_link_owes_none: { (f : Self) (l : Lender) (n : Link) (g : Self)
        → moves f (Connect l n) tt g → owes g l [] };

    /// A read that is sent is owed the bytes that are kept for it, after the pages owed before.
    ghost read_is_owed: { (f : Self) (l : Lender) (k : Lease) (i : ℕ) (bytes : List ℕ)
        (pages : List (List ℕ)) (g : Self)
        → moves f (Send l (read_parcel k i)) sent_is.Sent g → owes f l pages
        → keeps f l k i bytes → owes g l (pages ++ bytes ∷ []) };

    /// A page that is taken answers the oldest read, and is owed no more.
    ghost page_was_owed: { (f : Self) (l : Lender) (p : Parcel) (g : Self) (page : List ℕ)
        (rest : List (List ℕ))
        → moves f (Take l) (Brought p) g → is_page p.msg ≡ true → owes f l (page ∷ rest)
        → owes g l rest };

    /// It is as what was owed answers.
    ghost page_answers: { (f : Self) (l : Lender) (p : Parcel) (g : Self) (page : List ℕ)
        (rest : List (List ℕ))
        → moves f (Take l) (Brought p) g → is_page p.msg ≡ true → owes f l (page ∷ rest)
        → answers page p.page };

    /// What is owed stays so until a read is sent, a page is taken, or the link ends.
    ghost owed_until: { (f : Self) (c : FabricCall) (r : FabricAnswer c) (g : Self) (l : Lender)
        (pages : List (List ℕ))
        → moves f c r g → owes f l pages → changes_owing l c r ≡ false → owes g l pages };
}
