ghost use Rattle.std.specs.Prelude.{◌≡◌, ◌+◌, ◌-◌, ◌<◌, ◌≤◌, ◌↔◌, ◌==◌, [], length, max, option_map, OnOk, OnErr, Some};
ghost use Rattle.swap_record.specs.History.{Row, next_name, row_named};
ghost use Rattle.swap_record.specs.RecordView.{IsBook, push_after, first_noted};

use super::{Entry, MOST_COUNTED, MOST_ENTRIES, Op};
use std::alloc::Global;
use std::marker::Model;
use swap_base::{CallKind, Caller, EntryNo, Origin, Page};

/// Why there is no room for more entries.
#[derive(Clone, Copy, Debug, PartialEq, Eq)]
pub enum ReserveRefused {
    TooMany,
    NoMemory,
}

/// A history, with the bytes of each entry's page. Only `reserve` takes memory.
#[derive(Drop)]
pub struct Record {
    page_bytes: usize,
    entries: Vec<Entry>,
    bytes: Vec<u8>,
    counts: [u32; MOST_COUNTED],
    spare: u32,
    noted: Option<u32>,
}

impl Model for Record {
    ghost use Rattle.swap_record.specs.RecordView.{RecordView};

    ghost Value = { RecordView };

    ghost use Rattle.swap_record.specs.InMemory.{history_in, IsKept};

    ghost view = { λ r.
        record {
          page_bytes = r.page_bytes;
          history = history_in r.page_bytes r.entries.items r.bytes.items;
          spare = r.spare;
          noted = r.noted;
        } };

    ghost invariant = { λ r. IsKept r.page_bytes r.entries r.bytes r.counts r.spare r.noted };
}

#[tactic(auto, using(crate::proofs::Stored::length_history))]
impl Record {
    /// No entries, and no room for any.
    pub fn make(alloc: Global, page_bytes: u32) -> Record
        requires { page_bytes ≤ 4_096 }
        ensures { result
            ≡ record { page_bytes = page_bytes; history = []; spare = 0; noted = None } }
    {
        Record {
            page_bytes: page_bytes as usize,
            entries: Vec::new(alloc),
            bytes: Vec::new(alloc),
            counts: [0; MOST_COUNTED],
            spare: 0,
            noted: None,
        }
    }

    /// What holds of every record.
    pub fn holds(&self)
        ensures { IsBook self.now }
    {
        let _entries = &self.entries;
    }

    /// Makes room for `n` more entries; after a refusal all is as before. Memory is wanting only
    /// where there is less room.
    pub fn reserve(&mut self, n: u32) -> Result<(), ReserveRefused>
        ensures ok { OnOk result (self.new ≡ record self.old { spare = max self.old.spare n }) }
        ensures err { OnErr result (self.new ≡ self.old) }
        ensures too_many { (result ≡ Err ReserveRefused.TooMany)
            ↔ (MOST_ENTRIES < length self.old.history + n) }
        ensures no_memory { result ≡ Err ReserveRefused.NoMemory → self.old.spare < n }
    {
        if n > MOST_ENTRIES - self.entries.len() as u32 {
            return Err(ReserveRefused::TooMany);
        }
        if n > self.spare {
            self.grow(n)?;
        }
        Ok(())
    }

    /// Makes room for `n` more entries, of which there is less.
    fn grow(&mut self, n: u32) -> Result<(), ReserveRefused>
        requires few { length self.old.history + n ≤ MOST_ENTRIES }
        requires more { self.old.spare < n }
        ensures ok { OnOk result (self.new ≡ record self.old { spare = n }) }
        ensures err { OnErr result (self.new ≡ self.old) }
        ensures no_memory { OnErr result (result ≡ Err ReserveRefused.NoMemory) }
    {
        if self.entries.reserve(n as usize).is_err() {
            return Err(ReserveRefused::NoMemory);
        }
        if self.bytes.reserve(n as usize * self.page_bytes).is_err() {
            return Err(ReserveRefused::NoMemory);
        }
        self.spare = n;
        Ok(())
    }

    /// For how many more entries there is room.
    pub fn spare(&self) -> u32
        ensures { result ≡ self.now.spare }
    {
        self.spare
    }

    pub fn len(&self) -> u32
        ensures { result ≡ length self.now.history }
    {
        self.entries.len() as u32
    }

    pub fn is_empty(&self) -> bool
        ensures { result ≡ (length self.now.history == 0) }
    {
        self.entries.is_empty()
    }

    /// How many bytes a page has.
    pub(crate) fn page_bytes(&self) -> usize
        ensures bytes { result ≡ self.now.page_bytes }
        ensures within { self.now.page_bytes ≤ 4_096 }
    {
        self.page_bytes
    }

    /// The first entry that is marked, if one is.
    pub(crate) fn noted(&self) -> Option<u32>
        ensures { result ≡ self.now.noted }
    {
        self.noted
    }

    /// Marks an entry as one whose printed number was wrong.
    pub fn note(&mut self, no: EntryNo)
        requires { no.0 < length self.old.history }
        ensures { self.new ≡ record self.old { noted = first_noted self.old.noted no.0 } }
    {
        self.noted = match self.noted {
            None => Some(no.0),
            Some(first) => Some(first.min(no.0)),
        };
    }

    pub fn entry(&self, no: EntryNo) -> Entry
        requires { no.0 < length self.now.history }
        ensures { option_map (λ (row : Row). row.entry) (row_named self.now.history no.0)
            ≡ Some result }
    {
        self.entries[no.0 as usize]
    }

    /// The bytes of an entry's page.
    pub fn bytes(&self, no: EntryNo) -> &[u8]
        requires { no.0 < length self.now.history }
        ensures bytes { option_map (λ (row : Row). row.bytes) (row_named self.now.history no.0)
            ≡ Some result.now }
        ensures len { length result.now ≡ self.now.page_bytes }
        ensures within { self.now.page_bytes ≤ 4_096 }
    {
        let start = no.0 as usize * self.page_bytes;
        &self.bytes[start..start + self.page_bytes]
    }

    /// A page-out, with the bytes handed in.
    pub fn push_out(&mut self, caller: Caller, page: Page, bytes: &[u8]) -> EntryNo
        requires caller { caller.0 < MOST_COUNTED }
        requires room { 0 < self.old.spare }
        requires bytes { length bytes.now ≡ self.old.page_bytes }
        ensures after { self.new ≡ push_after self.old caller page Op.PageOut bytes.now }
        ensures name { result ≡ next_name self.old.history }
    {
        self.push(caller, page, Op::PageOut, bytes)
    }

    /// A page-in, with the entry that it names, and the bytes given.
    pub fn push_in(
        &mut self,
        caller: Caller,
        page: Page,
        named: Option<EntryNo>,
        origin: Origin,
        bytes: &[u8],
    ) -> EntryNo
        requires caller { caller.0 < MOST_COUNTED }
        requires room { 0 < self.old.spare }
        requires bytes { length bytes.now ≡ self.old.page_bytes }
        ensures after { self.new
            ≡ push_after self.old caller page (Op.PageIn named origin) bytes.now }
        ensures name { result ≡ next_name self.old.history }
    {
        self.push(caller, page, Op::PageIn { named, origin }, bytes)
    }

    /// A call that failed, with the counts of failures as it began and as it ended.
    pub fn push_failed(
        &mut self,
        caller: Caller,
        page: Page,
        kind: CallKind,
        since: u64,
        at: u64,
        bytes: &[u8],
    ) -> EntryNo
        requires caller { caller.0 < MOST_COUNTED }
        requires room { 0 < self.old.spare }
        requires bytes { length bytes.now ≡ self.old.page_bytes }
        ensures after { self.new
            ≡ push_after self.old caller page (Op.Failed kind since at) bytes.now }
        ensures name { result ≡ next_name self.old.history }
    {
        self.push(caller, page, Op::Failed { kind, since, at }, bytes)
    }

    fn push(&mut self, caller: Caller, page: Page, op: Op, bytes: &[u8]) -> EntryNo
        requires caller { caller.0 < MOST_COUNTED }
        requires room { 0 < self.old.spare }
        requires bytes { length bytes.now ≡ self.old.page_bytes }
        ensures after { self.new ≡ push_after self.old caller page op bytes.now }
        ensures name { result ≡ next_name self.old.history }
    {
        let no = EntryNo(self.entries.len() as u32);
        let number = self.counts[caller.0 as usize];
        self.counts[caller.0 as usize] = number + 1;
        self.entries.push_reserved(Entry {
            caller,
            number,
            page,
            op,
        });
        self.bytes.extend_from_slice(bytes).unwrap();
        self.spare -= 1;
        no
    }
}
