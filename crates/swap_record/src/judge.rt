ghost use Rattle.std.specs.Prelude.{◌≡◌, ℕ, ◌⊎◌, false, ◌<◌, ◌≤◌, ◌==◌, ◌&&◌, ◌↔◌, ◌∷◌, suc, get_or, length, replicate, if◌then◌else◌, IfOk, IfSome, IfNone, OnOk, IsTrue, option_map, unwrap_or, Some, None};
ghost use Rattle.swap_record.specs.History.{Row, row_named, is_page_out};
ghost use Rattle.swap_record.specs.Judging.{oldest, IsLegalBook, IsRight, HasNewest, Judges};

use super::{Entry, Op, Record, Verdict};
use std::alloc::Global;
use swap_base::{EntryNo, NoMemory, Origin, Page};

/// The longest page.
const MOST_PAGE_BYTES: usize = 4096;

impl Record {
    /// The first entry that is marked or that makes the history not legal, if one is. It goes over
    /// the entries once.
    pub fn check(&self, alloc: Global) -> Result<Verdict, NoMemory>
        ensures { IfOk result (Judges self.now) }
    {
        let size = self.page_bytes();
        let zeros = [0; MOST_PAGE_BYTES];
        self.judge(alloc, &zeros[..size])
    }

    fn judge(&self, alloc: Global, zeros: &[u8]) -> Result<Verdict, NoMemory>
        requires { zeros.now ≡ replicate self.now.page_bytes 0 }
        ensures { IfOk result (Judges self.now) }
    {
        self.holds();
        let mut newest = Vec::new(alloc);
        for n in 0..self.len() {
            let no = EntryNo(n);
            if !self.is_right(no, &newest, zeros) {
                return Ok(Verdict::NotLegal { at: no });
            }
            let entry = self.entry(no);
            put_newest(&mut newest, entry, no)?;
        }
        Ok(Verdict::Legal)
    }

    /// Whether an entry is right, where those before it are.
    fn is_right(&self, no: EntryNo, newest: &[Option<EntryNo>], zeros: &[u8]) -> bool
        requires within { no.0 < length self.now.history }
        requires newest { HasNewest newest.now (oldest no.0 self.now.history) }
        requires zeros { zeros.now ≡ replicate self.now.page_bytes 0 }
        requires legal { IsLegalBook self.now (oldest no.0 self.now.history) }
        ensures right { IsTrue result
            → (self.now.noted ≡ Some no.0 → ⊥)
            × IsLegalBook self.now (oldest (suc no.0) self.now.history) }
        ensures wrong { (result ≡ false)
            → (self.now.noted ≡ Some no.0)
            ⊎ (IsLegalBook self.now (oldest (suc no.0) self.now.history) → ⊥) }
    {
        if self.noted() == Some(no.0) {
            return false;
        }
        self.holds();
        let entry = self.entry(no);
        let last = newest_of(newest, entry.page);
        fits(entry.op, last, self.bytes(no), self.content(last, zeros))
    }

    /// The bytes of an entry, or zeros where there is none.
    fn content<'a>(&'a self, no: Option<EntryNo>, zeros: &'a [u8]) -> &'a [u8]
        requires { IfSome no (λ n. n.0 < length self.now.history) }
        ensures none { IfNone no (result.now ≡ zeros.now) }
        ensures some { IfSome no
            (λ n. option_map (λ (row : Row). row.bytes) (row_named self.now.history n.0)
            ≡ Some result.now) }
    {
        match no {
            None => zeros,
            Some(no) => self.bytes(no),
        }
    }
}

/// The last page-out of a page, as a table has it.
fn newest_of(newest: &[Option<EntryNo>], page: Page) -> Option<EntryNo>
    ensures { result ≡ get_or newest.now page.0 None }
{
    newest.get(page.0 as usize).copied().flatten()
}

/// Enters an entry into the table, if it is a page-out.
fn put_newest(newest: &mut Vec<Option<EntryNo>>, entry: Entry, no: EntryNo) -> Result<(), NoMemory>
    ensures { OnOk result
        ((p : ℕ)
        → get_or newest.new.items p None
        ≡ (if is_page_out entry.op && entry.page.0 == p then Some no
        else get_or newest.old.items p None)) }
{
    if !is_page_out(entry.op) {
        return Ok(());
    }
    let place = entry.page.0 as usize;
    'growing: while newest.len() <= place {
        if newest.push(None).is_err() {
            return Err(NoMemory);
        }
    }
    newest[place] = Some(no);
    Ok(())
}

fn is_page_out(op: Op) -> bool
    ensures { result ≡ is_page_out op }
{
    matches!(op, Op::PageOut)
}

/// Whether an entry is right where its page's last page-out is `newest` and its content is
/// `content`.
fn fits(op: Op, newest: Option<EntryNo>, bytes: &[u8], content: &[u8]) -> bool
    ensures { IsTrue result ↔ IsRight op newest bytes.now content.now }
{
    match op {
        Op::PageOut => true,
        Op::PageIn { named, origin } => {
            named == newest && (origin == Origin::Zero) == named.is_none() && bytes == content
        }
        Op::Failed { kind: _, since, at } => since < at,
    }
}
