//! A line of numbers in the order in which they entered. To enter, to leave from any place and to
//! ask who is first or next takes the same time however long the line is.
#![tactic(auto)]

ghost use Rattle.std.specs.Prelude.{◌≡◌, ℕ, ◌+◌, ◌<◌, ◌≤◌, ◌∷◌, ◌++◌, [], true, false, length, slice_get, vec_len, IfOk, IfSome};
ghost use Rattle.swap_places.specs.Line.{empty_line, stands, without_number, number_behind, IsLine, EntersOne, LeavesOne, KeepsOnce};
ghost use Rattle.swap_places.specs.Links.{IsOwn};

use std::alloc::Global;
use std::marker::Model;
use swap_base::NoMemory;

/// A line of numbers below a bound, each at most once. All memory is taken at `make`.
#[derive(Drop)]
pub struct Line {
    after: Vec<u32>,
    before: Vec<u32>,
    bound: u32,
    count: u32,
}

impl Model for Line {
    ghost use Rattle.swap_places.specs.Line.{Line as Numbers};
    ghost use Rattle.swap_places.specs.Links.{numbers_in, IsLinked};

    ghost Value = { Numbers };

    ghost view = { λ l.
        record { bound = l.bound; numbers = numbers_in l.after.items l.bound l.count } };

    ghost invariant = { λ l. IsLinked l.after.items l.before.items l.bound l.count };
}

/// For each number up to `bound` the number itself.
fn make_links(alloc: Global, bound: u32) -> Result<Vec<u32>, NoMemory>
    ensures len { IfOk result (λ links. vec_len links ≡ bound + 1) }
    ensures own { IfOk result (λ links. IsOwn links.items (bound + 1)) }
{
    let Ok(mut links) = Vec::with_capacity(alloc, bound as usize + 1) else {
        return Err(NoMemory);
    };
    for number in 0..bound {
        links.push_reserved(number);
    }
    links.push_reserved(bound);
    Ok(links)
}

impl Line {
    /// An empty line for the numbers below `bound`.
    pub fn make(alloc: Global, bound: u32) -> Result<Line, NoMemory>
        ensures { IfOk result (λ line. line ≡ empty_line bound) }
    {
        let after = make_links(alloc, bound)?;
        let before = make_links(alloc, bound)?;
        Ok(Line {
            after,
            before,
            bound,
            count: 0,
        })
    }

    /// What every line is.
    pub fn keeps(&self)
        ensures line { IsLine self.now }
        ensures within { length self.now.numbers ≤ self.now.bound }
    {
        let _ = &self.after;
    }

    /// How many numbers stand in the line.
    pub fn len(&self) -> u32
        ensures { result ≡ length self.now.numbers }
    {
        self.count
    }

    /// Whether a number stands in the line.
    pub fn has(&self, number: u32) -> bool
        requires { number < self.now.bound }
        ensures { result ≡ stands self.now.numbers number }
    {
        self.after[number as usize] != number
    }

    /// The number that entered first.
    pub fn first(&self) -> Option<u32>
        ensures number { result ≡ slice_get self.now.numbers 0 }
        ensures stands { IfSome result (λ (first : ℕ). stands self.now.numbers first ≡ true) }
    {
        if self.count == 0 {
            None
        } else {
            Some(self.after[self.bound as usize])
        }
    }

    /// The number that entered next after this one, of those that stand in the line.
    pub fn next(&self, number: u32) -> Option<u32>
        requires { stands self.now.numbers number ≡ true }
        ensures number { result ≡ number_behind number self.now.numbers }
        ensures stands { IfSome result (λ (next : ℕ). stands self.now.numbers next ≡ true) }
    {
        let next = self.after[number as usize];
        if next == self.bound { None } else { Some(next) }
    }

    /// A number enters at the back.
    pub fn enter(&mut self, number: u32)
        requires below { number < self.old.bound }
        requires out { stands self.old.numbers number ≡ false }
        ensures numbers { self.new.numbers ≡ self.old.numbers ++ number ∷ [] }
        ensures bound { self.new.bound ≡ self.old.bound }
    {
        let end = self.bound;
        let last = self.before[end as usize];
        self.after[last as usize] = number;
        self.after[number as usize] = end;
        self.before[number as usize] = last;
        self.before[end as usize] = number;
        self.count += 1;
    }

    /// A number leaves, wherever it stands.
    pub fn leave(&mut self, number: u32)
        requires { stands self.old.numbers number ≡ true }
        ensures numbers { self.new.numbers ≡ without_number number self.old.numbers }
        ensures bound { self.new.bound ≡ self.old.bound }
    {
        let after = self.after[number as usize];
        let before = self.before[number as usize];
        self.after[before as usize] = after;
        self.after[number as usize] = number;
        self.before[after as usize] = before;
        self.count -= 1;
    }
}

/// Who stands in the line after each call, and that each still stands there once.
pub fn is_a_line()
    ensures enter { EntersOne }
    ensures leave { LeavesOne }
    ensures once { KeepsOnce }
{}
