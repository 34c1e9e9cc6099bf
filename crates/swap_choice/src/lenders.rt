ghost use Rattle.std.specs.Prelude.{ℕ, ◌≡◌, ◌%◌, ◌/◌, ◌<◌, ◌≤◌, ◌↔◌, ◌++◌, Contains, nat_eq};
ghost use Rattle.std.specs.List.{IsDistinct};
ghost use Rattle.swap_choice.specs.Picks.{picks};
ghost use Rattle.swap_choice.specs.Asked.{first_two, two_asked, lenders_asked};

/// Which lenders are asked for their free slots.
#[derive(Clone, Copy, Debug, PartialEq, Eq)]
pub enum Asked {
    Nobody,
    One(u32),
    Two(u32, u32),
}

/// One of two lenders that were asked.
#[derive(Clone, Copy, Debug, PartialEq, Eq)]
pub enum Side {
    First,
    Second,
}

/// The place that a word picks of `n`, and the word that picks from the others.
pub fn first_pick(word: u64, n: usize) -> (usize, u64)
    requires { 0 < n }
    ensures place { result.0 ≡ word % n }
    ensures rest { result.1 ≡ word / n }
    ensures within { result.0 < n }
{
    let n = n as u64;
    ((word % n) as usize, word / n)
}

/// The first two of the word's picks from the fresh lenders and then from the others.
pub fn two_lenders(word: u64, fresh: &[u32], other: &[u32]) -> Asked
    ensures asked { result ≡ two_asked word fresh.now other.now }
    ensures members { (lender : ℕ) → Contains (lenders_asked result) lender
        → Contains (fresh.now ++ other.now) lender }
    ensures different { IsDistinct nat_eq (fresh.now ++ other.now)
        → IsDistinct nat_eq (lenders_asked result) }
{
    joined(two_of(word, fresh), two_of(word, other))
}

/// The first two of those that were picked first and those that were picked next.
fn joined(first: Asked, next: Asked) -> Asked
    ensures { result ≡ first_two (lenders_asked first ++ lenders_asked next) }
{
    match (first, next) {
        (Asked::Nobody, _) => next,
        (Asked::One(a), Asked::One(b) | Asked::Two(b, _)) => Asked::Two(a, b),
        _ => first,
    }
}

/// The first two of the word's picks from a list.
fn two_of(word: u64, list: &[u32]) -> Asked
    ensures { result ≡ first_two (picks word list.now) }
{
    if list.is_empty() {
        return Asked::Nobody;
    }
    let (i, word) = first_pick(word, list.len());
    let first = list[i];
    if list.len() == 1 {
        return Asked::One(first);
    }
    let (j, _) = first_pick(word, list.len() - 1);
    let second = if j < i { list[j] } else { list[j + 1] };
    Asked::Two(first, second)
}

/// Which of two lenders is taken, by their free slots: the second exactly where it has more.
pub fn better(first: u32, second: u32) -> Side
    ensures second { (result ≡ Side.Second) ↔ (first < second) }
    ensures first { (result ≡ Side.First) ↔ (second ≤ first) }
{
    if second > first {
        Side::Second
    } else {
        Side::First
    }
}
