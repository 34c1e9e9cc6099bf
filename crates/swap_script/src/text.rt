//! A text as its lines, and a line as its words.
ghost use Rattle.std.specs.Prelude.{◌≡◌, ℕ, ◌+◌, ◌<◌, ◌≤◌, List, [], ◌∷◌, length, MatchOption};
ghost use Rattle.std.specs.Option.{option_copied, option_map};
ghost use Rattle.swap_script.specs.Forms.{no_word, one_word, two_words, three_words, seven_words};
ghost use Rattle.swap_script.specs.Lines.{lines_of, words_of, kept_from, is_skipped};
ghost use Rattle.swap_script.specs.Cut.{IsCut, rest_of};

use super::TEXT_LIMIT;
use std::marker::Model;

/// A text up to the first byte of a kind, and what stands behind that byte, where it is there.
#[derive(Clone, Copy)]
struct Cut<'t> {
    front: &'t [u8],
    rest: Option<&'t [u8]>,
}

impl<'t> Cut<'t> {
    fn behind(self) -> &'t [u8]
        ensures { result.now ≡ rest_of (option_copied self.entry.rest) }
    {
        match self.rest {
            None => &[],
            Some(rest) => rest,
        }
    }
}

fn cut_at<'t>(text: &'t [u8], byte: u8) -> Cut<'t>
    ensures { IsCut byte text.now result.front.now (option_copied result.rest) }
{
    match text.iter().position(|b| *b == byte) {
        None => Cut {
            front: text,
            rest: None,
        },
        Some(at) => Cut {
            front: &text[..at],
            rest: Some(&text[at + 1..]),
        },
    }
}

/// The words that a line has left.
#[derive(Drop)]
pub struct Words<'t> {
    rest: Option<&'t [u8]>,
}

impl<'t> Model for Words<'t> {
    ghost use Rattle.std.specs.Prelude.{ℕ, List};
    ghost use Rattle.std.specs.Option.{option_copied};
    ghost use Rattle.swap_script.specs.Cut.{words_left};

    ghost Value = { List (List ℕ) };

    ghost view = { λ w. words_left (option_copied w.rest) };
}

impl<'t> Words<'t> {
    pub fn of(line: &'t [u8]) -> Words<'t>
        ensures { result ≡ words_of line.now }
    {
        Words { rest: Some(line) }
    }

    pub fn next(&mut self) -> Option<&'t [u8]>
        ensures { MatchOption result ((self.old ≡ []) × (self.new ≡ []))
            (λ word. self.old ≡ word.now ∷ self.new) }
    {
        let rest = self.rest?;
        let cut = cut_at(rest, b' ');
        self.rest = cut.rest;
        Some(cut.front)
    }
}

impl<'t> Words<'t> {
    pub fn none(mut self) -> Option<()>
        ensures { option_map (λ _. tt) result ≡ no_word self.entry }
    {
        match self.next() {
            None => Some(()),
            Some(_) => None,
        }
    }

    pub fn one(mut self) -> Option<&'t [u8]>
        ensures { option_map (λ a. a.now) result ≡ one_word self.entry }
    {
        let a = self.next()?;
        self.none()?;
        Some(a)
    }

    pub fn two(mut self) -> Option<(&'t [u8], &'t [u8])>
        ensures { option_map (λ t. (t.0.now, t.1.now)) result ≡ two_words self.entry }
    {
        let a = self.next()?;
        let b = self.next()?;
        self.none()?;
        Some((a, b))
    }

    pub fn three(mut self) -> Option<(&'t [u8], &'t [u8], &'t [u8])>
        ensures { option_map (λ t. (t.0.now, t.1.now, t.2.now)) result ≡ three_words self.entry }
    {
        let a = self.next()?;
        let b = self.next()?;
        let c = self.next()?;
        self.none()?;
        Some((a, b, c))
    }
}

/// Seven words of a line.
pub type Seven<'t> = (
    &'t [u8],
    &'t [u8],
    &'t [u8],
    &'t [u8],
    &'t [u8],
    &'t [u8],
    &'t [u8],
);

impl<'t> Words<'t> {
    pub fn seven(mut self) -> Option<Seven<'t>>
        ensures { option_map
            (λ t. (t.0.now, t.1.now, t.2.now, t.3.now, t.4.now, t.5.now, t.6.now)) result
            ≡ seven_words self.entry }
    {
        let a = self.next()?;
        let b = self.next()?;
        let c = self.next()?;
        let d = self.next()?;
        let e = self.next()?;
        let f = self.next()?;
        let g = self.next()?;
        self.none()?;
        Some((a, b, c, d, e, f, g))
    }
}

/// A line that counts, with its number.
#[derive(Clone, Copy)]
pub struct Kept<'t> {
    pub line: u32,
    pub text: &'t [u8],
}

/// A place in a text: the lines that are left, and the number of the first of them.
#[derive(Drop)]
pub struct Place<'t> {
    rest: &'t [u8],
    line: u32,
}

impl<'t> Model for Place<'t> {
    ghost use Rattle.std.specs.Prelude.{ℕ, List, ◌+◌, ◌≤◌, length};
    ghost use Rattle.swap_script.specs.Lines.{kept_from};

    ghost Value = { List (ℕ × List ℕ) };

    ghost view = { λ p. kept_from p.line p.rest.now };

    ghost invariant = { λ p. p.line + length p.rest.now ≤ 67_108_865 };
}

fn is_skipped(line: &[u8]) -> bool
    ensures { result ≡ is_skipped line.now }
{
    matches!(line, [] | [b'#', ..])
}

impl<'t> Place<'t> {
    /// The start of a text.
    pub fn of(text: &'t [u8]) -> Place<'t>
        requires { length text.now ≤ TEXT_LIMIT }
        ensures { result ≡ kept_from 1 text.now }
    {
        Place {
            rest: text,
            line: 1,
        }
    }

    /// The same place once more.
    pub fn again(&self) -> Place<'t>
        ensures { result ≡ self.now }
    {
        Place {
            rest: self.rest,
            line: self.line,
        }
    }

    /// The next line that counts.
    pub fn next(&mut self) -> Option<Kept<'t>>
        ensures { MatchOption result ((self.old ≡ []) × (self.new ≡ []))
            (λ kept. self.old ≡ (kept.line, kept.text.now) ∷ self.new) }
    {
        'looking: while !self.rest.is_empty() {
            let cut = cut_at(self.rest, b'\n');
            let line = self.line;
            self.rest = cut.behind();
            self.line += 1;
            if !is_skipped(cut.front) {
                return Some(Kept {
                    line,
                    text: cut.front,
                });
            }
        }
        None
    }
}

/// How many lines a text has.
pub fn line_count(text: &[u8]) -> u32
    requires { length text.now ≤ TEXT_LIMIT }
    ensures count { result ≡ length (lines_of text.now) }
    ensures within { result ≤ TEXT_LIMIT }
{
    let mut rest = text;
    let mut count = 0;
    'counting: while !rest.is_empty() {
        rest = cut_at(rest, b'\n').behind();
        count += 1;
    }
    count
}
