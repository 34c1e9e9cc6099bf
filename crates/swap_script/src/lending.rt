//! The lender lines of a text.
ghost use Rattle.std.specs.Prelude.{◌≡◌, ◌<◌, ◌≤◌, ◌+◌, ◌*◌, [], ◌∷◌, ◌++◌, length, slice_get, Some, IfOk};
ghost use Rattle.std.specs.Option.{option_map};
ghost use Rattle.swap_script.specs.Lines.{words_of};
ghost use Rattle.swap_script.specs.Forms.{spec_words};
ghost use Rattle.swap_base.specs.Sizes.{first_beyond};
ghost use Rattle.swap_script.specs.Reading.{lender_line, lender_rest, lending_tests, slots_of, spec_within, IsWithinLimits, MayLend};
ghost use Rattle.swap_script.specs.Spelled.{spec_of};
ghost use Rattle.swap_base.specs.declared.TheConstants.{MOST_LENDERS, MOST_SLOTS};

use super::Why;
use super::forms::{is_word, small};
use super::text::Words;
use std::marker::Model;
use swap_base::{Geometry, LenderSpec, MOST_LENDERS, MOST_LENT_BYTES};

/// The words behind the first of a lender line, if a line is one.
pub fn lender_rest<'t>(line: &'t [u8]) -> Option<Words<'t>>
    ensures { result ≡ lender_rest (words_of line.now) }
{
    let mut words = Words::of(line);
    let first = words.next()?;
    if is_word(first, b"lender") {
        Some(words)
    } else {
        None
    }
}

/// The lender of these words, or the first of its fields that is beyond its limit.
fn spec_within(words: Words<'_>) -> Result<LenderSpec, Why>
    ensures spec { result ≡ spec_within (spec_words words.entry) }
    ensures within { IfOk result (λ spec. IsWithinLimits spec) }
{
    let Some((slots, headroom, extra)) = spec_words(words) else {
        return Err(Why::Form);
    };
    match LenderSpec::checked(slots, headroom, extra) {
        Ok(spec) => Ok(spec),
        Err(refused) => Err(Why::Field(refused.field)),
    }
}

/// The three numbers of a lender line.
fn spec_words(words: Words<'_>) -> Option<(u32, u32, u32)>
    ensures { option_map spec_of result ≡ spec_words words.entry }
{
    let (a, b, c) = words.three()?;
    let slots = small(a)?;
    let headroom = small(b)?;
    let extra = small(c)?;
    Some((slots, headroom, extra))
}

/// The lenders of a text, in the order of their lines, and how many slots they have together.
#[derive(Drop)]
pub struct Lenders {
    specs: [LenderSpec; MOST_LENDERS as usize],
    count: u32,
    slots: u64,
}

impl Model for Lenders {
    ghost use Rattle.std.specs.Prelude.{◌≡◌, ◌≤◌, ◌*◌, List, length, take};
    ghost use Rattle.swap_base.specs.declared.geometry.LenderSpec.{LenderSpec};
    ghost use Rattle.swap_base.specs.declared.TheConstants.{MOST_LENDERS, MOST_SLOTS};
    ghost use Rattle.swap_script.specs.Reading.{slots_of};

    ghost Value = { List LenderSpec };

    ghost view = { λ l. take l.count l.specs };

    ghost invariant = { λ l. (length l.specs ≡ MOST_LENDERS) × (l.count ≤ MOST_LENDERS)
        × (l.slots ≡ slots_of (take l.count l.specs)) × (l.slots ≤ MOST_SLOTS * l.count) };
}

impl Lenders {
    pub fn none() -> Lenders
        ensures { result ≡ [] }
    {
        let spec = LenderSpec {
            slots: 0,
            headroom: 0,
            extra: 0,
        };
        Lenders {
            specs: [spec; MOST_LENDERS as usize],
            count: 0,
            slots: 0,
        }
    }

    pub fn again(&self) -> Lenders
        ensures { result ≡ self.now }
    {
        Lenders {
            specs: self.specs,
            count: self.count,
            slots: self.slots,
        }
    }

    pub fn count(&self) -> u32
        ensures count { result ≡ length self.now }
        ensures within { result ≤ MOST_LENDERS }
    {
        self.count
    }

    pub fn get(&self, i: u32) -> LenderSpec
        requires { i < length self.now }
        ensures { slice_get self.now i ≡ Some result }
    {
        self.specs[i as usize]
    }

    /// How many slots these lenders have together, with one more.
    fn slots_with(&self, spec: &LenderSpec) -> u64
        requires { IsWithinLimits spec.now }
        ensures slots { result ≡ slots_of (self.now ++ spec.now ∷ []) }
        ensures within { result ≤ MOST_SLOTS * length self.now + MOST_SLOTS }
    {
        self.slots + u64::from(spec.slots)
    }

    /// These lenders and one more.
    pub fn with(mut self, spec: LenderSpec) -> Lenders
        requires count { length self < MOST_LENDERS }
        requires limits { IsWithinLimits spec }
        ensures { result ≡ self ++ spec ∷ [] }
    {
        self.slots = self.slots_with(&spec);
        self.specs[self.count as usize] = spec;
        self.count += 1;
        self
    }
}

/// The first fault of lenders with one more.
fn lending_fault(geometry: &Geometry, others: &Lenders, spec: &LenderSpec) -> Option<Why>
    requires { IsWithinLimits spec.now }
    ensures { result ≡ first_beyond (lending_tests geometry.now (others.now ++ spec.now ∷ [])) }
{
    if others.count() >= MOST_LENDERS {
        return Some(Why::Lenders);
    }
    geometry.limits();
    let slab_bytes = u64::from(geometry.pages_per_slab()) * u64::from(geometry.page_bytes());
    if others.slots_with(spec) * slab_bytes > MOST_LENT_BYTES {
        return Some(Why::Lent);
    }
    None
}

/// The lender that the words behind the first of a lender line give, behind the lenders of the
/// lines above it.
pub fn lender_line(
    geometry: &Geometry,
    others: &Lenders,
    words: Words<'_>,
) -> Result<LenderSpec, Why>
    requires { MayLend geometry.now others.now }
    ensures line { result ≡ lender_line geometry.now others.now words.entry }
    ensures may_lend { IfOk result (λ spec. MayLend geometry.now (others.now ++ spec ∷ [])) }
    ensures limits { IfOk result (λ spec. IsWithinLimits spec) }
{
    match spec_within(words) {
        Err(why) => Err(why),
        Ok(spec) => match lending_fault(geometry, others, &spec) {
            None => Ok(spec),
            Some(why) => Err(why),
        },
    }
}
