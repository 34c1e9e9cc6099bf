ghost use Rattle.std.specs.Prelude.{◌≡◌, ◌<◌, ◌≤◌, ◌*◌, ◌-◌, ◌^◌, length, map, IfOk, None};
ghost use Rattle.swap_activity.specs.Rates.{end_period};
ghost use Rattle.swap_rates.specs.Table.{all_still, value_of, hit, periods_ended, better, best_from, hottest};

use std::alloc::Global;
use std::marker::Model;
use swap_activity::{ONE, Rate};
use swap_base::{NoMemory, Slab};
use swap_slabs::{SlabState, Slabs};

/// The rate of each slab, seen as their list. All memory is taken at `make`.
#[derive(Drop)]
pub struct Rates {
    rates: Vec<Rate>,
}

impl Model for Rates {
    ghost use Rattle.std.specs.Prelude.{◌<◌, ◌^◌, List, length};
    ghost use Rattle.swap_activity.specs.Rates.{Activity};

    ghost Value = { List Activity };

    ghost view = { λ r. r.rates.items };

    ghost invariant = { λ r. length r.rates.items < 2 ^ 32 };
}

/// A slab that may be placed, with the value of its rate.
#[derive(Clone, Copy)]
struct Candidate {
    slab: Slab,
    value: u64,
}

/// The better of the best so far and a slab, where that is local and hot.
fn better(
    hot: u32,
    best: Option<Candidate>,
    slab: Slab,
    state: SlabState,
    value: u64,
) -> Option<Candidate>
    ensures { result ≡ better hot best slab.0 state value }
{
    let is_candidate = matches!(state, SlabState::Local) && u64::from(hot) * ONE <= value;
    let is_above = match best {
        Some(before) => before.value < value,
        None => true,
    };
    if is_candidate && is_above {
        Some(Candidate { slab, value })
    } else {
        best
    }
}

fn end_each(rates: &mut [Rate])
    ensures { rates.new ≡ map end_period rates.old }
{
    for rate in rates.iter_mut() {
        rate.period();
    }
}

/// The best of the slabs.
fn best_of(hot: u32, rates: &[Rate], slabs: &Slabs) -> Option<Candidate>
    requires few { length rates.now < 2 ^ 32 }
    requires same { length slabs.now ≡ length rates.now }
    ensures { result ≡ best_from hot rates.now slabs.now 0 None }
{
    let mut best = None;
    for number in 0..rates.len() as u32 {
        let slab = Slab(number);
        let value = rates[number as usize].value();
        best = better(hot, best, slab, slabs.state(slab), value);
    }
    best
}

impl Rates {
    /// No slab of these many was hit. No other call of `Rates` takes memory.
    pub fn make(alloc: Global, slabs: u32) -> Result<Rates, NoMemory>
        ensures { IfOk result (λ rates. rates ≡ all_still slabs) }
    {
        match vec![in alloc; Rate::new(); slabs as usize] {
            Ok(rates) => Ok(Rates { rates }),
            Err(_) => Err(NoMemory),
        }
    }

    /// A slab is hit.
    pub fn hit(&mut self, slab: Slab)
        requires { slab.0 < length self.old }
        ensures { self.new ≡ hit self.old slab }
    {
        let rate = &mut self.rates[slab.0 as usize];
        rate.hit();
    }

    /// Each slab's period ends.
    pub fn end_periods(&mut self)
        ensures { self.new ≡ periods_ended self.old }
    {
        end_each(&mut self.rates);
    }

    /// The value of a slab's rate, `ONE` for each hit in a period.
    pub fn value(&self, slab: Slab) -> u64
        requires { slab.0 < length self.now }
        ensures value { result ≡ value_of self.now slab }
        ensures within { result ≤ ONE * (2 ^ 32 - 1) }
    {
        self.rates[slab.0 as usize].value()
    }

    /// Of the local slabs with at least `hot` hits in each period the one of greatest value, the
    /// lowest number on a tie.
    pub fn hottest(&self, hot: u32, slabs: &Slabs) -> Option<Slab>
        requires { length slabs.now ≡ length self.now }
        ensures { result ≡ hottest hot slabs.now self.now }
    {
        let best = best_of(hot, &self.rates, slabs)?;
        Some(best.slab)
    }
}
