ghost use Rattle.std.specs.Prelude.{◌≤◌};

use std::alloc::Global;
use swap_base::NoMemory;
use swap_bits::PageBits;

// Whether a full set of `n` numbers has exactly those out of the range left once it is cleared, by
// its numbers and by its counts.
fn clears_exactly(alloc: Global, n: u32, first: u32, end: u32) -> Result<bool, NoMemory>
    requires order { first ≤ end }
    requires within { end ≤ n }
{
    let mut bits = PageBits::make(alloc, n)?;
    for i in 0..n {
        bits.set(i);
    }
    bits.clear_range(first, end);
    let mut right = bits.count_range(0, first) == first
        && bits.count_range(first, end) == 0
        && bits.count_range(0, n) == n - (end - first);
    for j in 0..n {
        right = right && bits.get(j) == (j < first || end <= j);
    }
    if first < end {
        bits.set(first);
        right = right && bits.get(first) && bits.count_range(first, end) == 1;
        bits.clear(first);
        right = right && !bits.get(first);
    }
    Ok(right)
}

#[test]
fn ranges_at_the_edges_of_words(rt: HostRuntime) {
    for n in [576, 600] {
        for first in [0, 1, 63, 64, 65, 511, 512, 513, n] {
            for end in [0, 1, 63, 64, 65, 511, 512, 513, n] {
                if first <= end && end <= n {
                    let right = clears_exactly(rt.alloc(), n, first, end).is_ok_and(|right| right);
                    assert!(rt; right, "{first} to {end} of {n}");
                }
            }
        }
    }
}
