//! The short-term flicker severity.

ghost use Rattle.std.specs.Prelude.{◌≡◌, ◌+◌, ◌*◌, ◌^◌, ◌<◌, ◌≤◌, length, pos, ◌*ℤ◌, ◌≤ℤ◌, ◌<ℤ◌};
ghost use Rattle.std.specs.List.{All};
ghost use Rattle.std.specs.List.Sorted.{IsSorted};
ghost use Rattle.std.specs.Ordering.{int_cmp};
ghost use Rattle.flk_stat.specs.Severity.{IsCappedLeast, cap, IsLevelEnd, IsSeverityOfEnds};
ghost use Rattle.flk_stat.specs.Ranked.{IsShare, together, ranked_at, IsSumOfPercentiles, ReachesSum};

use crate::rank::ranked;
use flk_num::{root_ceil, scaled_ceil};

/// A percentile of the levels, and how much it counts.
#[derive(Clone, Copy, Debug)]
pub struct Share {
    /// During so many tenths of a percent of the time it is exceeded.
    pub tenths: u16,
    /// In parts of 30000.
    pub weight: u16,
}

/// A percentile by its rank among some levels, counted from the greatest.
#[derive(Clone, Copy)]
pub(crate) struct RankedShare {
    pub share: Share,
    pub rank: usize,
}

/// The percentiles of the standard.
pub(crate) const SHARES: [Share; 15] = [
    Share {
        tenths: 1,
        weight: 942,
    },
    Share {
        tenths: 7,
        weight: 525,
    },
    Share {
        tenths: 10,
        weight: 525,
    },
    Share {
        tenths: 15,
        weight: 525,
    },
    Share {
        tenths: 22,
        weight: 657,
    },
    Share {
        tenths: 30,
        weight: 657,
    },
    Share {
        tenths: 40,
        weight: 657,
    },
    Share {
        tenths: 60,
        weight: 1680,
    },
    Share {
        tenths: 80,
        weight: 1680,
    },
    Share {
        tenths: 100,
        weight: 1680,
    },
    Share {
        tenths: 130,
        weight: 1680,
    },
    Share {
        tenths: 170,
        weight: 1680,
    },
    Share {
        tenths: 300,
        weight: 800,
    },
    Share {
        tenths: 500,
        weight: 800,
    },
    Share {
        tenths: 800,
        weight: 800,
    },
];

// A level, times the weight of its share.
pub(crate) fn weighed(level: i128, share: Share) -> i128
    requires level { IsLevelEnd level }
    requires share { IsShare share }
    ensures value { result ≡ pos share.weight *ℤ level }
    ensures low { pos 0 ≤ℤ result }
    ensures high { result ≤ℤ pos (2 ^ 104) }
{
    i128::from(share.weight) * level
}

// A percentile of levels in rising order, times its weight. First come the levels that fit 64 bits, then the others.
fn part(narrow: &[u64], wide: &[i128], share: Share) -> i128
    requires some { 0 < length narrow.now + length wide.now }
    requires levels { All IsLevelEnd wide.now }
    requires share { IsShare share }
    ensures value { result ≡ pos share.weight
        *ℤ ranked_at (together narrow.now wide.now) (length narrow.now + length wide.now) share.tenths }
    ensures low { pos 0 ≤ℤ result }
    ensures high { result ≤ℤ pos (2 ^ 104) }
{
    let n = narrow.len() + wide.len();
    weighed(ranked(narrow, wide, n, share.tenths), share)
}

// 1000, in billionths.
const CAP: i128 = 1_000_000_000_000;

/// The root of a weighted sum of percentiles in units of 2^-48 over 30000, in billionths, rounded up, and at most the
/// cap.
pub(crate) fn capped_root(sum: i128) -> i128
    requires low { pos 0 ≤ℤ sum }
    requires high { sum ≤ℤ pos (2 ^ 108) }
    ensures { IsCappedLeast (ReachesSum sum) cap result }
{
    // `10^18 / (30000 * 2^48)` is `5^14 / (3 * 2^34)`
    root_ceil(scaled_ceil(sum, 6_103_515_625, 51_539_607_552)).min(CAP)
}

/// The sum of the percentiles of levels in rising order, each times its weight. First come the levels that fit 64 bits,
/// then the others.
pub(crate) fn rising_sum(narrow: &[u64], wide: &[i128]) -> i128
    requires some { 0 < length narrow.now + length wide.now }
    requires rises { IsSorted int_cmp (together narrow.now wide.now) }
    requires levels { All IsLevelEnd wide.now }
    ensures sum { IsSumOfPercentiles (together narrow.now wide.now) result }
    ensures low { pos 0 ≤ℤ result }
    ensures high { result ≤ℤ pos (2 ^ 108) }
{
    let mut sum: i128 = 0;
    for share in &SHARES {
        sum += part(narrow, wide, *share);
    }
    sum
}

/// The short-term severity Pst of IEC 61000-4-15, in billionths, from 0 to 10^12: the square root of the weighted sum
/// of 15 percentiles, rounded up, and at most 1000. The levels are those of one interval, in units of 2^-48, from 0 to
/// below 2^93 and in rising order, at least one.
pub fn pst(rising: &[i128]) -> i128
    requires some { 0 < length rising.now }
    requires rises { IsSorted int_cmp rising.now }
    requires levels { All IsLevelEnd rising.now }
    ensures { IsSeverityOfEnds rising.now result }
{
    capped_root(rising_sum(&[], rising))
}
