//! The percentiles of levels in any order.

ghost use Rattle.std.specs.Prelude.{◌≡◌, ◌+◌, ◌*◌, ◌^◌, ◌<◌, ◌≤◌, length, map, pos, ◌≤ℤ◌};
ghost use Rattle.std.specs.List.{All};
ghost use Rattle.std.specs.List.Sorted.{IsPermutation, IsSorted};
ghost use Rattle.std.specs.Ordering.{int_cmp};
ghost use Rattle.flk_stat.specs.Severity.{IsLevelEnd};
ghost use Rattle.flk_stat.specs.Ranked.{IsWideEnd, IsShare, IsRankIn, DoRise, together, IsSelected, IsRankedSum, IsSumOfPercentiles};

use crate::buckets::thinned;
use crate::severity::{RankedShare, rising_sum, weighed};

// Selects the level of a rank among levels in any order: it, times its weight, and the levels that it stands before in
// rising order.
fn selected(levels: &mut [u64], wanted: RankedShare) -> (i128, &mut [u64])
    requires share { IsShare wanted.share }
    requires rank { IsRankIn levels.old wanted }
    ensures selected { IsSelected wanted levels.old result.0 result.1.now }
    ensures low { pos 0 ≤ℤ result.0 }
    ensures high { result.0 ≤ℤ pos (2 ^ 104) }
{
    let place = levels.len() - wanted.rank;
    let (_, level, above) = levels.select_nth_unstable(place);
    (weighed(i128::from(*level), wanted.share), above)
}

// The sum of the levels of some ranks, each times its weight. The level of the last rank, which most levels are above,
// is selected first, each other one among the levels above the last.
fn selected_sum(levels: &mut [u64], wanted: &[RankedShare]) -> i128
    requires shares { All (λ q. IsShare q.share) wanted.now }
    requires ranks { All (IsRankIn levels.old) wanted.now }
    requires rise { DoRise wanted.now }
    requires few { length wanted.now ≤ 15 }
    ensures sum { IsRankedSum wanted.now (map pos levels.old) result }
    ensures low { pos 0 ≤ℤ result }
    ensures high { result ≤ℤ pos (length wanted.now * 2 ^ 104) }
{
    let Some((last, others)) = wanted.split_last() else {
        return 0;
    };
    let (part, above) = selected(levels, *last);
    selected_sum(above, others) + part
}

// Puts levels in rising order: those that fit 64 bits, and behind them the others.
fn sort(narrow: &mut [u64], wide: &mut [i128])
    requires wide { All IsWideEnd wide.old }
    ensures rises { IsSorted int_cmp (together narrow.new wide.new) }
    ensures same { IsPermutation (together narrow.old wide.old) (together narrow.new wide.new) }
    ensures counts { (length narrow.new ≡ length narrow.old) × (length wide.new ≡ length wide.old) }
    ensures levels { All IsLevelEnd wide.new }
{
    narrow.sort_unstable();
    wide.sort_unstable();
}

/// The sum of the percentiles of levels in any order, each times its weight: of those that fit 64 bits, and of the
/// others. Nothing is told of what is left of the levels.
pub(crate) fn percentile_sum(narrow: &mut [u64], wide: &mut [i128]) -> i128
    requires some { 0 < length narrow.old + length wide.old }
    requires wide { All IsWideEnd wide.old }
    ensures sum { IsSumOfPercentiles (together narrow.old wide.old) result }
    ensures low { pos 0 ≤ℤ result }
    ensures high { result ≤ℤ pos (2 ^ 108) }
{
    if wide.is_empty() && 1000 <= narrow.len() && narrow.len() <= u32::MAX as usize {
        let (wanted, few) = thinned(narrow);
        return selected_sum(few, &wanted);
    }
    sort(narrow, wide);
    rising_sum(narrow, wide)
}
