//! Percentiles of levels in rising order.

ghost use Rattle.std.specs.Prelude.{◌≡◌, ◌+◌, ◌<◌, ◌≤◌, length, int_lt};
ghost use Rattle.std.specs.List.Sorted.{IsSorted};
ghost use Rattle.std.specs.Ordering.{int_cmp};
ghost use Rattle.flk_stat.specs.Rank.{HasRank, rank_of};
ghost use Rattle.flk_stat.specs.Ranked.{ranked_at, together};

/// The rank of the percentile of k tenths of a percent among n levels.
pub(crate) fn rank(k: u16, n: usize) -> usize
    requires low { 1 ≤ k }
    requires high { k ≤ 1000 }
    requires some { 0 < n }
    ensures value { result ≡ rank_of k n }
    ensures low { 0 < result }
    ensures high { result ≤ n }
{
    // the product may need 74 bits
    (u128::from(k) * n as u128).div_ceil(1000) as usize
}

/// The level where the percentile of k tenths of a percent of n levels stands among the greatest of them. Those are
/// given in rising order: first the ones that fit 64 bits, then the others.
pub(crate) fn ranked(narrow: &[u64], wide: &[i128], n: usize, k: u16) -> i128
    requires some { 0 < n }
    requires low { 1 ≤ k }
    requires high { k ≤ 1000 }
    requires within { rank_of k n ≤ length narrow.now + length wide.now }
    ensures { result ≡ ranked_at (together narrow.now wide.now) n k }
{
    let rank = rank(k, n);
    if rank <= wide.len() {
        return wide[wide.len() - rank];
    }
    i128::from(narrow[narrow.len() - (rank - wide.len())])
}

/// The percentile of k tenths of a percent: the level that is exceeded during that share of the time, by IEC
/// 61000-4-15. It is the one of rank `k * n / 1000`, rounded up, from the greatest, where n is the number of levels.
/// They are in any unit and in rising order, at least one; k is from 1 to 1000.
pub fn percentile(rising: &[i128], k: u16) -> i128
    requires some { 0 < length rising.now }
    requires rises { IsSorted int_cmp rising.now }
    requires low { 1 ≤ k }
    requires high { k ≤ 1000 }
    ensures { HasRank int_lt (rank_of k (length rising.now)) rising.now result }
{
    ranked(&[], rising, rising.len(), k)
}
