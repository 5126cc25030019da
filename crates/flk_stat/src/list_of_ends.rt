//! The lower or the upper ends of the levels of one interval.

ghost use Rattle.std.specs.Prelude.{◌≡◌, ◌++◌, ◌∷◌, [], ◌+◌, ◌<◌, ◌≤◌, List, length, IfOk, ℤ, pos, ◌≤ℤ◌, vec_capacity};
ghost use Rattle.std.specs.List.{All};
ghost use Rattle.std.specs.List.Sorted.{IsPermutation};
ghost use Rattle.flk_stat.specs.Severity.{IsLevelEnd, IsSeverityOfEnds};
ghost use Rattle.flk_stat.specs.Ranked.{IsWideEnd};

use crate::OutOfMemory;
use crate::selection::percentile_sum;
use crate::severity::capped_root;
use std::alloc::Global;

/// Ends of levels, in units of 2^-48 and from 0 to below 2^93, for which room was made once. The order in which they
/// came is not kept.
#[derive(Drop)]
pub(crate) struct ListOfEnds {
    // Those below 2^64, in 64 bits, which are put in order in half the time that 128 bits take. Levels that occur are
    // among them.
    narrow: Vec<u64>,
    // The others: each is greater than all narrow ones.
    wide: Vec<i128>,
    ghost wide_ends: { All IsWideEnd wide.items },
}

impl ListOfEnds {
    ghost use Rattle.flk_stat.specs.ListOfEnds.{ends_of, capacity_of};

    /// Room for n ends of any size. The error comes only where no memory is found.
    pub(crate) fn with_room(alloc: Global, n: usize) -> Result<ListOfEnds, OutOfMemory>
        ensures none { IfOk result (λ l. ends_of l ≡ []) }
        ensures capacity { IfOk result (λ l. capacity_of l ≡ n) }
    {
        Ok(ListOfEnds {
            narrow: Vec::with_capacity(alloc, n)?,
            wide: Vec::with_capacity(alloc, n)?,
        })
    }

    /// Adds an end, for which there is room. Takes no memory.
    #[inline(always)]
    pub(crate) fn add(&mut self, end: i128)
        requires room { length (ends_of self.old) < capacity_of self.old }
        requires end { IsLevelEnd end }
        ensures added { IsPermutation (ends_of self.old ++ end ∷ []) (ends_of self.new) }
        ensures capacity { capacity_of self.new ≡ capacity_of self.old }
    {
        match u64::try_from(end) {
            Ok(narrow) => self.narrow.push_reserved(narrow),
            Err(_) => self.wide.push_reserved(end),
        }
    }

    /// The short-term severity of levels with these ends, in billionths, from 0 to 10^12. The ends are let go, at least
    /// one. Takes no memory.
    pub(crate) fn severity(&mut self) -> i128
        requires some { 0 < length (ends_of self.old) }
        ensures severity { IsSeverityOfEnds (ends_of self.old) result }
        ensures empty { ends_of self.new ≡ [] }
        ensures capacity { capacity_of self.new ≡ capacity_of self.old }
    {
        let severity = capped_root(percentile_sum(&mut self.narrow, &mut self.wide));
        self.narrow.clear();
        self.wide.clear();
        severity
    }
}
