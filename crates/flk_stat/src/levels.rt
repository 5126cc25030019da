//! The levels of one interval.

ghost use Rattle.std.specs.Prelude.{◌≡◌, ◌++◌, ◌∷◌, [], ◌+◌, ◌^◌, ◌<◌, ◌≤◌, List, length, IfOk, ℕ, ℤ, pos, ◌-ℤ◌, ◌≤ℤ◌, ◌<ℤ◌};
ghost use Rattle.std.specs.List.{All};
ghost use Rattle.std.specs.List.Sorted.{IsPermutation};
ghost use Rattle.flk_exact.specs.Fraction.{Fraction, ◌≤ℚ◌, whole, units};
ghost use Rattle.flk_exact.specs.Rounding.{IsBetween};
ghost use Rattle.flk_num.specs.declared.interval.Interval.{Interval as IntervalView};
ghost use Rattle.flk_num.specs.Interval.{HoldEach, lows as lows_of, highs as highs_of};
ghost use Rattle.flk_stat.specs.Severity.{IsSeverity, IsSeverityOfEnds, cap};
ghost use Rattle.flk_stat.specs.Width.{IsSpread, severity_width};
ghost use Rattle.flk_stat.specs.Ranked.{AreEndsOfLevels};
ghost use Rattle.flk_stat.specs.ListOfEnds.{ends_of, capacity_of};

use crate::OutOfMemory;
use crate::list_of_ends::ListOfEnds;
use flk_num::Interval;
use std::alloc::Global;

// The severities of the lower and of the upper ends of some levels, which are let go.
fn severities_of(lows: &mut ListOfEnds, highs: &mut ListOfEnds) -> Interval
    requires some { 0 < length (ends_of lows.old) }
    requires same { length (ends_of lows.old) ≡ length (ends_of highs.old) }
    requires levels { ∥ AreEndsOfLevels (ends_of lows.old) (ends_of highs.old) ∥₁ }
    ensures low { IsSeverityOfEnds (ends_of lows.old) result.lo }
    ensures high { IsSeverityOfEnds (ends_of highs.old) result.hi }
    ensures lows_empty { ends_of lows.new ≡ [] }
    ensures highs_empty { ends_of highs.new ≡ [] }
    ensures lows_capacity { capacity_of lows.new ≡ capacity_of lows.old }
    ensures highs_capacity { capacity_of highs.new ≡ capacity_of highs.old }
{
    let lo = lows.severity();
    let hi = highs.severity();
    Interval { lo, hi }
}

// Adds the ends of a level. There is room for them.
#[inline(always)]
fn add_ends(lows: &mut ListOfEnds, highs: &mut ListOfEnds, p: Interval)
    requires lows_room { length (ends_of lows.old) < capacity_of lows.old }
    requires highs_room { length (ends_of highs.old) < capacity_of highs.old }
    requires low { pos 0 ≤ℤ p.lo }
    requires high { p.hi <ℤ pos (2 ^ 93) }
    ensures lows { IsPermutation (ends_of lows.old ++ p.lo ∷ []) (ends_of lows.new) }
    ensures highs { IsPermutation (ends_of highs.old ++ p.hi ∷ []) (ends_of highs.new) }
    ensures lows_capacity { capacity_of lows.new ≡ capacity_of lows.old }
    ensures highs_capacity { capacity_of highs.new ≡ capacity_of highs.old }
{
    lows.add(p.lo);
    highs.add(p.hi);
}

/// The levels of one interval, for which room was made once.
#[derive(Drop)]
pub struct Levels {
    // How many levels an interval has.
    size: usize,
    // How many may still be added.
    room: usize,
    lows: ListOfEnds,
    highs: ListOfEnds,
    ghost some: { 0 < size },
    ghost lows_count: { length (ends_of lows) + room ≡ size },
    ghost highs_count: { length (ends_of highs) + room ≡ size },
    ghost lows_fit: { size ≤ capacity_of lows },
    ghost highs_fit: { size ≤ capacity_of highs },
    ghost levels: { ∥ AreEndsOfLevels (ends_of lows) (ends_of highs) ∥₁ },
}

impl Levels {
    ghost use Rattle.flk_stat.specs.Levels.{Added, size_of, room_of};

    /// Room for intervals of n levels, at least one. The error comes only where no memory is found.
    pub fn new(alloc: Global, n: usize) -> Result<Levels, OutOfMemory>
        requires { 1 ≤ n }
        ensures added { IfOk result (λ l. Added l n []) }
        ensures room { IfOk result (λ l. room_of l ≡ n) }
    {
        Ok(Levels {
            size: n,
            room: n,
            lows: ListOfEnds::with_room(alloc, n)?,
            highs: ListOfEnds::with_room(alloc, n)?,
        })
    }

    /// How many levels may still be added.
    pub fn room(&self) -> usize
        ensures { result ≡ room_of self.now }
    {
        self.room
    }

    /// Adds the next level, an interval from 0 to below 2^93 in units of 2^-48. There is room for it. Takes no memory.
    #[inline(always)]
    pub fn add(&mut self, p: Interval)
        requires room { 0 < room_of self.old }
        requires low { pos 0 ≤ℤ p.lo }
        requires high { p.hi <ℤ pos (2 ^ 93) }
        ensures size { size_of self.new ≡ size_of self.old }
        ensures room { room_of self.new + 1 ≡ room_of self.old }
        ensures added { (n : ℕ) (ls : List IntervalView) → Added self.old n ls → Added self.new n (ls ++ p ∷ []) }
    {
        add_ends(&mut self.lows, &mut self.highs, p);
        self.room -= 1;
    }

    /// Ends the interval, whose room is used up, and answers the interval of its short-term severity in billionths,
    /// from 0 to 10^12: the severity of the lower ends, and that of the upper ones. All room is given back. Takes no
    /// memory.
    ///
    /// The interval holds the severity of all exact levels that lie in the levels added. Where these are no wider than
    /// a bound of the radii allows, it is at most `10^9 * 796 * bound + 1000` wide.
    pub fn end(&mut self) -> Interval
        requires { room_of self.old ≡ 0 }
        ensures size { size_of self.new ≡ size_of self.old }
        ensures room { room_of self.new ≡ size_of self.old }
        ensures added { (n : ℕ) (ls : List IntervalView) → Added self.old n ls → Added self.new n [] }
        ensures severity { (n : ℕ) (ls : List IntervalView) → Added self.old n ls
            → IsSeverityOfEnds (lows_of ls) result.lo × IsSeverityOfEnds (highs_of ls) result.hi }
        ensures holds { (n : ℕ) (ls : List IntervalView) (ps : List Fraction) (w : ℤ) → Added self.old n ls
            → HoldEach ls ps → IsSeverity ps w → IsBetween result.lo result.hi w }
        ensures narrow { (n : ℕ) (ls : List IntervalView) (bound : Fraction) → Added self.old n ls
            → units (pos (2 ^ 24)) ≤ℚ bound → All (IsSpread bound) ls
            → whole (result.hi -ℤ result.lo) ≤ℚ severity_width bound }
        ensures low { pos 0 ≤ℤ result.lo }
        ensures high { result.hi ≤ℤ cap }
    {
        let severities = severities_of(&mut self.lows, &mut self.highs);
        self.room = self.size;
        severities
    }
}
