//! Intervals of whole numbers.

ghost use Rattle.std.specs.Prelude.{◌≤ℤ◌};

/// A closed interval of whole numbers, from `lo` to `hi`: `lo` is at most `hi`. Both are in one unit, which the caller
/// knows; for voltages and levels it is 2^-48 of nominal or a billionth of nominal.
#[derive(Clone, Copy, Debug, PartialEq, Eq)]
pub struct Interval {
    pub lo: i128,
    pub hi: i128,
    pub ghost ordered: { lo ≤ℤ hi },
}
