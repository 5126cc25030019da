//! The least and the greatest ends of the half-periods of a window, and what they tell of it.

ghost use Rattle.std.specs.Prelude.{◌≡◌};
ghost use Rattle.flk_change.specs.Extremes.{IsFlagOfExtremes, AreSmall};

use crate::flag::Flag;

/// How far two values of a steady window may be apart, in billionths of nominal.
const STEADY_LIMIT: i128 = 4_000_000;

/// The least and the greatest of the lower ends, and of the upper ones.
#[derive(Clone, Copy, Debug)]
pub(crate) struct Extremes {
    pub(crate) least_low: i128,
    pub(crate) greatest_low: i128,
    pub(crate) least_high: i128,
    pub(crate) greatest_high: i128,
}

/// The flag of a whole window with these extremes, which are at most 10^10 in size.
pub(crate) fn flag_of(extremes: Extremes) -> Flag
    requires { AreSmall extremes }
    ensures { IsFlagOfExtremes extremes result }
{
    if extremes.greatest_high - extremes.least_low <= STEADY_LIMIT {
        return Flag::Sure;
    }
    if extremes.greatest_low - extremes.least_high > STEADY_LIMIT {
        return Flag::Not;
    }
    Flag::Doubtful
}
