//! What a phase is made for, and what it comes to.

ghost use Rattle.std.specs.Prelude.{◌≡◌, length};

use flk_change::ChangeSummary;
use flk_num::{Interval, Lamp, Rate};

/// What a phase is made for: the lamp, the sampling rate, and the intervals whose short-term severities are judged.
#[derive(Clone, Copy, Debug, PartialEq, Eq)]
pub struct Setup {
    pub lamp: Lamp,
    pub rate: Rate,
    /// The samples before the first interval. They pass through the filters and are not counted.
    pub run_in: u32,
    /// The samples of an interval, at least 1.
    pub interval: u32,
    /// The intervals that are judged, from 1 to 12.
    pub count: u8,
}

/// The quantities of one channel, each as an interval that holds that of every exact run.
#[derive(Clone, Copy, Debug, PartialEq, Eq)]
pub struct PhaseResult {
    /// The number of half-periods.
    pub halves: u32,
    /// dc and dmax in billionths of nominal, and Tmax in half-periods.
    pub changes: ChangeSummary,
    /// The short-term severity Pst of each interval, in billionths. From `count` on each is 0 to 0.
    pub pst: [Interval; 12],
    /// The intervals that were judged, from 1 to 12.
    pub count: u8,
    /// The long-term severity Plt in billionths, exactly where 12 intervals were judged.
    pub plt: Option<Interval>,
    pub ghost twelve: { length pst ≡ 12 },
}
