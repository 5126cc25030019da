//! Blocks 4 and 5 of the flickermeter of IEC 61000-4-15: squaring and smoothing, and the statistics of the levels.
//!
//! [`Smooth`] takes the points of the weighted signal and answers the interval of each level. [`Levels`] collects the
//! levels of one interval and answers the interval of its short-term severity. [`percentile`], [`pst`] and [`plt`] are
//! the statistics of plain numbers. What stands in an answer is fixed to the last digit, it holds the exact value of
//! every signal that lies in the points taken, and it is no wider than their radii allow. No call but [`Levels::new`]
//! takes memory.
//!
//! In `specs/` stand the exact smoothing (`Smoothing`) and the rounded one (`Rounded`), ranks counted from the greatest
//! (`Rank`), the two severities (`Severity`, `LongTerm`), and how wide an answer may be (`Width`). `laws` says what
//! keeps them honest.
#![tactic(auto)]

mod buckets;
mod ends;
mod laws;
mod levels;
mod list_of_ends;
mod long_term;
mod rank;
mod selection;
mod severity;
mod smooth;

pub use laws::{
    greater_levels_give_no_lesser_severity, levels_are_narrow, levels_hold_signals,
    long_term_is_no_wider, long_term_is_one, points_have_levels, rank_is_one, ranks_keep_the_order,
    severity_holds, severity_is_narrow, severity_is_one, signal_has_levels,
};
pub use levels::Levels;
pub use long_term::plt;
pub use rank::percentile;
pub use severity::pst;
pub use smooth::Smooth;
pub use std::alloc::AllocError as OutOfMemory;

#[cfg(test)]
mod tests;
