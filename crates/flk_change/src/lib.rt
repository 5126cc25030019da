//! Steady windows and voltage changes of IEC 61000-3-3, over half-periods whose values are known within intervals.
//!
//! [`Steady`] takes one half-period after the other and tells of the window that ends with each whether its voltage
//! is steady ([`Flag`]), by the extremes of the window, which it follows without a look at all of it ([`Extreme`]).
//! [`changes`] takes all half-periods with their flags, and answers dc, dmax and Tmax as intervals that hold these
//! quantities for every list of exact values within the half-periods' intervals ([`ChangeSummary`]).
//!
//! Where a window is steady for some values and not for others, its flag is Doubtful. With up to six such flags
//! `changes` judges every way to take them at once (`resolve`), by one pass for each window that may be the last
//! steady one (`pass`). It keeps the sums of the window (`level`), judges the half-periods of each change (`swings`),
//! and adds it to the intervals (`outcome`). With more than six it answers wide intervals (`wide`).
//! `docs/CHANGES_AND_DOUBT.md` has a picture.
#![tactic(auto)]

mod candidates;
mod ends;
mod extreme;
mod extremes;
mod flag;
mod laws;
mod level;
mod outcome;
mod pass;
mod resolve;
mod steady;
mod summary;
mod swings;
#[cfg(test)]
mod tests;
mod wide;

pub use extreme::Extreme;
pub use flag::Flag;
pub use laws::{
    certain_flags_hold_for_every_list, certainty_is_by_ends, close_where_spread_is_small,
    flag_is_one, flags_are_one_list, hull_is_one, lower_ends_are_values, quantity_is_one,
    quantity_of_resolution_is_one, spread_is_one, summary_is_one,
};
pub use std::alloc::AllocError as OutOfMemory;
pub use steady::Steady;
pub use summary::{ChangeSummary, changes};
