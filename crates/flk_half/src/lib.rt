//! Half-periods: where they end, and the intervals of their values.
//!
//! A [`Cutter`] takes the samples of one channel in the order of time, each by the sign of its recorded voltage and
//! the interval of its voltages. It ends half-periods by the signs alone, so that every run of exact voltages has the
//! same half-periods, and answers the interval of each half-period's value, by which IEC 61000-3-3, clause 3, judges
//! voltage changes. The interval holds the value of every run whose voltages lie within the intervals taken, and is
//! narrow where they are.
//!
//! What the state of a cutter stands for and what the interval is stand in `specs/Cutter.antt`, the list of a
//! recording's intervals in `specs/Intervals.antt`, with its laws in `laws`; cut, value and width are those of
//! `flk_exact`.
#![tactic(auto)]

mod cutter;
mod laws;
#[cfg(test)]
mod tests;

pub use cutter::Cutter;
pub use laws::{
    half_period_intervals_are_in_range, half_period_intervals_are_narrow,
    half_period_intervals_are_one_list, half_period_intervals_hold_every_run, half_periods_go_on,
};
