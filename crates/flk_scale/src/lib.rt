//! From a sample to the interval of the exact voltages that it admits, in units of 2^-48 of nominal.
//!
//! A channel of a configuration says what a sample x stands for: `a * x + b` volts or kilovolts. A [`Scale`] is made
//! for a channel and the [`Supply`] once, and answers for each sample its interval, whether it is over range, and its
//! sign, all exactly.
//!
//! What can be divided is divided once (`parts`): a sample costs products and comparisons alone (`slope`), and which
//! samples are over range or negative is found beforehand (`samples`).
//!
//! [`match_channel`] tests whether a channel of a configuration can be measured, and [`match_lamp`] which lamp's supply
//! has a line frequency; a job and the command `levels` share both and [`MatchFault`]. The functions of [`laws`] have
//! empty bodies: their contracts are laws of the definitions in `specs/`.
#![tactic(auto)]

mod fault;
mod laws;
mod matching;
mod parts;
mod samples;
mod scale;
mod slope;
mod supply;
#[cfg(test)]
mod tests;
mod unit;

pub use fault::MatchFault;
pub use laws::{
    channel_can_be_measured_or_has_one_fault, doubt_is_covered, frequency_has_one_lamp_or_none,
    interval_holds_each_admitted_voltage, interval_is_narrow, interval_is_near, interval_is_small,
    recorded_voltages_are_within_range_or_have_a_first_over, voltage_has_one_interval,
};
pub use matching::{is_frequency_of, match_channel, match_lamp};
pub use scale::{OverRange, Scale, ScaleFault};
pub use supply::Supply;
