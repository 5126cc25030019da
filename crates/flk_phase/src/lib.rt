//! One channel of a recording, from its samples to its result: its half-periods, its voltage changes and its
//! severities.
//!
//! A [`Phase`] takes the samples of one channel block by block, up to the first one over range, and answers the
//! [`PhaseResult`] of them all. [`work`] gives one block to all phases, in threads, and [`work_beside`] does so beside
//! another call. None of these takes memory: room for samples is made before, by [`Phase::reserve`].
//!
//! A phase has three parts. `halves` cuts the samples into half-periods and tells which windows are steady (IEC
//! 61000-3-3), `meter` is the flickermeter of IEC 61000-4-15 up to its block 4, and `severities` judges its levels
//! interval by interval. What the state of a phase stands for is in `specs/Phase`, in the order of time, and what it
//! becomes by samples in `specs/Taking`; what its parts stand for is in `specs/Halves`, `specs/Meter` (newest first)
//! and `specs/Severities`. What a result is and what it promises stands in `flk_result`.
#![tactic(auto)]

#[cfg(test)]
mod calibration;
mod halves;
mod laws;
mod meter;
mod phase;
mod severities;
#[cfg(test)]
mod tests;
mod workers;

pub use flk_change::OutOfMemory;
pub use flk_result::{PhaseResult, Setup};
pub use laws::phase_with_none_over_range_took_all;
pub use phase::Phase;
pub use workers::{Gate, work, work_beside};
