//! The generated workload: a recording of three voltages at 50 Hz, for trials and for measuring speed.
//!
//! Three sines of 230 V (`wave`) are each lowered by at most 0.9 percent. By how much is drawn anew twice a second
//! (`draws`), so that a flickermeter has something to measure. The same seed gives the same samples (`workload`). They
//! are the records of an ASCII data file (`recording`), whose configuration depends on the seconds alone
//! (`configuration`).
#![tactic(auto)]

mod configuration;
mod draws;
mod recording;
mod wave;
mod workload;

pub use configuration::generated_configuration;
pub use recording::Recording;
pub use workload::Workload;

#[cfg(test)]
mod tests;
