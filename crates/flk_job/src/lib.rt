//! The job: what is to be measured of a recording, and whether a configuration has it.
//!
//! [`read_job`] reads a job file, a TOML document: it answers the job that the document has, or its first fault.
//! `specs/` says what that is: `Table` has the keys with their types, sets and defaults, `Job` the document, the job
//! and the first fault. [`match_job`] tests a configuration against a job, and `Matching` has its tests in their order.
//! The functions of [`laws`] have empty bodies: their contracts are laws of these definitions.
#![tactic(auto)]

mod channels;
mod document;
mod job;
mod key;
mod kind;
mod laws;
mod matching;
mod values;

pub use flk_scale::MatchFault;
pub use job::{Job, read_job};
pub use key::Key;
pub use kind::{JobFault, Kind};
pub use laws::{
    bytes_are_a_job_or_have_a_fault, bytes_have_one_first_fault, bytes_of_a_job_have_no_fault,
    bytes_write_one_job, configuration_matches_or_has_one_fault, values_of_a_file_are_in_sets,
};
pub use matching::match_job;

#[cfg(test)]
mod tests;
