//! Configuration files of IEEE C37.111-1999 (COMTRADE).
//!
//! [`read_cfg`] reads a whole file: it answers the configuration that the bytes write, or their first fault. What a
//! configuration is stands in `specs/`: `Table` has the row of each line, `Rows` the rows with their values, `Places`
//! the lines by their place, and `File` the file and its first fault. [`write_cfg`] writes a configuration's canonical
//! text: `Valid` says which configurations have one, and `Canonical` which text it is. The functions of [`laws`] and
//! [`canonical_laws`] have empty bodies: their contracts are laws of these definitions.
//!
//! Each line is cut into its fields once, and each field is read once, by the [`flk_field::Columns`] of the line.
#![tactic(auto)]

mod analog;
mod canonical_laws;
mod config;
mod counts;
mod digital;
mod file;
mod kind;
mod last;
mod laws;
mod push;
mod reader;
mod settings;
mod title;
mod valid;
mod write;

pub use canonical_laws::{
    canonical_text_writes_its_configuration, values_of_a_file_are_valid, written_text_is_read_back,
};
pub use config::{Analog, Config, Digital, Stamp};
pub use file::read_cfg;
pub use flk_field::{Fault, Form, Kind};
pub use kind::CfgFault;
pub use laws::{
    bytes_are_a_configuration_or_have_a_fault, bytes_have_one_configuration,
    bytes_have_one_first_fault, bytes_of_a_configuration_have_no_fault,
};
pub use valid::valid_cfg;
pub use write::write_cfg;

#[cfg(test)]
mod tests;
#[cfg(test)]
mod write_tests;
