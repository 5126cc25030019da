//! Data files of IEEE C37.111-1999 (COMTRADE), in the forms ASCII and BINARY.
//!
//! A [`Reader`] takes the bytes of a data file in pieces of any lengths and puts the records that are whole into a
//! [`Block`]. It answers the first fault in the call in which the bytes taken have it, whatever follows them.
//! [`write_record`] writes a record's canonical bytes. What a data file is stands in `specs/`: `Records` has a record
//! and the form of a file, `SampleFields` and `AsciiRecords` a line and its fault, `BinaryRecords` a record of bytes
//! and its fault, and `DataFile` the file and its first fault. `Streams` and `States` say what the bytes taken so far
//! give, and `Written` has the canonical bytes. The functions of [`laws`] have empty bodies: their contracts are laws
//! of these definitions.
//!
//! Only `Block::new`, `Reader::new` and `write_record` take memory. A record that is whole in a piece is read where it
//! stands there; the first bytes of one that isn't are held until the rest has come.
#![tactic(auto)]

mod binary;
mod block;
mod channels;
mod column;
mod columns;
mod fields;
mod head;
mod held;
mod kind;
mod laws;
mod line;
mod push_binary;
mod push_line;
mod reader;
mod record;
mod rest;
mod tail;
mod write;

pub use block::Block;
pub use kind::{DatFault, Kind};
pub use laws::{
    accepted_bytes_have_no_fault, bytes_are_accepted_or_have_a_fault, bytes_have_one_first_fault,
    bytes_have_one_list_of_records, records_of_a_file_can_be_written,
    standing_bytes_have_no_sure_fault, taken_bytes_are_bounded, written_records_are_a_file,
};
pub use reader::Reader;
pub use write::write_record;

#[cfg(test)]
mod tests;
