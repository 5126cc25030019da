//! What is outside the program: named files to read and to add to, and a sink for the text that
//! it prints.
//!
//! Every call of the outside may fail. A `Shelf` or a `Sink` counts its failures, and answers
//! `Failed` only where that count rose, so that whoever told of a failure can be held to it. What
//! stands under a name is told as far as it is known: the forms in memory tell it all, files and
//! standard output tell nothing.
#![tactic(auto)]

mod memory_file;
mod memory_files;
mod memory_shelf;
mod memory_sink;
mod open_files;
mod outside;
mod place;
mod plan;
mod system;
mod tries;
mod whole;
mod words;

pub use memory_shelf::MemShelf;
pub use memory_sink::MemSink;
pub use outside::{Failed, Shelf, Sink};
pub use std::alloc::AllocError as OutOfMemory;
pub use system::{FileShelf, StdSink};
pub use whole::{ReadStop, append_all, read_all, write_all};
pub use words::Words;

#[cfg(test)]
mod tests;
