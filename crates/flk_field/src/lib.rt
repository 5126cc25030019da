//! One line of a configuration file of IEEE C37.111-1999, clause 5.3 (COMTRADE): its fields, each against its set.
//!
//! [`Columns`] are the fields of a line, cut once. Each of its methods judges the field at a place against a set of the
//! standard's table, and answers the field's value, or the fault: the line's number, the place, and the [`Kind`] that
//! the set gives. `specs/` says what is judged: `Values` and `Dates` say which field writes which value, `Sets` has the
//! sets, the kind of a field that isn't in its set, and a line against a row of sets, and `Columns` says the same of
//! [`Columns`].
//!
//! A line belongs here if it is about one field, or about a line as a list of fields; which lines a file has, and in
//! which order, is for the crate above.
#![tactic(auto)]

mod columns;
mod date;
mod fields;
mod form;
mod judges;
mod kind;

pub use columns::{ANALOG_FIELDS, Columns};
pub use date::{Day, TimeNumbers, is_date, is_of_a_day};
pub use fields::LONGEST_TEXT;
pub use form::Form;
pub use kind::{Fault, Kind};
