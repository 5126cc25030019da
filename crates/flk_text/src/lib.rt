//! Lines, fields and numbers of COMTRADE text (IEC 60255-24, IEEE C37.111).
//!
//! A configuration file and an ASCII data file are lines of fields. [`Lines`] takes the lines of a file from the front,
//! [`field`] and [`field_count`] cut a line, [`decimal`] and [`whole`] read a number, and [`push_decimal`] writes one.
//! A number that the program prints is a [`Billionths`], and an interval of them [`Ends`]. For a file that comes in
//! pieces there are [`position_of`], [`last_line_end`], [`without_cr`] and [`tail_marks`]. What a text may be, and
//! which value it has, is defined in `specs/` as a relation between text and value; each reader answers the value, or
//! says exactly why there is none. The functions with empty bodies carry the laws of these definitions as their
//! contracts. Reading takes no memory.
#![tactic(auto)]

mod billionths;
mod decimals;
mod digits;
mod field_list;
mod fields;
mod laws;
mod lines;
mod numeral;
mod plain_text;
mod scan;
mod tail;
mod whole_numbers;

pub use billionths::{Billionths, Ends};
pub use decimals::{DecimalValue, NumFault, decimal};
pub use field_list::Fields;
pub use fields::{field, field_count};
pub use laws::{
    decimal_has_one_answer, decimals_are_fields, last_line_and_tail_are_the_bytes,
    lines_are_the_bytes, plain_text_has_its_value, range_is_exact, values_are_in_the_set,
    whole_has_one_answer, written_lines_are_read_back,
};
pub use lines::{Lines, without_cr};
pub use numeral::{is_digit, number_up_to};
pub use plain_text::{push_decimal, push_whole};
pub use scan::{last_line_end, position_of};
pub use tail::{is_tail, tail_marks};
pub use whole_numbers::whole;

#[cfg(test)]
mod tests;
