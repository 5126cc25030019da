//! The digital filter of the flickermeter: the coefficients of its seven sections for each reference lamp and
//! sampling rate.
//!
//! The definitions stand in `specs/`: the constants of IEC 61000-4-15 (`Lamp`), the analog filter as a chain of
//! sections (`Analog`), and the bilinear transform with the rounding of each quotient (`Design`, `Nearest`). The code
//! is a table of whole numbers for each rate, and the check computes for each of them that it is the one that the
//! definitions ask for.
#![tactic(auto)]

mod laws;
mod rate_2400;
mod rate_4800;
mod table;
#[cfg(test)]
mod tests;

pub use laws::{design_is_one, nearest_quotient_is_one};
pub use table::{design, design_at};
