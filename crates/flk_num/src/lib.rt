//! Whole-number arithmetic of intervals: quotients and roots rounded down and up, cube roots rounded up, and exact
//! squares.
//!
//! Every number is a whole number of some fixed unit, which the caller knows, and every call answers the stated
//! rounding exactly. No such call takes memory or refuses anything. One call alone, [`whole_near`], answers a guess, for
//! those who test it.
//!
//! Four types that the crates above share stand here too: [`List`], [`Stop`], [`Lamp`] and [`Rate`].
#![tactic(auto)]

mod guess;
mod interval;
mod lamp;
mod list;
mod quotient;
mod rate;
mod root;
mod square;
mod stop;
mod threads;

pub use guess::whole_near;
pub use interval::Interval;
pub use lamp::Lamp;
pub use list::List;
pub use quotient::{ceil_div, floor_div, quotient_out, scaled_ceil, scaled_floor};
pub use rate::Rate;
pub use root::{cube_root_ceil, root_ceil, root_floor};
pub use square::{Squares, exact_squares, square_out};
pub use stop::Stop;
pub use threads::crosses_threads;

#[cfg(test)]
mod tests;
