//! The input voltage adaptor and the squaring multiplier of the flickermeter of IEC 61000-4-15, its blocks 1 and 2:
//! each square of a voltage is divided by the running mean of the squares before it.
//!
//! The equations are this project's own. [`Front`] takes intervals of voltages and answers points: whole numbers with
//! a radius. What stands in a point is fixed to the last digit; it holds the exact output of every run of voltages in
//! the intervals, and its radius keeps a stated bound. No call takes memory.
#![tactic(auto)]

mod ends;
mod front;
mod laws;
mod point;

pub use front::Front;
pub use laws::{
    adapted_run_is_one, points_are_narrow, points_hold_outputs, rounded_run_has_one_list_of_points,
};
pub use point::Point;

#[cfg(test)]
mod tests;
