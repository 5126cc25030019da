//! The ground on which every theorem stands: definitions, and the laws that keep them honest.
//!
//! The definitions stand in `specs/`: rounding, fractions, the runs that a recording admits, the cut into half-periods,
//! the value of a half-period, the least and the greatest. Each function here has an empty body, and its contract is a
//! law of these definitions. Nothing here runs.
#![tactic(auto)]

mod cut;
mod extreme;
mod fraction;
mod half_period;
mod rounding;
mod run;

pub use cut::{cuts_are_one_list, half_period_has_few_samples};
pub use extreme::{greatest_is_one, least_is_one};
pub use fraction::fractions_are_ordered;
pub use half_period::{half_period_has_one_value, run_has_one_list_of_values};
pub use rounding::{
    ceil_is_a_bracket, cube_root_up_is_one, floor_is_a_bracket, root_is_one, root_up_is_one,
};
pub use run::recorded_voltages_are_an_admitted_run;
