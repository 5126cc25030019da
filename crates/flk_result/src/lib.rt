//! The quantities of one channel of a recording: those of an exact run, the one result of the recording in digits, and
//! what the result promises.
//!
//! `Conditions` in `specs/` names what they depend on beside the samples. `RunQuantities` states the quantities of an
//! exact run in fractions, `Digits` the result in whole numbers, and `Promise` joins the two: the result's intervals
//! hold the quantities of every exact run that the recorded voltages admit. `Widths` says how wide they may be. The
//! functions are laws: they have empty bodies, and their contracts say that the result keeps its promise and its
//! widths, that it and a run's quantities are there and are one, and that the recorded voltages admit a run.
#![tactic(auto)]

mod laws;
mod result;

pub use laws::{
    filter_is_one, own_run_is_admitted, quantities_are_one, result_is_one, result_is_proper,
    result_keeps_promise, result_keeps_widths, some_numbers_cover, some_run_is_admitted,
};
pub use result::{PhaseResult, Setup};
