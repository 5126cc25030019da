//! Filter sections with rounded products, and the certificates that bound their errors.
//!
//! A section is a second-order difference equation ([`Coefs`]). Run in direct form II transposed with each product
//! rounded down, its output strays from the exact one. [`make`] makes a certificate, a list of rows of whole numbers.
//! [`check`] reads one, whoever made it, and answers a [`Gain`]: a bound on that error which holds for inputs of any
//! number.
//!
//! What a section is stands in `specs/`: `Section` exactly, and `RoundedSection` as the program runs it. `Certificate`
//! has the conditions of a certificate and `Bound` what a gain promises; `docs/CERTIFICATES.md` says why the one gives
//! the other. `Make` has the rules by which a certificate is made.
#![tactic(auto)]

mod certificate;
mod checker;
mod coefs;
mod fault;
mod gain;
mod making;
mod row;
mod section;
mod shape;

pub use certificate::{Cert, CertRow};
pub use checker::check;
pub use coefs::Coefs;
pub use fault::{Cause, CertFault};
pub use gain::Gain;
pub use making::{
    certificate_is_one, large_form_is_not_contracted, make, row_one_is_the_second_state,
};
pub use section::{
    certificate_has_one_gain, gain_bounds_both_states, gain_bounds_each_output,
    inputs_have_one_list_of_outputs,
};

#[cfg(test)]
mod make_tests;
#[cfg(test)]
mod tests;
