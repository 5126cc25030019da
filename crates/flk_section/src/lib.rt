//! The weighting filter of the flickermeter of IEC 61000-4-15, its block 3: seven filter sections in a row, run in
//! whole numbers.
//!
//! [`Section`] is one section with rounded products, for any inputs below 2^60. [`Cascade`] takes points, which are
//! whole numbers with a radius, through seven sections and answers points: what stands in an answer is fixed to the
//! last digit, and it holds the exact signal of every list of inputs that lie in the points taken, after any number of
//! samples. [`fits`] says for which gains the sections' numbers stay small, and [`whole_of`] makes the bound of a whole
//! cascade, [`Whole`], from which one can be made. No call takes memory.
//!
//! The numbers of a cascade's sections fit 64 bits, so it runs on sections of its own, `RowSection`, which take the
//! same step. Where the sections have the kinds of a design (`SectionKind`), their steps take 19 products a sample in
//! place of 35.
//!
//! What the exact and the rounded sections are stands in flk_cert. Here `specs/` puts them in a row: `Cascade` exactly,
//! `RoundedCascade` as the program runs them, `Radius` with the radii by the sections' own gains, `Filter` with the
//! numbers on which all digits depend, and `Section` and `Answer` with what the states stand for. `Narrow` has the step
//! on 64 bits, and `Kinds` the kinds of a design's sections. `Chain` has the bound of the sections behind the first,
//! what it promises and the rule by which it is made; the rule's parts stand in `OwnBounds` and `Forms`.
//! docs/CERTIFICATES.md says why it holds, and `proofs/ChainLemmas` proves it.
#![tactic(auto)]

mod by_kind;
mod cascade;
mod chain;
mod fine;
mod form;
mod kind;
mod laws;
mod narrow;
mod own;
mod products;
mod radius;
mod row;
mod row_section;
mod section;
mod state;
mod whole;

pub use cascade::Cascade;
pub use chain::whole_of;
pub use laws::{
    answers_are_narrow, answers_hold_outputs, certified_sections_have_one_filter,
    greater_radius_gives_no_smaller, inputs_have_one_signal, points_have_one_list_of_answers,
    rule_bounds_the_chain, whole_bounds_the_chain,
};
pub use radius::fits;
pub use section::Section;
pub use whole::Whole;

#[cfg(test)]
mod tests;
