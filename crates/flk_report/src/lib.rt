//! The judgement of IEC 61000-3-3, and the text of a report.
//!
//! [`judge`] compares the interval of one quantity with its limit, [`overall`] joins the verdicts of all judged lines,
//! and [`report_text`] composes the report. A verdict speaks of every exact quantity that the intervals hold. In
//! `specs/`, `Limits` has the limits and the judged lines, `Verdict` says when each verdict is given and what it says
//! of a run, and `Report` has the text.
#![tactic(auto)]

mod judgement;
mod laws;
mod limits;
mod severities;
mod text;
mod verdict;

pub use judgement::overall;
pub use laws::{
    interval_has_one_verdict, last_line_is_the_verdict_on_every_run, overall_verdict_is_the_worst,
    undecided_leaves_both_open,
};
pub use std::alloc::AllocError as OutOfMemory;
pub use text::{interval_count, report_text};
pub use verdict::{Verdict, judge};

#[cfg(test)]
mod tests;
