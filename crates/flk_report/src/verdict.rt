//! The verdict on one quantity.

ghost use Rattle.std.specs.Prelude.{◌≡◌, ◌↔◌, Some, ℤ, ◌<ℤ◌, ◌≤ℤ◌};
ghost use Rattle.flk_exact.specs.Rounding.{IsBetween};
ghost use Rattle.flk_report.specs.Verdict.{verdict_of, IsVerdict, IsVerdictOn};
ghost use Rattle.flk_report.specs.declared.verdict.Verdict.TheVariants as verdicts;

use flk_num::Interval;
use std::fmt;

/// What an interval says, against a limit, of every quantity that it holds.
#[derive(Clone, Copy, Debug, PartialEq, Eq)]
pub enum Verdict {
    /// Each is at most the limit.
    Pass,
    /// Each is above the limit.
    Fail,
    /// The interval meets its limit: the lower end is at most the limit, and the upper end above it.
    Undecided,
}

impl Verdict {
    ghost use Rattle.flk_report.specs.Verdict.{worse};

    /// The verdict on two quantities together: Fail where either is, else Undecided where either is.
    pub(crate) fn joined(self, other: Verdict) -> Verdict
        ensures { result ≡ worse self other }
    {
        match (self, other) {
            (Verdict::Fail, _) | (_, Verdict::Fail) => Verdict::Fail,
            (Verdict::Undecided, _) | (_, Verdict::Undecided) => Verdict::Undecided,
            (Verdict::Pass, Verdict::Pass) => Verdict::Pass,
        }
    }
}

impl fmt::Display for Verdict {
    ghost use Rattle.flk_report.specs.Verdict.{verdict_name};

    ghost output = { λ v. Some (verdict_name v) };

    fn fmt<W: fmt::Write>(&self, f: &mut fmt::Formatter<W>) -> fmt::Result {
        match self {
            Verdict::Pass => write!(f, "pass"),
            Verdict::Fail => write!(f, "fail"),
            Verdict::Undecided => write!(f, "undecided"),
        }
    }
}

/// The verdict on a quantity that lies in the interval, against its limit (IEC 61000-3-3, clause 5), both in the same
/// unit: Pass exactly where the upper end is at most the limit, Fail exactly where the lower end is above it, and else
/// Undecided. Takes no memory.
pub fn judge(v: Interval, limit: i128) -> Verdict
    ensures value { result ≡ verdict_of v limit }
    ensures pass { (result ≡ verdicts.Pass) ↔ (v.hi ≤ℤ limit) }
    ensures fail { (result ≡ verdicts.Fail) ↔ (limit <ℤ v.lo) }
    ensures undecided { (result ≡ verdicts.Undecided) ↔ ((v.lo ≤ℤ limit) × (limit <ℤ v.hi)) }
    ensures every { (z : ℤ) → IsBetween v.lo v.hi z → IsVerdictOn result limit z }
{
    if v.hi <= limit {
        Verdict::Pass
    } else if limit < v.lo {
        Verdict::Fail
    } else {
        Verdict::Undecided
    }
}
