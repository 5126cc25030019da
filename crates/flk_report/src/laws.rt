//! Laws of verdicts. Each function has an empty body, and its contract is the law.

ghost use Rattle.std.specs.Prelude.{◌≡◌, ℕ, List, ◌++◌, ℤ};
ghost use Rattle.std.specs.List.{All, AllZip};
ghost use Rattle.flk_num.specs.declared.interval.Interval.{Interval};
ghost use Rattle.flk_num.specs.declared.rate.Rate.{Rate as RateView};
ghost use Rattle.flk_job.specs.declared.job.Job.{Job};
ghost use Rattle.flk_result.specs.declared.result.PhaseResult.{PhaseResult};
ghost use Rattle.flk_result.specs.PhaseResult.{IsProper, AreHeld};
ghost use Rattle.flk_result.specs.RunQuantities.{RunQuantities};
ghost use Rattle.flk_report.specs.Limits.{JudgedLine};
ghost use Rattle.flk_report.specs.Verdict.{verdict_of, IsVerdict, all_judged_lines, overall_of, IsOverall, IsOverallVerdictOn, RunPasses, RunFails};
ghost use Rattle.flk_report.specs.Report.{report_text, verdict_line};
ghost use Rattle.flk_report.specs.declared.verdict.Verdict.{Verdict as VerdictView};
ghost use Rattle.flk_report.specs.declared.verdict.Verdict.TheVariants.{Undecided};

/// An interval has one verdict against a limit.
pub fn interval_has_one_verdict()
    ensures exists { (v : Interval) (limit : ℤ) → IsVerdict (verdict_of v limit) v limit }
    ensures unique { (v : Interval) (limit : ℤ) (a b : VerdictView) → IsVerdict a v limit → IsVerdict b v limit
        → a ≡ b }
{}

/// The overall verdict is the worst of the judged lines: Fail where one fails, else Undecided where one is undecided,
/// else Pass. Lines have one such verdict.
pub fn overall_verdict_is_the_worst()
    ensures exists { (j : Job) (rs : List PhaseResult) → IsOverall (overall_of j rs) (all_judged_lines j rs) }
    ensures unique { (lines : List JudgedLine) (a b : VerdictView) → IsOverall a lines → IsOverall b lines → a ≡ b }
{}

/// The verdict in the last line of a report is that on every exact run of all channels whose quantities the results
/// hold.
pub fn last_line_is_the_verdict_on_every_run()
    ensures { (j : Job) (rate : RateView) (records : ℕ) (rs : List PhaseResult) (front : List ℕ) (v : VerdictView)
        (qs : List RunQuantities) → report_text j rate records rs ≡ front ++ verdict_line v → AllZip AreHeld rs qs
        → IsOverallVerdictOn v j qs }
{}

/// Where the overall verdict is Undecided, the results hold quantities that pass and quantities that fail.
pub fn undecided_leaves_both_open()
    ensures passes { (j : Job) (rs : List PhaseResult) → All IsProper rs → overall_of j rs ≡ Undecided
        → (qs : List RunQuantities) × AllZip AreHeld rs qs × RunPasses j qs }
    ensures fails { (j : Job) (rs : List PhaseResult) → All IsProper rs → overall_of j rs ≡ Undecided
        → (qs : List RunQuantities) × AllZip AreHeld rs qs × RunFails j qs }
{}
