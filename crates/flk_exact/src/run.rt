//! A law of runs.

ghost use Rattle.std.specs.Prelude.{ℕ, ◌<◌, List, map};
ghost use Rattle.flk_exact.specs.Fraction.{Fraction};
ghost use Rattle.flk_exact.specs.Run.{IsAdmittedRun, relative_to};

/// The recorded voltages themselves, relative to nominal, are an admitted run, whatever the uncertainty. So there
/// is one.
pub fn recorded_voltages_are_an_admitted_run()
    ensures { (nominal uncertainty : ℕ) (positive : 0 < nominal) (recorded : List Fraction)
        → IsAdmittedRun nominal uncertainty recorded (map (relative_to nominal positive) recorded) }
{}
