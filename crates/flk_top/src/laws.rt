//! Laws of the answer. Nothing here runs.

ghost use Rattle.std.specs.Prelude.{◌≡◌, ℕ, ◌*◌, ◌<◌, ◌≤◌, List, length, ℤ};
ghost use Rattle.flk_exact.specs.Fraction.{Fraction};
ghost use Rattle.flk_exact.specs.Run.{IsAdmittedRun};
ghost use Rattle.flk_exact.specs.HalfPeriod.{AreHalfPeriodValues};
ghost use Rattle.flk_exact.specs.Extreme.{IsLeast, IsGreatest};
ghost use Rattle.flk_dat.specs.DataFile.{IsAccepted};
ghost use Rattle.flk_dat.specs.Records.{layout_of};
ghost use Rattle.flk_gen.specs.Recording.{records_in, generated_configuration, generated_text, generated_records, generated_data};
ghost use Rattle.flk_result.specs.RunQuantities.{RunQuantities};
ghost use Rattle.flk_top.specs.Answer.{IsDueFor, IsDue};
ghost use Rattle.flk_top.specs.CheckDue.{IsDueForCheck};
ghost use Rattle.flk_top.specs.Command.{Asks, IsInput};
ghost use Rattle.flk_top.specs.Headline.{ReportedRecording, AreAcceptedForReport, AreOfRuns};
ghost use Rattle.flk_top.specs.Configuration.{IsConfiguration};
ghost use Rattle.flk_top.specs.Outcome.{Outcome, completed};
ghost use Rattle.flk_top.specs.Text.{check_text};
ghost use Rattle.flk_top.specs.Told.{Files};
ghost use Rattle.flk_top.specs.declared.command.Command.{Command as CommandView};
ghost use Rattle.flk_top.specs.declared.command.Command.TheVariants as commands;
ghost use Rattle.flk_top.specs.declared.command.ReportCommand.{ReportCommand as ReportCommandView};

/// Words ask for one command at most.
pub fn words_ask_one_command()
    ensures { (words : List (List ℕ)) (p q : CommandView) → Asks words p → Asks words q → p ≡ q }
{}

/// Whatever the words and the files are, no two outcomes are due: the status is one, and the text is one to its last
/// digit.
pub fn answer_is_one()
    ensures { (words : List (List ℕ)) (files : Files) (o p : Outcome)
        → IsDue words files o → IsDue words files p → o ≡ p }
{}

/// For any words and any files some outcome is due. With the law above it is one.
pub fn an_answer_is_due()
    ensures { (words : List (List ℕ)) (files : Files) → (o : Outcome) × IsDue words files o }
{}

/// Only the bytes of the inputs decide what is due.
pub fn inputs_decide()
    ensures { (words : List (List ℕ)) (files others : Files)
        → ((name : List ℕ) → IsInput words name → others name ≡ files name)
        → (o : Outcome) → IsDue words files o → IsDue words others o }
{}

/// The promise on every exact run speaks of some run. For each list of cuts that is not empty there is a run that the
/// recorded voltages admit, whatever the uncertainty, and its half-periods have values, of which one is the least and
/// one the greatest. (`nominal` is in millivolts, `uncertainty` and the voltages are in microvolts, and `half` counts
/// the samples of half a nominal period.)
pub fn promise_is_not_empty()
    ensures { (half nominal uncertainty : ℕ) (recorded : List Fraction) (cuts : List ℕ)
        → 0 < half → 0 < nominal → 0 < length cuts
        → (run : List Fraction) × (values : List ℤ) × (least : ℤ) × (greatest : ℤ)
        × IsAdmittedRun (1000 * nominal) uncertainty recorded run
        × AreHalfPeriodValues half cuts run values × IsLeast values least × IsGreatest values greatest }
{}

/// The promise on a report speaks of some run: whatever files are accepted, each channel has an exact run that its
/// recorded voltages admit, and that has quantities.
pub fn report_promise_is_not_empty()
    ensures { (words : List (List ℕ)) (files : Files) (m : ReportedRecording) → AreAcceptedForReport words files m
        → (qs : List RunQuantities) × AreOfRuns m qs }
{}

/// The number of workers changes no answer of a report.
pub fn workers_change_no_answer()
    ensures { (a b : ReportCommandView) (outputs contents : List (List ℕ)) (o : Outcome)
        → IsDueFor (commands.Report a) outputs contents o → IsDueFor (commands.Report b) outputs contents o }
{}

/// What is generated is accepted, with any channels selected, and `check` tells its summary.
pub fn generated_files_are_accepted()
    ensures configuration { (seconds : ℕ) → 1 ≤ seconds → seconds ≤ 8000
        → IsConfiguration (generated_text seconds) (generated_configuration seconds) }
    ensures data_file { (seed seconds : ℕ) → 1 ≤ seconds → seconds ≤ 8000 → (channels : List ℕ)
        → IsAccepted (layout_of (generated_configuration seconds) channels)
        (generated_data seed seconds) (generated_records seed (records_in seconds)) }
    ensures check { (seed seconds : ℕ) → 1 ≤ seconds → seconds ≤ 8000
        → IsDueForCheck (generated_text seconds) (generated_data seed seconds)
        (completed (check_text (generated_configuration seconds) 1)) }
{}
