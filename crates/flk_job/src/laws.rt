//! Laws of the definitions. Each function here has an empty body, and its contract is the law. Nothing here runs.

ghost use Rattle.std.specs.Prelude.{◌≡◌, ◌⊎◌, ℕ, List};
ghost use Rattle.flk_cfg.specs.declared.config.Config.{Config as ConfigView};
ghost use Rattle.flk_scale.specs.declared.fault.MatchFault.{MatchFault as MatchFaultView};
ghost use Rattle.flk_job.specs.Job.{IsJob, AreSame, AreInSets, IsFirstFault};
ghost use Rattle.flk_job.specs.Matching.{IsMatch, IsMatchFault};
ghost use Rattle.flk_job.specs.declared.job.Job.{Job as Value};
ghost use Rattle.flk_job.specs.declared.kind.Kind.{Kind as FaultKind};

/// Bytes write at most one job: two have the same seven values.
pub fn bytes_write_one_job()
    ensures { (bytes : List ℕ) (i j : Value) → IsJob bytes i → IsJob bytes j → AreSame i j }
{}

/// The values of a job that bytes write are in their sets.
pub fn values_of_a_file_are_in_sets()
    ensures { (bytes : List ℕ) (j : Value) → IsJob bytes j → AreInSets j }
{}

/// Bytes that write a job have no first fault. So `read_job` answers a fault only where they write none.
pub fn bytes_of_a_job_have_no_fault()
    ensures { (bytes : List ℕ) (j : Value) (number : ℕ) (kind : FaultKind) → IsJob bytes j
        → IsFirstFault bytes number kind → ⊥ }
{}

/// Bytes have at most one first fault: one key and one kind.
pub fn bytes_have_one_first_fault()
    ensures { (bytes : List ℕ) (number other : ℕ) (kind sort : FaultKind) → IsFirstFault bytes number kind
        → IsFirstFault bytes other sort → (number ≡ other) × (kind ≡ sort) }
{}

/// Any bytes write a job, or have a first fault. With the laws above it is exactly one of both.
pub fn bytes_are_a_job_or_have_a_fault()
    ensures { (bytes : List ℕ)
        → ((j : Value) × IsJob bytes j) ⊎ ((number : ℕ) × (kind : FaultKind) × IsFirstFault bytes number kind) }
{}

/// A configuration has what a job asks for, whose values are in their sets, or it has one fault, and never both. So
/// `match_job` answers each fault exactly where it is the first test that fails.
pub fn configuration_matches_or_has_one_fault()
    ensures cases { (j : Value) (c : ConfigView) → AreInSets j
        → IsMatch j c ⊎ ((f : MatchFaultView) × IsMatchFault j c f) }
    ensures excluded { (j : Value) (c : ConfigView) (f : MatchFaultView) → IsMatch j c → IsMatchFault j c f → ⊥ }
    ensures one { (j : Value) (c : ConfigView) (f g : MatchFaultView)
        → IsMatchFault j c f → IsMatchFault j c g → f ≡ g }
{}
