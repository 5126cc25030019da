//! Laws of what a phase becomes. Each function has an empty body, and its contract is the law.

ghost use Rattle.std.specs.Prelude.{◌≡◌, List, None, ℤ};
ghost use Rattle.flk_phase.specs.declared.phase.Phase.{Phase as PhaseView};
ghost use Rattle.flk_phase.specs.Phase.{over_of};
ghost use Rattle.flk_phase.specs.Taking.{TookAll, Takes};

/// A phase that has no sample over range had none before, and took all samples that it was given.
pub fn phase_with_none_over_range_took_all()
    ensures { (old new : PhaseView) (xs : List ℤ) → Takes old new xs → over_of new ≡ None
        → (over_of old ≡ None) × TookAll old new xs }
{}
