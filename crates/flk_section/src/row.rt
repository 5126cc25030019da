//! One sample through the sections in a row.

ghost use Rattle.std.specs.Prelude.{◌≡◌, ◌+◌, ◌^◌, ◌<◌, Bool, List, ◌∷◌, length, map, drop, IsTrue, ℤ};
ghost use Rattle.std.specs.Int.RustNames.{unsigned_abs};
ghost use Rattle.flk_cert.specs.Gain.{coefs_of};
ghost use Rattle.flk_section.specs.RoundedCascade.{last_output};
ghost use Rattle.flk_section.specs.RowSection.{gain_of};
ghost use Rattle.flk_section.specs.Kinds.{IsKindAt, AreOfDesign};
ghost use Rattle.flk_section.specs.Row.{StandInRow, Midway, AreReady};

use crate::kind::SectionKind;
use crate::row_section::RowSection;

// Takes the signal, which came through the sections before, through the one at i, which is of this kind.
#[inline(always)]
fn step_at(sections: &mut [RowSection], i: usize, kind: SectionKind, signal: i64) -> i64
    requires within { i < length sections.old }
    requires signal { unsigned_abs signal < 2 ^ 60 }
    requires ready { ∥ AreReady (drop i sections.old) signal ∥₁ }
    requires kind { IsKindAt i kind (map gain_of sections.old) }
    ensures gains { map gain_of sections.new ≡ map gain_of sections.old }
    ensures ready { ∥ AreReady (drop (i + 1) sections.new) result ∥₁ }
    ensures small { unsigned_abs result < 2 ^ 60 }
    ensures midway { (from_one : Bool) (X : ℤ) (Xs : List ℤ) → Midway i from_one sections.old X Xs signal
        → Midway (i + 1) from_one sections.new X Xs result }
{
    sections[i].step(kind, signal)
}

// Takes the next input through sections of any kind.
fn step_any(sections: &mut [RowSection], mid: i64) -> i64
    requires mid { unsigned_abs mid < 2 ^ 60 }
    requires ready { ∥ AreReady sections.old mid ∥₁ }
    ensures gains { map gain_of sections.new ≡ map gain_of sections.old }
    ensures stand { (from_one : Bool) (Xs : List ℤ) → StandInRow from_one sections.old Xs
        → StandInRow from_one sections.new (mid ∷ Xs) }
    ensures output { (from_one : Bool) (Xs : List ℤ) → StandInRow from_one sections.old Xs
        → result ≡ last_output (map coefs_of (map gain_of sections.old)) from_one Xs mid }
    ensures small { unsigned_abs result < 2 ^ 60 }
{
    let mut signal = mid;
    for i in 0..sections.len() {
        signal = step_at(sections, i, SectionKind::Any, signal);
    }
    signal
}

// Takes the next input through the seven sections of a design.
#[inline(always)]
fn step_design(sections: &mut [RowSection; 7], mid: i64) -> i64
    requires mid { unsigned_abs mid < 2 ^ 60 }
    requires ready { ∥ AreReady sections.old mid ∥₁ }
    requires design { AreOfDesign (map gain_of sections.old) }
    ensures gains { map gain_of sections.new ≡ map gain_of sections.old }
    ensures stand { (from_one : Bool) (Xs : List ℤ) → StandInRow from_one sections.old Xs
        → StandInRow from_one sections.new (mid ∷ Xs) }
    ensures output { (from_one : Bool) (Xs : List ℤ) → StandInRow from_one sections.old Xs
        → result ≡ last_output (map coefs_of (map gain_of sections.old)) from_one Xs mid }
    ensures small { unsigned_abs result < 2 ^ 60 }
{
    let first = step_at(sections, 0, SectionKind::HighPass, mid);
    let second = step_at(sections, 1, SectionKind::LowPass, first);
    let third = step_at(sections, 2, SectionKind::LowPass, second);
    let fourth = step_at(sections, 3, SectionKind::LowPass, third);
    let fifth = step_at(sections, 4, SectionKind::BandPass, fourth);
    let sixth = step_at(sections, 5, SectionKind::LeadAndLag, fifth);
    step_at(sections, 6, SectionKind::Lag, sixth)
}

/// Takes the next input through the sections, and answers the last output.
#[inline(always)]
pub(crate) fn step_in_row(sections: &mut [RowSection; 7], of_design: bool, mid: i64) -> i64
    requires mid { unsigned_abs mid < 2 ^ 60 }
    requires ready { ∥ AreReady sections.old mid ∥₁ }
    requires design { IsTrue of_design → AreOfDesign (map gain_of sections.old) }
    ensures gains { map gain_of sections.new ≡ map gain_of sections.old }
    ensures stand { (from_one : Bool) (Xs : List ℤ) → StandInRow from_one sections.old Xs
        → StandInRow from_one sections.new (mid ∷ Xs) }
    ensures output { (from_one : Bool) (Xs : List ℤ) → StandInRow from_one sections.old Xs
        → result ≡ last_output (map coefs_of (map gain_of sections.old)) from_one Xs mid }
    ensures small { unsigned_abs result < 2 ^ 60 }
{
    if of_design {
        step_design(sections, mid)
    } else {
        step_any(sections, mid)
    }
}
