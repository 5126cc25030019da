//! One filter section.

ghost use Rattle.std.specs.Prelude.{◌≡◌, ◌^◌, ◌<◌, ◌≤◌, if◌then◌else◌, List, [], ◌∷◌, IsTrue, ℤ, pos, neg_ℤ, ◌*ℤ◌, ◌<ℤ◌};
ghost use Rattle.std.specs.Int.RustNames.{unsigned_abs};
ghost use Rattle.flk_exact.specs.Fraction.{Fraction, ◌≤ℚ◌, whole};
ghost use Rattle.flk_cert.specs.Section.{IsSection};
ghost use Rattle.flk_cert.specs.RoundedSection.{state as state_after_inputs, output};
ghost use Rattle.flk_cert.specs.Bound.{StartsAtRest, AllNear, IsErrorWithin};
ghost use Rattle.flk_cert.specs.Gain.{coefs_of, input_of, rounding_of};
ghost use Rattle.flk_section.specs.Kept.{as_state, IsReachedState};

use crate::state::{State, output_of, state_after};
use flk_cert::Gain;

// The first state before the first sample. A section from one begins as if its input had always been 1, which is 2^48
// units, with the output 0.
pub(crate) fn first_state(b0: i64, from_one: bool) -> i64
    requires { unsigned_abs b0 ≤ 2 ^ 33 }
    ensures { result ≡ (if from_one then neg_ℤ (pos 65536 *ℤ b0) else pos 0) }
{
    if from_one { -(65536 * b0) } else { 0 }
}

/// A filter section of the second order in direct form II transposed, with each product rounded down. Values are in
/// units of 2^-48.
#[derive(Clone, Copy)]
pub struct Section {
    gain: Gain,
    from_one: bool,
    state: State,
    ghost rests: { IsTrue from_one → StartsAtRest (coefs_of gain) },
    ghost reached: { ∥ IsReachedState (coefs_of gain) from_one (as_state state) ∥₁ },
}

impl Section {
    ghost use Rattle.flk_section.specs.Section.{gain_of, coefs_in, starts_from_one, SectionStands};

    /// The section with the coefficients of the gain, before its first sample. From one it begins as if its input had
    /// always been 1 and its output 0, which needs coefficients with `b1 = -b0` and `b2 = 0`; else with zeros.
    pub fn new(gain: Gain, from_one: bool) -> Section
        requires { IsTrue from_one → StartsAtRest (coefs_of gain) }
        ensures gain { gain_of result ≡ gain }
        ensures start { starts_from_one result ≡ from_one }
        ensures stands { SectionStands result [] }
    {
        Section {
            gain,
            from_one,
            state: State {
                s1: i128::from(first_state(gain.coefs().b0, from_one)),
                s2: 0,
            },
        }
    }

    /// The gain that it holds.
    pub(crate) fn gain(&self) -> Gain
        ensures { result ≡ gain_of self.now }
    {
        self.gain
    }

    /// Takes the next input, which is below 2^60 units in size, and answers the output. The gain's input is below 2^36.
    ///
    /// For exact inputs that are always within s of the inputs taken, the exact output is within
    /// `input * s / 2^32 + rounding` of the answer, with the gain that the section holds.
    pub fn step(&mut self, mid: i128) -> i128
        requires mid { unsigned_abs mid < 2 ^ 60 }
        requires input { input_of (gain_of self.old) <ℤ pos (2 ^ 36) }
        ensures gain { gain_of self.new ≡ gain_of self.old }
        ensures start { starts_from_one self.new ≡ starts_from_one self.old }
        ensures stands { (Xs : List ℤ) → SectionStands self.old Xs → SectionStands self.new (mid ∷ Xs) }
        ensures output { (Xs : List ℤ) → SectionStands self.old Xs
            → result
            ≡ output (coefs_in self.old) (state_after_inputs (coefs_in self.old) (starts_from_one self.old) Xs) mid }
        ensures enclosure { (Xs : List ℤ) (s x y : Fraction) (xs ys : List Fraction) → SectionStands self.old Xs
            → whole (pos 0) ≤ℚ s
            → IsSection (coefs_in self.old) (starts_from_one self.old) (x ∷ xs) (y ∷ ys) → AllNear s (x ∷ xs) (mid ∷ Xs)
            → IsErrorWithin (input_of (gain_of self.old)) (rounding_of (gain_of self.old)) s y result }
    {
        let k = self.gain.coefs();
        let output = output_of(&k, self.state, mid);
        self.state = state_after(&k, self.state, mid, output);
        output
    }
}
