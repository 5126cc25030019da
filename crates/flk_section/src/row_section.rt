//! One section of a cascade, in 64 bits.

ghost use Rattle.std.specs.Prelude.{◌≡◌, ◌^◌, ◌<◌, List, [], ◌∷◌, IsTrue, ℤ};
ghost use Rattle.std.specs.Int.RustNames.{unsigned_abs};
ghost use Rattle.flk_cert.specs.RoundedSection.{state as state_after_inputs, output};
ghost use Rattle.flk_cert.specs.Bound.{StartsAtRest};
ghost use Rattle.flk_cert.specs.Gain.{coefs_of};
ghost use Rattle.flk_section.specs.Fine.{IsFine};

use crate::by_kind::{input_products, output_products};
use crate::fine::FineCoefs;
use crate::kind::SectionKind;
use crate::narrow::{NarrowState, output_of, state_after};
use crate::section::first_state;
use flk_cert::Gain;

/// A section of a cascade: the same filter as a `Section`, and the same digits, on 64 bits. That is enough where the
/// section's signals are below 2^60 in size.
#[derive(Clone, Copy)]
pub struct RowSection {
    gain: Gain,
    from_one: bool,
    fine: FineCoefs,
    state: NarrowState,
    ghost rests: { IsTrue from_one → StartsAtRest (coefs_of gain) },
    ghost is_fine: { IsFine (coefs_of gain) fine },
}

impl RowSection {
    ghost use Rattle.flk_section.specs.Kinds.{IsOfKind};
    ghost use Rattle.flk_section.specs.RowSection.{gain_of, coefs_in, starts_from_one, SectionStands, IsCalm};

    /// The section with the coefficients of the gain, before its first sample, as a `Section` begins.
    pub(crate) fn new(gain: Gain, from_one: bool) -> RowSection
        requires { IsTrue from_one → StartsAtRest (coefs_of gain) }
        ensures gain { gain_of result ≡ gain }
        ensures start { starts_from_one result ≡ from_one }
        ensures stands { SectionStands result [] }
    {
        let k = gain.coefs();
        RowSection {
            gain,
            from_one,
            fine: FineCoefs::of(&k),
            state: NarrowState {
                s1: first_state(k.b0, from_one),
                s2: 0,
            },
        }
    }

    /// Takes the next input, which lies as near to the section's rest as those before, and answers the output. The
    /// section is of the kind, which says what products are needed.
    #[inline(always)]
    pub(crate) fn step(&mut self, kind: SectionKind, mid: i64) -> i64
        requires mid { unsigned_abs mid < 2 ^ 60 }
        requires calm { ∥ IsCalm self.old mid ∥₁ }
        requires kind { IsOfKind kind (coefs_in self.old) }
        ensures gain { gain_of self.new ≡ gain_of self.old }
        ensures start { starts_from_one self.new ≡ starts_from_one self.old }
        ensures stands { (Xs : List ℤ) → SectionStands self.old Xs → SectionStands self.new (mid ∷ Xs) }
        ensures output { (Xs : List ℤ) → SectionStands self.old Xs
            → result
            ≡ output (coefs_in self.old) (state_after_inputs (coefs_in self.old) (starts_from_one self.old) Xs) mid }
    {
        let input = input_products(kind, &self.fine, mid);
        let output = output_of(input, self.state);
        let fed_back = output_products(kind, &self.fine, output);
        self.state = state_after(self.state, input, fed_back);
        output
    }
}
