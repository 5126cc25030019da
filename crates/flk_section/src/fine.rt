//! The coefficients of a section for its step on 64 bits.

ghost use Rattle.std.specs.Prelude.{◌≡◌, ◌^◌, ◌≤◌};
ghost use Rattle.std.specs.Int.RustNames.{unsigned_abs};
ghost use Rattle.flk_section.specs.Narrow.{fine_of};

use flk_cert::Coefs;

/// The coefficients of a section over 2^61. Each is at most 2^62 in size.
#[derive(Clone, Copy, Debug, PartialEq, Eq)]
pub struct FineCoefs {
    pub b0: i64,
    pub b1: i64,
    pub b2: i64,
    pub a1: i64,
    pub a2: i64,
    pub ghost b0_small: { unsigned_abs b0 ≤ 2 ^ 62 },
    pub ghost b1_small: { unsigned_abs b1 ≤ 2 ^ 62 },
    pub ghost b2_small: { unsigned_abs b2 ≤ 2 ^ 62 },
    pub ghost a1_small: { unsigned_abs a1 ≤ 2 ^ 62 },
    pub ghost a2_small: { unsigned_abs a2 ≤ 2 ^ 62 },
}

// A coefficient over 2^61, from that over 2^32.
fn fine(k: i64) -> i64
    requires { unsigned_abs k ≤ 2 ^ 33 }
    ensures value { result ≡ fine_of k }
    ensures small { unsigned_abs result ≤ 2 ^ 62 }
{
    536_870_912 * k
}

impl FineCoefs {
    ghost use Rattle.flk_section.specs.Fine.{IsFine};

    /// From the coefficients over 2^32.
    pub(crate) fn of(k: &Coefs) -> FineCoefs
        ensures { IsFine k.now result }
    {
        FineCoefs {
            b0: fine(k.b0),
            b1: fine(k.b1),
            b2: fine(k.b2),
            a1: fine(k.a1),
            a2: fine(k.a2),
        }
    }
}
