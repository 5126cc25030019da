//! The coefficients of a filter section.

ghost use Rattle.std.specs.Prelude.{◌^◌, ◌≤◌};
ghost use Rattle.std.specs.Int.RustNames.{unsigned_abs};

/// The coefficients of a second-order section `y = b0 x + b1 x' + b2 x'' - a1 y' - a2 y''`, where `x'` and `x''` are
/// the inputs before x. Each is a whole number over 2^32, and at most 2^33 in size.
#[derive(Clone, Copy, Debug, PartialEq, Eq)]
pub struct Coefs {
    pub b0: i64,
    pub b1: i64,
    pub b2: i64,
    pub a1: i64,
    pub a2: i64,
    pub ghost b0_small: { unsigned_abs b0 ≤ 2 ^ 33 },
    pub ghost b1_small: { unsigned_abs b1 ≤ 2 ^ 33 },
    pub ghost b2_small: { unsigned_abs b2 ≤ 2 ^ 33 },
    pub ghost a1_small: { unsigned_abs a1 ≤ 2 ^ 33 },
    pub ghost a2_small: { unsigned_abs a2 ≤ 2 ^ 33 },
}
