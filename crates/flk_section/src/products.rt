//! What an input and an output bring to a section: their products with its coefficients, rounded down.

ghost use Rattle.std.specs.Prelude.{◌^◌, ◌≤◌};
ghost use Rattle.std.specs.Int.RustNames.{unsigned_abs};

/// The products of an input with the coefficients b0, b1 and b2. Each is at most 2^61 in size.
#[derive(Clone, Copy)]
pub struct InputProducts {
    pub b0: i64,
    pub b1: i64,
    pub b2: i64,
    pub ghost b0_small: { unsigned_abs b0 ≤ 2 ^ 61 },
    pub ghost b1_small: { unsigned_abs b1 ≤ 2 ^ 61 },
    pub ghost b2_small: { unsigned_abs b2 ≤ 2 ^ 61 },
}

/// The products of an output with the coefficients a1 and a2. Each is at most 2^61 in size.
#[derive(Clone, Copy)]
pub struct OutputProducts {
    pub a1: i64,
    pub a2: i64,
    pub ghost a1_small: { unsigned_abs a1 ≤ 2 ^ 61 },
    pub ghost a2_small: { unsigned_abs a2 ≤ 2 ^ 61 },
}
