//! Whole numbers near a number in double precision.

ghost use Rattle.std.specs.Prelude.{◌<◌, ◌^◌};

const TWO_TO_52: f64 = 4503599627370496.0;

const TWO_TO_53: f64 = 9007199254740992.0;

/// A whole number below 2^52 near `x`: nearly always `x` rounded down, where it is from 0 to below 2^52, and else 0. How
/// near it is isn't promised: whoever takes it tests it.
#[inline(always)]
pub fn whole_near(x: f64) -> u64
    ensures { result < 2 ^ 52 }
{
    // From 2^52 to 2^53 a double is a whole number, which stands in its last 52 bits. The half has `x` rounded down, so
    // that a processor foresees the test by which a quotient or a root is shown.
    let raised = x + (TWO_TO_52 - 0.5);
    if TWO_TO_52 <= raised && raised < TWO_TO_53 {
        f64::to_bits(raised) & 4_503_599_627_370_495
    } else {
        0
    }
}
