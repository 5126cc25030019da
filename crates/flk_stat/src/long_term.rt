//! The long-term flicker severity.

ghost use Rattle.std.specs.Prelude.{◌≡◌, ◌^◌, length, pos, ◌*ℤ◌, ◌≤ℤ◌};
ghost use Rattle.std.specs.List.{All};
ghost use Rattle.flk_exact.specs.Rounding.{IsBetween};
ghost use Rattle.flk_stat.specs.Severity.{cap};
ghost use Rattle.flk_stat.specs.LongTerm.{IsLongTerm};

use flk_num::{ceil_div, cube_root_ceil};

// The cube of a severity.
fn cube(v: i128) -> i128
    requires { IsBetween (pos 0) cap v }
    ensures value { result ≡ v *ℤ v *ℤ v }
    ensures low { pos 0 ≤ℤ result }
    ensures high { result ≤ℤ pos (10 ^ 36) }
{
    v * v * v
}

/// The long-term severity Plt of IEC 61000-4-15, in billionths, from 0 to 10^12: the cube root of the mean of the cubes
/// of twelve short-term ones, rounded up. These are in billionths, from 0 to 10^12, in any order.
pub fn plt(values: &[i128]) -> i128
    requires count { length values.now ≡ 12 }
    requires in_range { All (IsBetween (pos 0) cap) values.now }
    ensures severity { IsLongTerm values.now result }
    ensures high { result ≤ℤ cap }
{
    let mut sum: i128 = 0;
    for v in values {
        sum += cube(*v);
    }
    cube_root_ceil(ceil_div(sum, 12))
}
