//! Roots, rounded down and up.

ghost use Rattle.std.specs.Prelude.{◌≡◌, ℕ, ◌+◌, ◌*◌, ◌^◌, ◌<◌, ◌≤◌, pos, ◌≤ℤ◌, ◌<ℤ◌};
ghost use Rattle.flk_exact.specs.Rounding.{IsRootFloor, IsRootCeil, IsCubeRootCeil};

// A power of two above the root of `v`, and at most about twice as large.
fn power_above(v: u64) -> u64
    requires { 0 < v }
    ensures above { v < result * result }
    ensures some { 0 < result }
    ensures small { result ≤ 2 ^ 32 }
{
    1 << ((65 - v.leading_zeros()) / 2)
}

// Newton's step from `x`: the mean of `x` and `v / x`. It is never below the root, and at least `x` only where `x` is
// not above it.
fn newton_step(v: u64, x: u64) -> u64
    requires some { 0 < x }
    requires small { x ≤ 2 ^ 32 }
    requires above { v < (x + 1) * (x + 1) }
    ensures above { v < (result + 1) * (result + 1) }
    ensures last { x ≤ result → x * x ≤ v }
{
    (x + v / x) / 2
}

// The root of a number of 64 bits, by Newton's method from above.
fn word_root(v: u64) -> u64
    ensures within { result * result ≤ v }
    ensures greatest { v < (result + 1) * (result + 1) }
{
    if v == 0 {
        return 0;
    }
    let mut root = power_above(v);
    let mut next = newton_step(v, root);
    while next < root {
        root = next;
        next = newton_step(v, root);
    }
    root
}

/// The root of `v`, rounded down: the greatest whole number whose square is at most `v`, which is from 0 to below
/// 2^126. `v` is in squares of the result's unit.
pub fn root_floor(v: i128) -> i128
    requires low { pos 0 ≤ℤ v }
    requires high { v <ℤ pos (2 ^ 126) }
    ensures { IsRootFloor v result }
{
    // Squares of levels below four times nominal, in billionths, fit a word. Greater ones are rare.
    match u64::try_from(v) {
        Ok(word) => i128::from(word_root(word)),
        Err(_) => v.isqrt(),
    }
}

/// The root of `v`, rounded up: the least whole number of 0 or more whose square is at least `v`, which is from 0 to
/// below 2^126. `v` is in squares of the result's unit.
pub fn root_ceil(v: i128) -> i128
    requires low { pos 0 ≤ℤ v }
    requires high { v <ℤ pos (2 ^ 126) }
    ensures { IsRootCeil v result }
{
    let root = root_floor(v);
    if root * root == v { root } else { root + 1 }
}

// 2^42: its cube is 2^126.
const CUBE_ROOT_LIMIT: u64 = 4_398_046_511_104;

fn cube(x: u64) -> u128
    requires { x ≤ 2 ^ 42 }
    ensures { result ≡ x * x * x }
{
    let x = u128::from(x);
    x * x * x
}

// The cube root of `v`, rounded up. Each turn halves the numbers from which it is sought.
fn natural_cube_root(v: u128) -> u64
    requires { v ≤ 2 ^ 126 }
    ensures reached { v ≤ result * result * result }
    ensures least { (z : ℕ) → v ≤ z * z * z → result ≤ z }
{
    let mut low = 0;
    let mut high = CUBE_ROOT_LIMIT;
    while low < high {
        let middle = (low + high) / 2;
        if cube(middle) < v {
            low = middle + 1;
        } else {
            high = middle;
        }
    }
    high
}

/// The cube root of `v`, rounded up: the least whole number of 0 or more whose cube is at least `v`, which is from 0 to
/// below 2^126. `v` is in cubes of the result's unit.
pub fn cube_root_ceil(v: i128) -> i128
    requires low { pos 0 ≤ℤ v }
    requires high { v <ℤ pos (2 ^ 126) }
    ensures { IsCubeRootCeil v result }
{
    i128::from(natural_cube_root(v.unsigned_abs()))
}
