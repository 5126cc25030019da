//! Laws of rounding.

ghost use Rattle.std.specs.Prelude.{◌≡◌, ◌↔◌, ℤ, pos, ◌<ℤ◌, ◌≤ℤ◌};
ghost use Rattle.flk_exact.specs.Rounding.{floor_of, ceil_of, IsFloor, IsCeil, IsRootFloor, IsRootCeil, IsCubeRootCeil};

/// The quotient that is rounded down is the one number of its bracket.
pub fn floor_is_a_bracket()
    ensures { (a b q : ℤ) → pos 0 <ℤ b → IsFloor a b q ↔ (q ≡ floor_of a b) }
{}

/// The quotient that is rounded up is the one number of its bracket.
pub fn ceil_is_a_bracket()
    ensures { (a b q : ℤ) → pos 0 <ℤ b → IsCeil a b q ↔ (q ≡ ceil_of a b) }
{}

/// A whole number that is not below 0 has a root, rounded down, and no number has two.
pub fn root_is_one()
    ensures exists { (v : ℤ) → pos 0 ≤ℤ v → (w : ℤ) × IsRootFloor v w }
    ensures unique { (v p q : ℤ) → IsRootFloor v p → IsRootFloor v q → p ≡ q }
{}

/// Every whole number has a root, rounded up, and none has two. (That of a number below 0 is 0.)
pub fn root_up_is_one()
    ensures exists { (v : ℤ) → (w : ℤ) × IsRootCeil v w }
    ensures unique { (v p q : ℤ) → IsRootCeil v p → IsRootCeil v q → p ≡ q }
{}

/// Every whole number has a cube root, rounded up, and none has two. (That of a number below 0 is 0.)
pub fn cube_root_up_is_one()
    ensures exists { (v : ℤ) → (w : ℤ) × IsCubeRootCeil v w }
    ensures unique { (v p q : ℤ) → IsCubeRootCeil v p → IsCubeRootCeil v q → p ≡ q }
{}
