//! Laws of the design. Nothing here runs.

ghost use Rattle.std.specs.Prelude.{◌≡◌, List, ℤ, pos};
ghost use Rattle.flk_exact.specs.Fraction.{Fraction, whole};
ghost use Rattle.flk_cert.specs.declared.coefs.Coefs.{Coefs};
ghost use Rattle.flk_design.specs.Nearest.{◌<ℚ◌, IsNearestQuotient};
ghost use Rattle.flk_design.specs.Lamp.{LampConstants};
ghost use Rattle.flk_design.specs.Design.{IsDesign};

/// A quotient by a positive fraction has one nearest whole number, and no two: halves go upward.
pub fn nearest_quotient_is_one()
    ensures exists { (p q : Fraction) → whole (pos 0) <ℚ q → (k : ℤ) × IsNearestQuotient p q k }
    ensures unique { (p q : Fraction) (j k : ℤ) → IsNearestQuotient p q j → IsNearestQuotient p q k → j ≡ k }
{}

/// A lamp has one design at a sampling interval: no two lists of coefficients are its digital sections.
pub fn design_is_one()
    ensures { (T : Fraction) (c : LampConstants) (ks js : List Coefs) → IsDesign T c ks → IsDesign T c js → ks ≡ js }
{}
