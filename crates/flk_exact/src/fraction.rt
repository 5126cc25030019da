//! Laws of fractions.

ghost use Rattle.std.specs.Prelude.{◌↔◌, ◌⊎◌};
ghost use Rattle.flk_exact.specs.Fraction.{Fraction, ◌≤ℚ◌, ◌≈ℚ◌};

/// The order of fractions is one: each is at most itself, it goes on over a third, and of two one is at most the other.
/// Each is at most the other exactly where they are the same number.
pub fn fractions_are_ordered()
    ensures reflexive { (p : Fraction) → p ≤ℚ p }
    ensures transitive { (p q r : Fraction) → p ≤ℚ q → q ≤ℚ r → p ≤ℚ r }
    ensures total { (p q : Fraction) → (p ≤ℚ q) ⊎ (q ≤ℚ p) }
    ensures same { (p q : Fraction) → ((p ≤ℚ q) × (q ≤ℚ p)) ↔ (p ≈ℚ q) }
{}
