//! Laws of the least and the greatest.

ghost use Rattle.std.specs.Prelude.{◌≡◌, ◌<◌, List, length, ℤ};
ghost use Rattle.flk_exact.specs.Extreme.{IsLeast, IsGreatest};

/// A list that is not empty has one least number.
pub fn least_is_one()
    ensures exists { (xs : List ℤ) → 0 < length xs → (m : ℤ) × IsLeast xs m }
    ensures unique { (xs : List ℤ) (m n : ℤ) → IsLeast xs m → IsLeast xs n → m ≡ n }
{}

/// A list that is not empty has one greatest number.
pub fn greatest_is_one()
    ensures exists { (xs : List ℤ) → 0 < length xs → (m : ℤ) × IsGreatest xs m }
    ensures unique { (xs : List ℤ) (m n : ℤ) → IsGreatest xs m → IsGreatest xs n → m ≡ n }
{}
