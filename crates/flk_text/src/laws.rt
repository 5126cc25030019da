//! Laws of the definitions. Each function here has an empty body, and its contract is the law. Nothing here runs.

ghost use Rattle.std.specs.Prelude.{◌≡◌, ◌≢◌, ◌↔◌, ℕ, ◌+◌, ◌*◌, ◌%◌, ◌<◌, ◌≤◌, ◌^◌, List, [], ◌∷◌, ◌++◌, All, length, get_or, ℤ, unsigned_abs, Result, Err, decimal};
ghost use Rattle.flk_text.specs.Numeral.{Numeral, IsNumeral, digits_number, places_left};
ghost use Rattle.flk_text.specs.Decimal.{IsInSet, IsDecimal, IsAnswer, IsOutOfRange};
ghost use Rattle.flk_text.specs.WholeNumber.{IsWholeAnswer};
ghost use Rattle.flk_text.specs.PlainText.{places_below, plain};
ghost use Rattle.flk_text.specs.Fields.{IsField, joined_fields, fields};
ghost use Rattle.flk_text.specs.Lines.{IsLineEnd, Lacks, line_of, after_line, last_line_of, tail_of};
ghost use Rattle.flk_text.specs.declared.decimals.DecimalValue.{DecimalValue as Value};
ghost use Rattle.flk_text.specs.declared.decimals.NumFault.{NumFault as Fault};
ghost use Rattle.flk_text.specs.declared.decimals.NumFault.TheVariants.{Range};

/// A text has one answer: it has at most one value as a decimal, and a value, `Syntax` and `Range` exclude one another.
/// So `decimal` answers each exactly where it holds.
pub fn decimal_has_one_answer()
    ensures { (text : List ℕ) (r s : Result Value Fault) → IsAnswer text r → IsAnswer text s → r ≡ s }
{}

/// A text has one answer as a whole number too.
pub fn whole_has_one_answer()
    ensures { (text : List ℕ) (r s : Result ℤ Fault) → IsWholeAnswer text r → IsWholeAnswer text s → r ≡ s }
{}

/// Where `Range` comes, by the digits and the exponent of the text. Digits that write 0 are in the set. Others write m
/// with zeros behind it, where 10 doesn't divide m, and `Range` comes exactly where m has more than 18 digits, or the
/// exponent of m is below -24, or the value is above 10^12.
pub fn range_is_exact()
    ensures zero { (text : List ℕ) (d : Numeral)
        → IsNumeral text d → digits_number d ≡ 0 → IsAnswer text (Err Range) → ⊥ }
    ensures reduced { (n : ℕ) → 0 < n → (m : ℕ) × (zeros : ℕ) × (n ≡ m * 10 ^ zeros) × (m % 10 ≢ 0) }
    ensures other { (text : List ℕ) (d : Numeral) (m zeros : ℕ)
        → IsNumeral text d → digits_number d ≡ m * 10 ^ zeros → m % 10 ≢ 0
        → IsAnswer text (Err Range) ↔ IsOutOfRange m (zeros + d.right) (places_left d) }
{}

/// The value of a decimal is in the set, and a value of at most 18 digits with zeros behind them is, whether 10 divides
/// the digits' number or not.
pub fn values_are_in_the_set()
    ensures read { (text : List ℕ) (z : ℤ) → IsDecimal text z → IsInSet (unsigned_abs z) }
    ensures digits { (u m places : ℕ) → u ≡ m * 10 ^ places → m < 10 ^ 18 → u ≤ 10 ^ 12 * 10 ^ 24 → IsInSet u }
{}

/// The plain text of a value of the set has that value, its whole part begins with no zero unless it is `0`, and its
/// fraction ends with none.
pub fn plain_text_has_its_value()
    ensures value { (z : ℤ) → IsInSet (unsigned_abs z) → IsDecimal (plain z) z }
    ensures nothing { decimal 0 ≡ 48 ∷ [] }
    ensures whole { (n : ℕ) → 0 < n → n < 2 ^ 64 → 48 < get_or (decimal n) 0 0 }
    ensures fraction { (f : ℕ) (front : List ℕ) → 0 < f → f < 10 ^ 24 → places_below 24 f ≡ front ++ 48 ∷ [] → ⊥ }
{}

/// The bytes of a file are its next line, that line's end, and what follows, which is less than before; no LF stands in
/// a line.
pub fn lines_are_the_bytes()
    ensures bytes { (bytes : List ℕ)
        → (end : List ℕ) × IsLineEnd end × (bytes ≡ line_of bytes ++ (end ++ after_line bytes)) }
    ensures shorter { (bytes : List ℕ) → 0 < length bytes → length (after_line bytes) < length bytes }
    ensures no_lf { (bytes : List ℕ) (k : ℕ) → k < length (line_of bytes) → get_or (line_of bytes) k 0 ≢ 10 }
{}

/// The bytes of a file at its last line are that line, its end, and the tail; no LF and no 1A stands in the line.
pub fn last_line_and_tail_are_the_bytes()
    ensures bytes { (bytes : List ℕ)
        → (end : List ℕ) × IsLineEnd end × (bytes ≡ last_line_of bytes ++ (end ++ tail_of bytes)) }
    ensures no_lf { (bytes : List ℕ) (k : ℕ) → k < length (last_line_of bytes) → get_or (last_line_of bytes) k 0 ≢ 10 }
    ensures no_mark { (bytes : List ℕ) (k : ℕ)
        → k < length (last_line_of bytes) → get_or (last_line_of bytes) k 0 ≢ 26 }
{}

/// What is written is read back: a line with CR LF behind it, whatever follows, and fields with commas between them.
pub fn written_lines_are_read_back()
    ensures line { (line rest : List ℕ) → Lacks 10 line → line_of (line ++ 13 ∷ 10 ∷ rest) ≡ line }
    ensures left { (line rest : List ℕ) → Lacks 10 line → after_line (line ++ 13 ∷ 10 ∷ rest) ≡ rest }
    ensures fields { (texts : List (List ℕ))
        → 0 < length texts → All IsField texts → fields (joined_fields texts) ≡ texts }
{}

/// The text of a decimal is a field as it stands, and no LF is in it.
pub fn decimals_are_fields()
    ensures field { (text : List ℕ) (z : ℤ) → IsDecimal text z → IsField text }
    ensures no_lf { (text : List ℕ) (z : ℤ) → IsDecimal text z → Lacks 10 text }
{}
