//! Laws of sections. Each function has an empty body, and its contract is the law.

ghost use Rattle.std.specs.Prelude.{◌≡◌, Bool, List};
ghost use Rattle.std.specs.List.{AllZip};
ghost use Rattle.flk_exact.specs.Fraction.{Fraction, ◌≈ℚ◌};
ghost use Rattle.flk_cert.specs.Section.{IsSection};
ghost use Rattle.flk_cert.specs.Bound.{BoundsEach, BoundsFirst, BoundsSecond, KeepsSecond};
ghost use Rattle.flk_cert.specs.Gain.{coefs_of, input_of, rounding_of, first_input_of, first_rounding_of, second_input_of, second_rounding_of, gain_numbers, IsGainOf};
ghost use Rattle.flk_cert.specs.Certificate.{IsBound};
ghost use Rattle.flk_cert.specs.declared.certificate.CertRow.{CertRow as RowView};
ghost use Rattle.flk_cert.specs.declared.coefs.Coefs.{Coefs as CoefsView};
ghost use Rattle.flk_cert.specs.declared.gain.Gain.{Gain as GainView};

/// For each list of inputs a section has one list of outputs, where fractions of one value are one.
pub fn inputs_have_one_list_of_outputs()
    ensures exists { (k : CoefsView) (from_one : Bool) (xs : List Fraction)
        → (ys : List Fraction) × IsSection k from_one xs ys }
    ensures unique { (k : CoefsView) (from_one : Bool) (xs ys zs : List Fraction) → IsSection k from_one xs ys
        → IsSection k from_one xs zs → AllZip (λ y z. y ≈ℚ z) ys zs }
{}

/// A gain bounds the error of each output.
pub fn gain_bounds_each_output()
    ensures { (gain : GainView) → BoundsEach (coefs_of gain) (input_of gain) (rounding_of gain) }
{}

/// A gain bounds the errors of the two states after each sample: the first one's, and with several rows of the
/// certificate `2^32*s2 - a1*s1`, from which that of the second follows. With one row, which says that the second
/// bound's share of rounding is 0, the second state has no error.
pub fn gain_bounds_both_states()
    ensures first { (gain : GainView) → BoundsFirst (coefs_of gain) (first_input_of gain) (first_rounding_of gain) }
    ensures second { (gain : GainView) → BoundsSecond (coefs_of gain) (second_input_of gain) (second_rounding_of gain) }
    ensures one_row { (gain : GainView) → KeepsSecond (coefs_of gain) (second_rounding_of gain) }
    ensures first_limits { (gain : GainView) → IsBound (first_input_of gain) × IsBound (first_rounding_of gain) }
    ensures second_limits { (gain : GainView) → IsBound (second_input_of gain) × IsBound (second_rounding_of gain) }
{}

/// The gains of one certificate have the same numbers.
pub fn certificate_has_one_gain()
    ensures { (k : CoefsView) (rows : List RowView) (g h : GainView) → IsGainOf k rows g → IsGainOf k rows h
        → gain_numbers g ≡ gain_numbers h }
{}
