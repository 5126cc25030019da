//! Laws of the cascade. Each function has an empty body, and its contract is the law.

ghost use Rattle.std.specs.Prelude.{◌≡◌, ℕ, ◌^◌, ◌≤◌, List, map, drop, ℤ, pos, ◌≤ℤ◌, ◌<ℤ◌};
ghost use Rattle.std.specs.List.{All, AllZip};
ghost use Rattle.flk_exact.specs.Fraction.{Fraction, ◌≈ℚ◌};
ghost use Rattle.flk_num.specs.declared.interval.Interval.{Interval};
ghost use Rattle.flk_cert.specs.declared.coefs.Coefs.{Coefs};
ghost use Rattle.flk_cert.specs.declared.gain.Gain.{Gain};
ghost use Rattle.flk_cert.specs.Gain.{coefs_of, gain_numbers};
ghost use Rattle.flk_design.specs.Lamp.{LampConstants};
ghost use Rattle.flk_design.specs.Design.{IsDesign};
ghost use Rattle.flk_front.specs.declared.point.Point.{Point};
ghost use Rattle.flk_front.specs.Adaptor.{IsAdapted};
ghost use Rattle.flk_front.specs.Rounded.{ArePoints};
ghost use Rattle.flk_front.specs.Front.{IsWithin};
ghost use Rattle.flk_front.specs.Width.{AreClose, CoversOutput};
ghost use Rattle.flk_section.specs.Cascade.{IsCascade, IsWeightedSignal};
ghost use Rattle.flk_section.specs.declared.whole.Whole.{Whole};
ghost use Rattle.flk_section.specs.Points.{greatest_point};
ghost use Rattle.flk_section.specs.Radius.{units_above};
ghost use Rattle.flk_section.specs.Filter.{FilterNumbers, last_radius};
ghost use Rattle.flk_section.specs.Chain.{BoundsChain, chain_input, chain_rounding};
ghost use Rattle.flk_section.specs.Whole.{numbers_of, IsWholeOf, AreCertified};
ghost use Rattle.flk_section.specs.Answer.{AreAnswers};

/// For each list of inputs a cascade has one list of outputs, where fractions of one value are one.
pub fn inputs_have_one_signal()
    ensures exists { (ks : List Coefs) (xs : List Fraction) → (ys : List Fraction) × IsCascade ks xs ys }
    ensures unique { (ks : List Coefs) (xs ys zs : List Fraction) → IsCascade ks xs ys → IsCascade ks xs zs
        → AllZip ◌≈ℚ◌ ys zs }
{}

/// For each list of points there is one list of answers by the numbers of a cascade.
pub fn points_have_one_list_of_answers()
    ensures exists { (f : FilterNumbers) (ps : List Point) → (qs : List Point) × AreAnswers f ps qs }
    ensures unique { (f : FilterNumbers) (ps qs rs : List Point) → AreAnswers f ps qs → AreAnswers f ps rs → qs ≡ rs }
{}

/// Every exact output lies in its answer, where each exact input lies in its point.
pub fn answers_hold_outputs()
    ensures outputs { (w : Whole) (ps qs : List Point) (xs ys : List Fraction) → AreAnswers (numbers_of w) ps qs
        → AllZip IsWithin ps xs → IsCascade (numbers_of w).coefs xs ys → AllZip IsWithin qs ys }
    ensures signal { (w : Whole) (ps qs : List Point) (T : Fraction) (c : LampConstants) (xs ws : List Fraction)
        → AreAnswers (numbers_of w) ps qs
        → AllZip IsWithin ps xs → IsDesign T c (numbers_of w).coefs → IsWeightedSignal T c xs ws
        → AllZip IsWithin qs ws }
{}

/// A greater radius before the first section never gives a smaller one behind the last.
pub fn greater_radius_gives_no_smaller()
    ensures { (w : Whole) (r s : ℤ) → r ≤ℤ s → last_radius (numbers_of w) r ≤ℤ last_radius (numbers_of w) s }
{}

/// No answer's radius is above the one that follows from a radius that is at least that of each point, and so from the
/// stated bound of the adaptor's points, rounded up to whole units. (The exponent is 16 or 17.)
pub fn answers_are_narrow()
    ensures any { (w : Whole) (ps qs : List Point) (r : ℤ) → pos 0 ≤ℤ r → AreAnswers (numbers_of w) ps qs
        → All (λ p. p.radius ≤ℤ r) ps
        → All (λ q. q.radius ≤ℤ last_radius (numbers_of w) r) qs }
    ensures adaptor { (e : ℕ) (vs : List Interval) (us means ys : List Fraction) (w : Whole)
        (ps qs : List Point) (delta a r width : Fraction)
        → 16 ≤ e → e ≤ 17 → IsAdapted e us means ys → AreClose delta a r vs us means → CoversOutput delta a r width
        → ArePoints e vs ps
        → AreAnswers (numbers_of w) ps qs → All (λ q. q.radius ≤ℤ last_radius (numbers_of w) (units_above width)) qs }
{}

/// The rule's bound holds for all sections in a row, whatever their gains.
pub fn rule_bounds_the_chain()
    ensures { (gains : List Gain)
        → BoundsChain (map coefs_of gains) (chain_input (map gain_numbers gains))
        (chain_rounding (map gain_numbers gains)) }
{}

/// The bound of a whole cascade keeps its promise on the sections behind the first, and its limits.
pub fn whole_bounds_the_chain()
    ensures bounds { (w : Whole)
        → BoundsChain (drop 1 (numbers_of w).coefs) (numbers_of w).chain_input (numbers_of w).chain_rounding }
    ensures input { (w : Whole) → (pos 0 ≤ℤ (numbers_of w).chain_input) × ((numbers_of w).chain_input <ℤ pos (2 ^ 36)) }
    ensures rounding { (w : Whole)
        → (pos 0 ≤ℤ (numbers_of w).chain_rounding) × ((numbers_of w).chain_rounding <ℤ pos (2 ^ 40)) }
    ensures radius { (w : Whole) → last_radius (numbers_of w) (pos greatest_point) <ℤ pos (2 ^ 60) }
{}

/// The bounds of cascades whose gains are those of the certificates that are made for the same sections have the same
/// numbers: the digits of all answers follow from the coefficients.
pub fn certified_sections_have_one_filter()
    ensures { (ks : List Coefs) (gs hs : List Gain) (w v : Whole) → AreCertified ks gs → AreCertified ks hs
        → IsWholeOf gs w → IsWholeOf hs v
        → numbers_of w ≡ numbers_of v }
{}
