//! Laws of the definitions. Each function here has an empty body, and its contract is the law. Nothing here runs.
//!
//! Nominal voltages are in millivolts, uncertainties and recorded voltages in microvolts.

ghost use Rattle.std.specs.Prelude.{◌≡◌, ◌⊎◌, ◌*◌, ◌<◌, ◌≤◌, ℕ, List, ℤ, pos};
ghost use Rattle.std.specs.Int.RustNames.{unsigned_abs};
ghost use Rattle.flk_exact.specs.Fraction.{Fraction, ◌≤ℚ◌, ◌+ℚ◌, ◌-ℚ◌, units};
ghost use Rattle.flk_exact.specs.Run.{IsAdmitted, CoversDoubt};
ghost use Rattle.flk_num.specs.declared.interval.Interval.{Interval};
ghost use Rattle.flk_num.specs.Interval.{Holds, IsNarrow, IsNear, IsSmall, hundredth};
ghost use Rattle.flk_num.specs.declared.lamp.Lamp.{Lamp as LampView};
ghost use Rattle.flk_cfg.specs.declared.config.Config.{Config};
ghost use Rattle.flk_scale.specs.declared.fault.MatchFault.{MatchFault};
ghost use Rattle.flk_scale.specs.Channel.{IsFrequencyOf};
ghost use Rattle.flk_scale.specs.Matching.{CanBeMeasured, IsChannelFault, IsOtherFrequency};
ghost use Rattle.flk_scale.specs.Range.{IsWithinRange, IsFirstOver};
ghost use Rattle.flk_scale.specs.Voltage.{IsOverRange, IsVoltageInterval, IsRelative, greatest_voltage};

/// A channel, whose number counts from 1, can be measured or has one fault, and never both. So `match_channel` answers
/// each of its faults exactly where it is the channel's.
pub fn channel_can_be_measured_or_has_one_fault()
    ensures cases { (c : Config) (channel : ℕ) → 1 ≤ channel
        → CanBeMeasured c channel ⊎ ((f : MatchFault) × IsChannelFault c channel f) }
    ensures excluded { (c : Config) (channel : ℕ) (f : MatchFault)
        → CanBeMeasured c channel → IsChannelFault c channel f → ⊥ }
    ensures one { (c : Config) (channel : ℕ) (f g : MatchFault)
        → IsChannelFault c channel f → IsChannelFault c channel g → f ≡ g }
{}

/// A line frequency is that of one lamp's supply, or of none.
pub fn frequency_has_one_lamp_or_none()
    ensures cases { (n : ℤ) → ((lamp : LampView) × IsFrequencyOf lamp n) ⊎ IsOtherFrequency n }
    ensures one { (n : ℤ) (lamp other : LampView) → IsFrequencyOf lamp n → IsFrequencyOf other n → lamp ≡ other }
{}

/// Recorded voltages are all within range, or have one first that is over range.
pub fn recorded_voltages_are_within_range_or_have_a_first_over()
    ensures cases { (nominal : ℕ) (recorded : List Fraction)
        → IsWithinRange nominal recorded ⊎ ((i : ℕ) × IsFirstOver nominal recorded i) }
    ensures excluded { (nominal : ℕ) (recorded : List Fraction) (i : ℕ)
        → IsWithinRange nominal recorded → IsFirstOver nominal recorded i → ⊥ }
    ensures one { (nominal : ℕ) (recorded : List Fraction) (i j : ℕ)
        → IsFirstOver nominal recorded i → IsFirstOver nominal recorded j → i ≡ j }
{}

/// A recorded voltage has one interval.
pub fn voltage_has_one_interval()
    ensures { (nominal uncertainty : ℕ) (recorded : Fraction) (v w : Interval)
        → IsVoltageInterval nominal uncertainty recorded v → IsVoltageInterval nominal uncertainty recorded w
        → (v.lo ≡ w.lo) × (v.hi ≡ w.hi) }
{}

/// The interval of a recorded voltage holds each exact voltage that it admits.
pub fn interval_holds_each_admitted_voltage()
    ensures { (nominal uncertainty : ℕ) (recorded u : Fraction) (v : Interval) → 0 < nominal
        → IsVoltageInterval nominal uncertainty recorded v → IsAdmitted (1000 * nominal) uncertainty recorded u
        → Holds v u }
{}

/// It is at most `2 * delta` wide, where delta covers the doubt.
pub fn interval_is_narrow()
    ensures { (nominal uncertainty : ℕ) (recorded delta : Fraction) (v : Interval) → 0 < nominal
        → IsVoltageInterval nominal uncertainty recorded v → CoversDoubt (1000 * nominal) uncertainty delta
        → IsNarrow delta v }
{}

/// Both its ends are at most `delta - 2^-48` away from the recorded voltage, relative to nominal.
pub fn interval_is_near()
    ensures { (nominal uncertainty : ℕ) (recorded u delta : Fraction) (v : Interval) → 0 < nominal
        → IsVoltageInterval nominal uncertainty recorded v → IsRelative nominal recorded u
        → CoversDoubt (1000 * nominal) uncertainty delta → IsNear (delta -ℚ units (pos 1)) v u }
{}

/// Its ends are at most 4.01 times nominal in size, rounded up, where the recorded voltage isn't over range and the
/// uncertainty is at most a hundredth of nominal.
pub fn interval_is_small()
    ensures ends { (nominal uncertainty : ℕ) (recorded : Fraction) (v : Interval)
        → 0 < nominal → uncertainty ≤ 10 * nominal → ¬ IsOverRange nominal recorded
        → IsVoltageInterval nominal uncertainty recorded v
        → (unsigned_abs v.lo ≤ greatest_voltage) × (unsigned_abs v.hi ≤ greatest_voltage) }
    ensures small { (nominal uncertainty : ℕ) (recorded : Fraction) (v : Interval)
        → 0 < nominal → uncertainty ≤ 10 * nominal → ¬ IsOverRange nominal recorded
        → IsVoltageInterval nominal uncertainty recorded v → IsSmall v }
{}

/// Each delta that covers the doubt is at least 2^-47, and one of them is at most `1/100 + 2^-47`, where the
/// uncertainty is at most a hundredth of nominal.
pub fn doubt_is_covered()
    ensures covered { (nominal uncertainty : ℕ) → 0 < nominal → uncertainty ≤ 10 * nominal
        → (delta : Fraction) × CoversDoubt (1000 * nominal) uncertainty delta
        × (delta ≤ℚ (hundredth +ℚ units (pos 2))) }
    ensures least { (nominal uncertainty : ℕ) (delta : Fraction)
        → 0 < nominal → CoversDoubt (1000 * nominal) uncertainty delta → units (pos 2) ≤ℚ delta }
{}
