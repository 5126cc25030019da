//! The units of channels of voltages.

ghost use Rattle.std.specs.Prelude.{◌≡◌, ◌*◌, ◌^◌, ◌<◌, ◌≤◌, IfSome, IfNone};
ghost use Rattle.flk_scale.specs.Voltage.{IsVoltageUnit, microvolts_in};
ghost use Rattle.flk_scale.specs.Unit.{microvolts};

use crate::supply::Supply;

/// A unit of voltage.
#[derive(Clone, Copy, Debug)]
pub enum VoltageUnit {
    Volt,
    Kilovolt,
}

/// The unit that a text names: `V` or `kV`, in letters of any case.
pub fn unit_of(text: &[u8]) -> Option<VoltageUnit>
    ensures some { IfSome result (λ u. IsVoltageUnit text.now × (microvolts u ≡ microvolts_in text.now)) }
    ensures none { IfNone result (¬ IsVoltageUnit text.now) }
{
    if text.eq_ignore_ascii_case(b"kV") {
        return Some(VoltageUnit::Kilovolt);
    }
    if text.eq_ignore_ascii_case(b"V") {
        return Some(VoltageUnit::Volt);
    }
    None
}

// A microvolt in units of 10^-24 of a volt, and of a kilovolt.
const OF_A_VOLT: u128 = 1_000_000_000_000_000_000;

const OF_A_KILOVOLT: u128 = 1_000_000_000_000_000;

impl VoltageUnit {
    // A microvolt, in units of 10^-24 of this unit.
    fn microvolt(self) -> u128
        ensures value { result * microvolts self ≡ 10 ^ 24 }
        ensures low { 10 ^ 15 ≤ result }
        ensures high { result ≤ 10 ^ 18 }
    {
        match self {
            VoltageUnit::Volt => OF_A_VOLT,
            VoltageUnit::Kilovolt => OF_A_KILOVOLT,
        }
    }

    /// The nominal voltage, in units of 10^-24 of this unit.
    pub fn nominal(self, supply: Supply) -> u128
        ensures value { result * microvolts self ≡ 1000 * supply.nominal_mv * 10 ^ 24 }
        ensures low { 10 ^ 21 ≤ result }
        ensures high { result ≤ 10 ^ 27 }
    {
        u128::from(1000 * supply.nominal_mv) * self.microvolt()
    }

    /// The uncertainty, in units of 10^-24 of this unit.
    pub fn uncertainty(self, supply: Supply) -> u128
        ensures value { result * microvolts self ≡ supply.uncertainty_uv * 10 ^ 24 }
        ensures high { result ≤ 10 ^ 25 }
    {
        u128::from(supply.uncertainty_uv) * self.microvolt()
    }
}
