//! The supply of a recording.

ghost use Rattle.std.specs.Prelude.{◌*◌, ◌≤◌};

/// The supply of a recording.
#[derive(Clone, Copy, Debug)]
pub struct Supply {
    /// The nominal voltage in millivolts, from 1000 to 1000000.
    pub nominal_mv: u32,
    /// How far each exact voltage may lie from the recorded one, in microvolts: at most a hundredth of nominal.
    pub uncertainty_uv: u32,
    pub ghost nominal_low: { 1000 ≤ nominal_mv },
    pub ghost nominal_high: { nominal_mv ≤ 1000000 },
    pub ghost uncertainty_high: { uncertainty_uv ≤ 10 * nominal_mv },
}
