//! How a channel of a configuration is measured.

ghost use Rattle.std.specs.Prelude.{◌≡◌, ◌≤◌, IfOk, IfErr};
ghost use Rattle.flk_cfg.specs.declared.config.Analog.{Analog as AnalogView};
ghost use Rattle.flk_scale.specs.Scale.{IsScaleOf};
ghost use Rattle.flk_top.specs.Matching.{Matches, IsChannelMatchFault};

use flk_cfg::Config;
use flk_num::{Lamp, Rate};
use flk_scale::{MatchFault, Scale, Supply, match_channel, match_lamp};

/// How the samples of a channel are measured.
#[derive(Clone, Copy, Debug)]
pub struct Matched {
    /// The voltage of a sample.
    pub scale: Scale,
    /// The lamp whose supply has the line frequency.
    pub lamp: Lamp,
    pub rate: Rate,
}

/// How a channel, from 1, of a configuration is measured on this supply. The fault is the first test that fails.
pub fn match_levels(channel: u16, supply: &Supply, config: &Config) -> Result<Matched, MatchFault>
    requires { 1 ≤ channel }
    ensures matched { IfOk result (λ m. (a : AnalogView) × Matches config.now channel a m.lamp
        × IsScaleOf a supply.now m.scale × (m.rate ≡ config.now.rate)) }
    ensures fault { IfErr result (IsChannelMatchFault config.now channel) }
{
    let scale = match match_channel(channel, supply, config) {
        Ok(scale) => scale,
        Err(fault) => return Err(fault),
    };
    match match_lamp(config.lf) {
        Ok(lamp) => Ok(Matched {
            scale,
            lamp,
            rate: config.rate,
        }),
        Err(fault) => Err(fault),
    }
}
