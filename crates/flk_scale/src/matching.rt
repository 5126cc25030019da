//! Whether a channel of a configuration can be measured, and the lamp of its line frequency.

ghost use Rattle.std.specs.Prelude.{◌≤◌, ◌↔◌, IsTrue, OnOk, IfOk, IfErr};
ghost use Rattle.flk_cfg.specs.declared.config.Analog.{Analog as AnalogView};
ghost use Rattle.flk_scale.specs.Channel.{IsChannel, IsFrequencyOf};
ghost use Rattle.flk_scale.specs.Scale.{IsScaleOf};
ghost use Rattle.flk_scale.specs.Matching.{CanBeMeasured, IsChannelFault, IsFrequencyFault};

use crate::fault::MatchFault;
use crate::scale::{Scale, ScaleFault};
use crate::supply::Supply;
use flk_cfg::Config;
use flk_num::Lamp;
use flk_text::DecimalValue;

/// The scale of a configuration's channel, whose number counts from 1, on this supply. Takes no memory.
///
/// The fault is the first test that fails: `Channel` exactly where the number is above the count of analog channels;
/// `Unit` exactly where the channel's unit isn't `V` or `kV`, in letters of any case; `Scale` exactly where its a or b
/// is above 10000 in size.
pub fn match_channel(channel: u16, supply: &Supply, c: &Config) -> Result<Scale, MatchFault>
    requires { 1 ≤ channel }
    ensures matched { OnOk result (CanBeMeasured c.now channel) }
    ensures scale { IfOk result (λ s. (a : AnalogView) × IsChannel c.now channel a × IsScaleOf a supply.now s) }
    ensures fault { IfErr result (IsChannelFault c.now channel) }
{
    let channels = c.analog.as_slice();
    let Some(analog) = channels.get(usize::from(channel) - 1) else {
        return Err(MatchFault::Channel {
            asked: channel,
            there: channels.len() as u16,
        });
    };
    match Scale::new(analog, supply) {
        Ok(scale) => Ok(scale),
        Err(ScaleFault::Unit) => Err(MatchFault::Unit { channel }),
        Err(ScaleFault::Scale) => Err(MatchFault::Scale { channel }),
    }
}

// 50 and 60 Hz in units of 10^-24.
const FIFTY_HERTZ: i128 = 50_000_000_000_000_000_000_000_000;

const SIXTY_HERTZ: i128 = 60_000_000_000_000_000_000_000_000;

/// Whether a line frequency in units of 10^-24 of a hertz is exactly the nominal one of the lamp's supply, 50 or 60 Hz.
/// Takes no memory.
pub fn is_frequency_of(lamp: Lamp, lf: DecimalValue) -> bool
    ensures { IsTrue result ↔ IsFrequencyOf lamp lf.n }
{
    match lamp {
        Lamp::L230 => lf.n == FIFTY_HERTZ,
        Lamp::L120 => lf.n == SIXTY_HERTZ,
    }
}

/// The lamp whose supply has this line frequency. The fault is `Lamp`, with 0 hertz, exactly where it is neither 50 nor
/// 60 Hz. Takes no memory.
pub fn match_lamp(lf: DecimalValue) -> Result<Lamp, MatchFault>
    ensures lamp { IfOk result (λ lamp. IsFrequencyOf lamp lf.n) }
    ensures fault { IfErr result (IsFrequencyFault lf) }
{
    if is_frequency_of(Lamp::L230, lf) {
        return Ok(Lamp::L230);
    }
    if is_frequency_of(Lamp::L120, lf) {
        return Ok(Lamp::L120);
    }
    Err(MatchFault::Lamp { hertz: 0, lf })
}
