//! The coefficients of a lamp's filter at a sampling rate.

ghost use Rattle.flk_num.specs.Rate.{sampling_interval};
ghost use Rattle.flk_num.specs.declared.rate.Rate.TheVariants.{R2400};
ghost use Rattle.flk_design.specs.Lamp.{constants_of};
ghost use Rattle.flk_design.specs.Design.{IsDesign};

use crate::rate_2400::design_2400;
use crate::rate_4800::design_4800;
use flk_cert::Coefs;
use flk_num::{Lamp, Rate};

/// The coefficients of the seven sections of the lamp's filter at a sampling rate, over 2^32, after IEC 61000-4-15: the
/// high-pass at 0.05 Hz, the low-pass of sixth order after Butterworth (35 or 42 Hz) in three sections, and the
/// weighting filter in three (band-pass, lead and lag, last lag), by the bilinear transform, each quotient rounded to
/// the nearest.
pub fn design_at(lamp: Lamp, rate: Rate) -> [Coefs; 7]
    ensures { IsDesign (sampling_interval rate) (constants_of lamp) result }
{
    match rate {
        Rate::R2400 => design_2400(lamp),
        Rate::R4800 => design_4800(lamp),
    }
}

/// The coefficients at 2400 samples a second: what [`design_at`] answers for [`Rate::R2400`].
pub fn design(lamp: Lamp) -> [Coefs; 7]
    ensures { IsDesign (sampling_interval R2400) (constants_of lamp) result }
{
    design_at(lamp, Rate::R2400)
}
