//! The configuration of a generated recording.

ghost use Rattle.std.specs.Prelude.{◌≡◌, ◌≤◌, IfOk};
ghost use Rattle.flk_gen.specs.Recording.{generated_channel, generated_configuration as configuration_of};

use flk_cfg::{Analog, Config, Form, Stamp};
use flk_num::{List, Rate};
use flk_text::DecimalValue;
use std::alloc::{AllocError, Global};

const NOTHING: DecimalValue = DecimalValue { n: 0 };

const ONE: DecimalValue = DecimalValue {
    n: 1_000_000_000_000_000_000_000_000,
};

/// 0.0125 V for each unit of a sample.
const STEP: DecimalValue = DecimalValue {
    n: 12_500_000_000_000_000_000_000,
};

const LEAST: DecimalValue = DecimalValue {
    n: -99_999_000_000_000_000_000_000_000_000,
};

const GREATEST: DecimalValue = DecimalValue {
    n: 99_999_000_000_000_000_000_000_000_000,
};

const FIFTY: DecimalValue = DecimalValue {
    n: 50_000_000_000_000_000_000_000_000,
};

const START: Stamp = Stamp {
    year: 2000,
    month: 1,
    day: 1,
    hour: 0,
    minute: 0,
    second: 0,
    nanos: 0,
};

// The channel of this name and phase.
fn voltage(alloc: Global, id: &[u8], ph: &[u8]) -> Result<Analog, AllocError>
    ensures { IfOk result (λ a. a ≡ generated_channel id.now ph.now) }
{
    Ok(Analog {
        id: List::from_slice(alloc, id)?,
        ph: List::from_slice(alloc, ph)?,
        ccbm: List::new(alloc),
        uu: List::from_slice(alloc, b"V")?,
        a: STEP,
        b: NOTHING,
        skew: NOTHING,
        min: LEAST,
        max: GREATEST,
        primary: ONE,
        secondary: ONE,
        ps: b'P',
    })
}

/// The configuration of a generated recording of 1 to 8000 seconds: three voltages at 50 Hz, and ASCII data of 2400
/// samples a second.
pub fn generated_configuration(alloc: Global, seconds: u32) -> Result<Config, AllocError>
    requires { (1 ≤ seconds) × (seconds ≤ 8000) }
    ensures { IfOk result (λ c. c ≡ configuration_of seconds) }
{
    let mut analog = List::new(alloc);
    analog.push(voltage(alloc, b"UA", b"A")?)?;
    analog.push(voltage(alloc, b"UB", b"B")?)?;
    analog.push(voltage(alloc, b"UC", b"C")?)?;
    Ok(Config {
        station: List::from_slice(alloc, b"GENERATED")?,
        device: List::from_slice(alloc, b"FLK")?,
        analog,
        digital: List::new(alloc),
        lf: FIFTY,
        rate: Rate::R2400,
        endsamp: 2400 * seconds,
        first: START,
        trigger: START,
        form: Form::Ascii,
        timemult: ONE,
    })
}
