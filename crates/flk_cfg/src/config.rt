//! What a configuration says.

use flk_field::Form;
use flk_num::{List, Rate};
use flk_text::DecimalValue;

/// The most channels of a kind.
pub const MOST_CHANNELS: u32 = 256;

/// A date of the proleptic Gregorian calendar, from year 1 on, and a time of that day.
#[derive(Clone, Copy, Debug, PartialEq, Eq)]
pub struct Stamp {
    /// From 1 to 9999.
    pub year: i16,
    /// From 1 to 12.
    pub month: u8,
    /// From 1 to the month's last day.
    pub day: u8,
    /// From 0 to 23.
    pub hour: u8,
    /// From 0 to 59.
    pub minute: u8,
    /// From 0 to 59.
    pub second: u8,
    /// Nanoseconds of the second, from 0 to 999999999.
    pub nanos: u32,
}

/// An analog channel. The texts have at most 64 bytes. A sample of x stands for `a * x + b` units.
#[derive(Drop)]
pub struct Analog {
    /// The channel's name, `ch_id`.
    pub id: List<u8>,
    /// The phase, `ph`.
    pub ph: List<u8>,
    /// The circuit component that is monitored, `ccbm`.
    pub ccbm: List<u8>,
    /// The unit, `uu`.
    pub uu: List<u8>,
    /// The multiplier.
    pub a: DecimalValue,
    /// The offset.
    pub b: DecimalValue,
    /// The channel's delay within a sample period, in microseconds.
    pub skew: DecimalValue,
    /// The least sample.
    pub min: DecimalValue,
    /// The greatest sample.
    pub max: DecimalValue,
    /// The primary factor of the transformer's ratio.
    pub primary: DecimalValue,
    /// The secondary factor of the transformer's ratio.
    pub secondary: DecimalValue,
    /// Whether the values are primary or secondary ones: the byte `P`, `p`, `S` or `s`, as it is written.
    pub ps: u8,
}

/// A digital channel. The texts have at most 64 bytes.
#[derive(Drop)]
pub struct Digital {
    /// The channel's name, `ch_id`.
    pub id: List<u8>,
    /// The phase, `ph`.
    pub ph: List<u8>,
    /// The circuit component that is monitored, `ccbm`.
    pub ccbm: List<u8>,
    /// The normal state, `y`.
    pub normal: bool,
}

/// What a configuration of one sampling rate, 2400 or 4800 samples a second, says.
#[derive(Drop)]
pub struct Config {
    /// The station's name, at most 64 bytes.
    pub station: List<u8>,
    /// The recording device, at most 64 bytes.
    pub device: List<u8>,
    /// The analog channels, from 1 to 256.
    pub analog: List<Analog>,
    /// The digital channels, at most 256.
    pub digital: List<Digital>,
    /// The line frequency in hertz, above 0.
    pub lf: DecimalValue,
    /// The sampling rate, `samp`.
    pub rate: Rate,
    /// The number of records, from 1 to 4294967295.
    pub endsamp: u32,
    /// When the first record was sampled.
    pub first: Stamp,
    /// When the recording was triggered.
    pub trigger: Stamp,
    /// The form of the data file.
    pub form: Form,
    /// The factor of the time stamps.
    pub timemult: DecimalValue,
}
