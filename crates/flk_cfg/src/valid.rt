//! The configurations that a file can write.

ghost use Rattle.std.specs.Prelude.{◌≡◌, ◌↔◌, ℕ, ◌*◌, ◌^◌, ◌<◌, ◌≤◌, ◌<ℤ◌, pos, length, All, IsTrue, true, false};
ghost use Rattle.std.specs.List.{list_all};
ghost use Rattle.flk_text.specs.DigitsRead.{IsLong};
ghost use Rattle.flk_cfg.specs.Valid.{is_name_byte as is_name_byte_of, IsName, IsValue, IsSideLetter, IsValidStamp, IsValidAnalog, IsValidDigital, IsValid};

use crate::config::{Analog, Config, Digital, MOST_CHANNELS, Stamp};
use flk_field::{LONGEST_TEXT, is_date, is_of_a_day};
use flk_text::DecimalValue;

/// 10^12 in units of 10^-24.
const GREATEST: u128 = 1_000_000_000_000_000_000_000_000_000_000_000_000;

/// Whether a file can write the configuration: it has 1 to 256 analog and at most 256 digital channels; each text has
/// at most 64 bytes, no comma, CR, LF and 1A, and no space at either end; each decimal is of the set that `decimal` of
/// `flk_text` reads; each letter is `P`, `p`, `S` or `s`; the dates are those of the calendar from year 1 on, and the
/// times those of a day; the line frequency is above 0, and there is at least one record. Every configuration that
/// [`crate::read_cfg`] answers is so.
pub fn valid_cfg(c: &Config) -> bool
    ensures { IsTrue result ↔ IsValid c.now }
{
    has_names(c) && has_channels(c) && has_settings(c)
}

/// Whether the station's and the device's names are texts that a field can be.
fn has_names(c: &Config) -> bool
    ensures { IsTrue result ↔ (IsName c.now.station × IsName c.now.device) }
{
    is_name(c.station.as_slice()) && is_name(c.device.as_slice())
}

/// Whether the channels can be written.
fn has_channels(c: &Config) -> bool
    ensures { IsTrue result ↔ ((1 ≤ length c.now.analog) × (length c.now.analog ≤ 256) × All IsValidAnalog c.now.analog
        × (length c.now.digital ≤ 256) × All IsValidDigital c.now.digital) }
{
    let analog = c.analog.as_slice();
    let digital = c.digital.as_slice();
    !analog.is_empty()
        && analog.len() <= MOST_CHANNELS as usize
        && all_analog(analog)
        && digital.len() <= MOST_CHANNELS as usize
        && all_digital(digital)
}

/// Whether what follows the channels can be written.
fn has_settings(c: &Config) -> bool
    ensures { IsTrue result ↔ ((IsValue c.now.lf.n × (pos 0 <ℤ c.now.lf.n))
        × ((1 ≤ c.now.endsamp) × (c.now.endsamp ≤ 4294967295)) × (IsValidStamp c.now.first × IsValidStamp c.now.trigger)
        × IsValue c.now.timemult.n) }
{
    is_frequency(c.lf) && is_count(c.endsamp) && has_stamps(c) && is_value(c.timemult)
}

/// Whether the dates and times can be written.
fn has_stamps(c: &Config) -> bool
    ensures { IsTrue result ↔ (IsValidStamp c.now.first × IsValidStamp c.now.trigger) }
{
    is_stamp(&c.first) && is_stamp(&c.trigger)
}

/// Whether there is at least one record.
fn is_count(endsamp: u32) -> bool
    ensures { IsTrue result ↔ ((1 ≤ endsamp) × (endsamp ≤ 4294967295)) }
{
    endsamp >= 1
}

/// Whether the line frequency is in the set, and above 0.
fn is_frequency(lf: DecimalValue) -> bool
    ensures { IsTrue result ↔ (IsValue lf.n × (pos 0 <ℤ lf.n)) }
{
    is_value(lf) && lf.n > 0
}

/// Whether each channel can be written.
fn all_analog(channels: &[Analog]) -> bool
    ensures { IsTrue result ↔ All IsValidAnalog channels.now }
{
    for channel in channels {
        if !is_analog(channel) {
            return false;
        }
    }
    true
}

/// Whether each channel can be written.
fn all_digital(channels: &[Digital]) -> bool
    ensures { IsTrue result ↔ All IsValidDigital channels.now }
{
    for channel in channels {
        if !is_digital(channel) {
            return false;
        }
    }
    true
}

/// Whether an analog channel can be written.
fn is_analog(channel: &Analog) -> bool
    ensures { IsTrue result ↔ IsValidAnalog channel.now }
{
    has_analog_names(channel) && has_analog_values(channel)
}

/// Whether the texts of an analog channel are texts that a field can be.
fn has_analog_names(channel: &Analog) -> bool
    ensures { IsTrue result ↔ ((IsName channel.now.id × IsName channel.now.ph)
        × (IsName channel.now.ccbm × IsName channel.now.uu)) }
{
    is_name(channel.id.as_slice())
        && is_name(channel.ph.as_slice())
        && is_name(channel.ccbm.as_slice())
        && is_name(channel.uu.as_slice())
}

/// Whether the numbers of an analog channel are in the set, and its letter is one of the four.
fn has_analog_values(channel: &Analog) -> bool
    ensures { IsTrue result ↔ (((IsValue channel.now.a.n × IsValue channel.now.b.n × IsValue channel.now.skew.n)
        × ((IsValue channel.now.min.n × IsValue channel.now.max.n)
        × (IsValue channel.now.primary.n × IsValue channel.now.secondary.n))) × IsSideLetter channel.now.ps) }
{
    has_numbers(channel) && is_side(channel.ps)
}

/// Whether the numbers of an analog channel are in the set.
fn has_numbers(channel: &Analog) -> bool
    ensures { IsTrue result ↔ ((IsValue channel.now.a.n × IsValue channel.now.b.n × IsValue channel.now.skew.n)
        × ((IsValue channel.now.min.n × IsValue channel.now.max.n)
        × (IsValue channel.now.primary.n × IsValue channel.now.secondary.n))) }
{
    has_scale(channel) && has_range(channel)
}

/// Whether the multiplier, the offset and the skew are in the set.
fn has_scale(channel: &Analog) -> bool
    ensures { IsTrue result ↔ (IsValue channel.now.a.n × IsValue channel.now.b.n × IsValue channel.now.skew.n) }
{
    is_value(channel.a) && is_value(channel.b) && is_value(channel.skew)
}

/// Whether the least and the greatest sample and the two factors are in the set.
fn has_range(channel: &Analog) -> bool
    ensures { IsTrue result ↔ ((IsValue channel.now.min.n × IsValue channel.now.max.n)
        × (IsValue channel.now.primary.n × IsValue channel.now.secondary.n)) }
{
    is_value(channel.min)
        && is_value(channel.max)
        && is_value(channel.primary)
        && is_value(channel.secondary)
}

/// Whether a digital channel can be written.
fn is_digital(channel: &Digital) -> bool
    ensures { IsTrue result ↔ IsValidDigital channel.now }
{
    is_name(channel.id.as_slice())
        && is_name(channel.ph.as_slice())
        && is_name(channel.ccbm.as_slice())
}

/// Whether the byte is one of the four letters.
fn is_side(letter: u8) -> bool
    ensures { IsTrue result ↔ IsSideLetter letter }
{
    matches!(letter, b'P' | b'p' | b'S' | b's')
}

/// Whether the date is one of the calendar from year 1 on, and the time one of a day.
fn is_stamp(stamp: &Stamp) -> bool
    ensures { IsTrue result ↔ IsValidStamp stamp.now }
{
    is_date(stamp.year, stamp.month, stamp.day)
        && is_of_a_day(stamp.hour, stamp.minute, stamp.second)
        && stamp.nanos <= 999_999_999
}

/// Whether the decimal is in the set.
fn is_value(value: DecimalValue) -> bool
    ensures { IsTrue result ↔ IsValue value.n }
{
    let units = value.n.unsigned_abs();
    units <= GREATEST && is_short(units)
}

/// Whether a number has at most 18 digits without the zeros at its end.
fn is_short(number: u128) -> bool
    ensures short { IsTrue result → (m : ℕ) × (places : ℕ) × (number ≡ m * 10 ^ places) × (m < 10 ^ 18) }
    ensures long { result ≡ false → IsLong number }
{
    let mut left = number;
    while left >= 1_000_000_000_000_000_000 {
        if left % 10 != 0 {
            return false;
        }
        left /= 10;
    }
    true
}

/// Whether the text is one that a field can be.
fn is_name(text: &[u8]) -> bool
    ensures { IsTrue result ↔ IsName text.now }
{
    text.len() <= LONGEST_TEXT
        && has_name_bytes(text)
        && !matches!(text.first(), Some(b' '))
        && !matches!(text.last(), Some(b' '))
}

/// Whether no comma, CR, LF or 1A is among the bytes.
fn has_name_bytes(text: &[u8]) -> bool
    ensures { result ≡ list_all is_name_byte_of text.now }
{
    for byte in text {
        if !is_name_byte(*byte) {
            return false;
        }
    }
    true
}

/// Whether the byte is no comma, CR, LF or 1A.
fn is_name_byte(byte: u8) -> bool
    ensures { result ≡ is_name_byte_of byte }
{
    byte != b',' && byte != b'\r' && byte != b'\n' && byte != 0x1a
}
