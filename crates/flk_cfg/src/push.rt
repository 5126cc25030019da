//! The lines of the canonical text, appended to bytes.

ghost use Rattle.std.specs.Prelude.{◌≡◌, ◌+◌, ◌%◌, ◌/◌, ◌<◌, ◌≤◌, ◌^◌, ◌++◌, ◌∷◌, [], length, codes, OnOk, unsigned_abs, decimal};
ghost use Rattle.flk_text.specs.PlainText.{plain};
ghost use Rattle.flk_cfg.specs.Canonical.{padded, date_text, second_digits, time_text, form_text, rate_text, title_fields, counts_fields, analog_fields, digital_fields, analog_lines, digital_lines, stamp_fields, setting_lines, line_text, lines_text};
ghost use Rattle.flk_cfg.specs.Valid.{IsValidStamp};

use crate::config::{Analog, Config, Digital, Stamp};
use flk_field::Form;
use flk_num::Rate;
use flk_text::{DecimalValue, push_decimal};
use itoa::Buffer;
use std::alloc::AllocError;

/// Appends a text and a comma.
fn push_text(out: &mut Vec<u8>, text: &[u8]) -> Result<(), AllocError>
    ensures { OnOk result (out.new.items ≡ out.old.items ++ (text.now ++ 44 ∷ [])) }
{
    out.extend_from_slice(text)?;
    out.extend_from_slice(b",")
}

/// Appends a decimal and a comma.
fn push_value(out: &mut Vec<u8>, value: DecimalValue) -> Result<(), AllocError>
    ensures { OnOk result (out.new.items ≡ out.old.items ++ (plain value.n ++ 44 ∷ [])) }
{
    push_decimal(out, value)?;
    out.extend_from_slice(b",")
}

/// Appends a whole number without leading zeros.
fn push_number(out: &mut Vec<u8>, number: u32) -> Result<(), AllocError>
    ensures { OnOk result (out.new.items ≡ out.old.items ++ decimal number) }
{
    let mut buffer = Buffer::new();
    out.extend_from_slice(buffer.format(number).as_bytes())
}

/// Appends a number in so many digits, with zeros in front.
fn push_padded(out: &mut Vec<u8>, number: u32, places: u32) -> Result<(), AllocError>
    requires places { places ≤ 9 }
    requires below { number < 10 ^ places }
    ensures { OnOk result (out.new.items ≡ out.old.items ++ padded places number) }
{
    let mut left = number;
    let mut count = places;
    while count > 0 {
        count -= 1;
        let unit = 10u32.pow(count);
        out.push(b'0' + (left / unit) as u8)?;
        left %= unit;
    }
    Ok(())
}

/// Appends a date as `dd/mm/yyyy`.
fn push_date(out: &mut Vec<u8>, stamp: &Stamp) -> Result<(), AllocError>
    requires { IsValidStamp stamp.now }
    ensures { OnOk result (out.new.items ≡ out.old.items ++ date_text stamp.now) }
{
    push_padded(out, u32::from(stamp.day), 2)?;
    out.extend_from_slice(b"/")?;
    push_padded(out, u32::from(stamp.month), 2)?;
    out.extend_from_slice(b"/")?;
    push_padded(out, u32::from(stamp.year.unsigned_abs()), 4)
}

/// Appends the fraction of a second, in six digits where they hold the nanoseconds, and else in nine.
fn push_fraction(out: &mut Vec<u8>, nanos: u32) -> Result<(), AllocError>
    requires { nanos ≤ 999999999 }
    ensures { OnOk result (out.new.items ≡ out.old.items ++ second_digits nanos) }
{
    if nanos % 1000 == 0 {
        push_padded(out, nanos / 1000, 6)
    } else {
        push_padded(out, nanos, 9)
    }
}

/// Appends a time as `hh:mm:ss.ffffff`.
fn push_time(out: &mut Vec<u8>, stamp: &Stamp) -> Result<(), AllocError>
    requires { IsValidStamp stamp.now }
    ensures { OnOk result (out.new.items ≡ out.old.items ++ time_text stamp.now) }
{
    push_padded(out, u32::from(stamp.hour), 2)?;
    out.extend_from_slice(b":")?;
    push_padded(out, u32::from(stamp.minute), 2)?;
    out.extend_from_slice(b":")?;
    push_padded(out, u32::from(stamp.second), 2)?;
    out.extend_from_slice(b".")?;
    push_fraction(out, stamp.nanos)
}

/// Appends the line of a date and a time.
fn push_stamp(out: &mut Vec<u8>, stamp: &Stamp) -> Result<(), AllocError>
    requires { IsValidStamp stamp.now }
    ensures { OnOk result (out.new.items ≡ out.old.items ++ line_text (stamp_fields stamp.now)) }
{
    push_date(out, stamp)?;
    out.extend_from_slice(b",")?;
    push_time(out, stamp)?;
    out.extend_from_slice(b"\r\n")
}

/// Appends the first line.
pub fn push_title(out: &mut Vec<u8>, c: &Config) -> Result<(), AllocError>
    ensures { OnOk result (out.new.items ≡ out.old.items ++ line_text (title_fields c.now)) }
{
    push_text(out, c.station.as_slice())?;
    push_text(out, c.device.as_slice())?;
    out.extend_from_slice(b"1999\r\n")
}

/// Appends the second line, which counts the channels.
pub fn push_counts(out: &mut Vec<u8>, analog: u32, digital: u32) -> Result<(), AllocError>
    requires few { (analog ≤ 256) × (digital ≤ 256) }
    ensures { OnOk result (out.new.items ≡ out.old.items ++ line_text (counts_fields analog digital)) }
{
    push_number(out, analog + digital)?;
    out.extend_from_slice(b",")?;
    push_number(out, analog)?;
    out.extend_from_slice(b"A,")?;
    push_number(out, digital)?;
    out.extend_from_slice(b"D\r\n")
}

/// Appends the position and the texts of an analog channel.
fn push_names(out: &mut Vec<u8>, position: u32, channel: &Analog) -> Result<(), AllocError>
    ensures { OnOk result (out.new.items ≡ out.old.items
        ++ (decimal position ++ 44 ∷ (channel.now.id ++ 44 ∷ (channel.now.ph ++ 44 ∷ (channel.now.ccbm ++ 44
        ∷ (channel.now.uu ++ 44 ∷ [])))))) }
{
    push_number(out, position)?;
    out.extend_from_slice(b",")?;
    push_text(out, channel.id.as_slice())?;
    push_text(out, channel.ph.as_slice())?;
    push_text(out, channel.ccbm.as_slice())?;
    push_text(out, channel.uu.as_slice())
}

/// Appends the multiplier, the offset and the skew of an analog channel.
fn push_scale(out: &mut Vec<u8>, channel: &Analog) -> Result<(), AllocError>
    ensures { OnOk result (out.new.items ≡ out.old.items
        ++ (plain channel.now.a.n ++ 44 ∷ (plain channel.now.b.n ++ 44 ∷ (plain channel.now.skew.n ++ 44 ∷ [])))) }
{
    push_value(out, channel.a)?;
    push_value(out, channel.b)?;
    push_value(out, channel.skew)
}

/// Appends the least and the greatest sample and the two factors of an analog channel.
fn push_ranges(out: &mut Vec<u8>, channel: &Analog) -> Result<(), AllocError>
    ensures { OnOk result (out.new.items ≡ out.old.items
        ++ (plain channel.now.min.n ++ 44 ∷ (plain channel.now.max.n ++ 44 ∷ (plain channel.now.primary.n ++ 44
        ∷ (plain channel.now.secondary.n ++ 44 ∷ []))))) }
{
    push_value(out, channel.min)?;
    push_value(out, channel.max)?;
    push_value(out, channel.primary)?;
    push_value(out, channel.secondary)
}

/// Appends the line of an analog channel.
fn push_analog(out: &mut Vec<u8>, position: u32, channel: &Analog) -> Result<(), AllocError>
    ensures { OnOk result (out.new.items ≡ out.old.items ++ line_text (analog_fields position channel.now)) }
{
    push_names(out, position, channel)?;
    push_scale(out, channel)?;
    push_ranges(out, channel)?;
    out.extend_from_slice(&[channel.ps, b'\r', b'\n'])
}

/// Appends the line of a digital channel.
fn push_digital(out: &mut Vec<u8>, position: u32, channel: &Digital) -> Result<(), AllocError>
    ensures { OnOk result (out.new.items ≡ out.old.items ++ line_text (digital_fields position channel.now)) }
{
    push_number(out, position)?;
    out.extend_from_slice(b",")?;
    push_text(out, channel.id.as_slice())?;
    push_text(out, channel.ph.as_slice())?;
    push_text(out, channel.ccbm.as_slice())?;
    push_number(out, u32::from(channel.normal))?;
    out.extend_from_slice(b"\r\n")
}

/// Appends the lines of the analog channels.
pub fn push_analogs(out: &mut Vec<u8>, channels: &[Analog]) -> Result<(), AllocError>
    requires few { length channels.now ≤ 256 }
    ensures { OnOk result (out.new.items ≡ out.old.items ++ lines_text (analog_lines 1 channels.now)) }
{
    let mut position = 1;
    for channel in channels {
        push_analog(out, position, channel)?;
        position += 1;
    }
    Ok(())
}

/// Appends the lines of the digital channels.
pub fn push_digitals(out: &mut Vec<u8>, channels: &[Digital]) -> Result<(), AllocError>
    requires few { length channels.now ≤ 256 }
    ensures { OnOk result (out.new.items ≡ out.old.items ++ lines_text (digital_lines 1 channels.now)) }
{
    let mut position = 1;
    for channel in channels {
        push_digital(out, position, channel)?;
        position += 1;
    }
    Ok(())
}

/// Appends a sampling rate.
fn push_rate(out: &mut Vec<u8>, rate: Rate) -> Result<(), AllocError>
    ensures { OnOk result (out.new.items ≡ out.old.items ++ rate_text rate) }
{
    match rate {
        Rate::R2400 => out.extend_from_slice(b"2400"),
        Rate::R4800 => out.extend_from_slice(b"4800"),
    }
}

/// Appends the lines of the line frequency, of the number of sampling rates, and of the one rate with the number of
/// records.
fn push_sampling(
    out: &mut Vec<u8>,
    lf: DecimalValue,
    rate: Rate,
    endsamp: u32,
) -> Result<(), AllocError>
    ensures { OnOk result (out.new.items ≡ out.old.items
        ++ lines_text ((plain lf.n ∷ []) ∷ (codes "1" ∷ []) ∷ (rate_text rate ∷ decimal endsamp ∷ []) ∷ [])) }
{
    push_decimal(out, lf)?;
    out.extend_from_slice(b"\r\n1\r\n")?;
    push_rate(out, rate)?;
    out.extend_from_slice(b",")?;
    push_number(out, endsamp)?;
    out.extend_from_slice(b"\r\n")
}

/// Appends the lines of the dates and times of the first sample and of the trigger.
fn push_stamps(out: &mut Vec<u8>, first: &Stamp, trigger: &Stamp) -> Result<(), AllocError>
    requires first { IsValidStamp first.now }
    requires trigger { IsValidStamp trigger.now }
    ensures { OnOk result (out.new.items ≡ out.old.items
        ++ lines_text (stamp_fields first.now ∷ stamp_fields trigger.now ∷ [])) }
{
    push_stamp(out, first)?;
    push_stamp(out, trigger)
}

/// Appends the name of the data file's form.
fn push_form(out: &mut Vec<u8>, form: Form) -> Result<(), AllocError>
    ensures { OnOk result (out.new.items ≡ out.old.items ++ form_text form) }
{
    match form {
        Form::Ascii => out.extend_from_slice(b"ASCII"),
        Form::Binary => out.extend_from_slice(b"BINARY"),
    }
}

/// Appends the last two lines: the data file's form, and the factor of the time stamps.
fn push_end(out: &mut Vec<u8>, form: Form, timemult: DecimalValue) -> Result<(), AllocError>
    ensures { OnOk result (out.new.items ≡ out.old.items
        ++ lines_text ((form_text form ∷ []) ∷ (plain timemult.n ∷ []) ∷ [])) }
{
    push_form(out, form)?;
    out.extend_from_slice(b"\r\n")?;
    push_decimal(out, timemult)?;
    out.extend_from_slice(b"\r\n")
}

/// Appends the lines that follow those of the channels.
pub fn push_settings(out: &mut Vec<u8>, c: &Config) -> Result<(), AllocError>
    requires first { IsValidStamp c.now.first }
    requires trigger { IsValidStamp c.now.trigger }
    ensures { OnOk result (out.new.items ≡ out.old.items ++ lines_text (setting_lines c.now)) }
{
    push_sampling(out, c.lf, c.rate, c.endsamp)?;
    push_stamps(out, &c.first, &c.trigger)?;
    push_end(out, c.form, c.timemult)
}
