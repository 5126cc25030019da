//! An ASCII record, appended to bytes that have room for it.

ghost use Rattle.std.specs.Prelude.{◌≡◌, ◌+◌, ◌*◌, ◌<◌, ◌≤◌, ◌++◌, ◌∷◌, length, vec_len, vec_capacity};
ghost use Rattle.std.specs.List.{flat_map};
ghost use Rattle.flk_dat.specs.Records.{record_at, HasWidth};
ghost use Rattle.flk_dat.specs.SampleFields.{IsSampleValue};
ghost use Rattle.flk_dat.specs.Written.{IsStampValue, IsAsciiRecord, stamp_text, written_line, value_field, bit_field};

use crate::block::Block;
use flk_text::push_whole;

/// At least the bytes of a field with its comma.
pub const FIELD_ROOM: usize = 17;

/// Appends a comma and an analog value.
fn push_value(out: &mut Vec<u8>, value: i32)
    requires range { IsSampleValue value }
    requires room { vec_len out.old + 17 ≤ vec_capacity out.old }
    ensures text { out.new.items ≡ out.old.items ++ value_field value }
    ensures len { vec_len out.new ≤ vec_len out.old + 17 }
    ensures capacity { vec_capacity out.new ≡ vec_capacity out.old }
{
    out.push_reserved(b',');
    if value < 0 {
        out.push_reserved(b'-');
    }
    push_whole(out, u64::from(value.unsigned_abs()));
}

/// Appends a comma and a time stamp, or nothing behind the comma where there is none.
fn push_stamp(out: &mut Vec<u8>, stamp: Option<u64>)
    requires range { IsStampValue stamp }
    requires room { vec_len out.old + 17 ≤ vec_capacity out.old }
    ensures text { out.new.items ≡ out.old.items ++ 44 ∷ stamp_text stamp }
    ensures len { vec_len out.new ≤ vec_len out.old + 17 }
    ensures capacity { vec_capacity out.new ≡ vec_capacity out.old }
{
    match stamp {
        Some(number) => {
            out.push_reserved(b',');
            push_whole(out, number);
        }
        None => out.push_reserved(b','),
    }
}

/// Appends a comma and a digital value.
fn push_bit(out: &mut Vec<u8>, bit: bool)
    requires room { vec_len out.old + 17 ≤ vec_capacity out.old }
    ensures text { out.new.items ≡ out.old.items ++ bit_field bit }
    ensures len { vec_len out.new ≤ vec_len out.old + 17 }
    ensures capacity { vec_capacity out.new ≡ vec_capacity out.old }
{
    out.push_reserved(b',');
    out.push_reserved(if bit { b'1' } else { b'0' });
}

/// Appends the analog values of a record.
fn push_values(out: &mut Vec<u8>, block: &Block, row: usize, analog: usize)
    requires few { analog ≤ 256 }
    requires row { row < length block.now.records }
    requires width { (analog ≡ block.now.analog)
        × HasWidth block.now.analog block.now.digital (record_at block.now.records row) }
    requires sets { IsAsciiRecord (record_at block.now.records row) }
    requires room { vec_len out.old + 17 * analog ≤ vec_capacity out.old }
    ensures text { out.new.items ≡ out.old.items ++ flat_map value_field (record_at block.now.records row).analog }
    ensures len { vec_len out.new ≤ vec_len out.old + 17 * analog }
    ensures capacity { vec_capacity out.new ≡ vec_capacity out.old }
{
    for channel in 0..analog {
        push_value(out, block.analog(row, channel));
    }
}

/// Appends the digital values of a record.
fn push_bits(out: &mut Vec<u8>, block: &Block, row: usize, digital: usize)
    requires few { digital ≤ 256 }
    requires row { row < length block.now.records }
    requires width { (digital ≡ block.now.digital)
        × HasWidth block.now.analog block.now.digital (record_at block.now.records row) }
    requires room { vec_len out.old + 17 * digital ≤ vec_capacity out.old }
    ensures text { out.new.items ≡ out.old.items ++ flat_map bit_field (record_at block.now.records row).digital }
    ensures len { vec_len out.new ≤ vec_len out.old + 17 * digital }
    ensures capacity { vec_capacity out.new ≡ vec_capacity out.old }
{
    for channel in 0..digital {
        push_bit(out, block.digital(row, channel));
    }
}

/// Appends an ASCII record.
pub fn push_line(out: &mut Vec<u8>, block: &Block, row: usize, analog: usize, digital: usize)
    requires few { (analog ≤ 256) × (digital ≤ 256) }
    requires row { row < length block.now.records }
    requires width { (analog ≡ block.now.analog) × (digital ≡ block.now.digital) }
    requires sets { IsAsciiRecord (record_at block.now.records row) }
    requires room { vec_len out.old + 17 * (analog + digital + 3) ≤ vec_capacity out.old }
    ensures { out.new.items ≡ out.old.items ++ written_line (record_at block.now.records row) }
{
    push_whole(out, u64::from(block.number(row)));
    push_stamp(out, block.stamp(row));
    push_values(out, block, row, analog);
    push_bits(out, block, row, digital);
    out.push_reserved(b'\r');
    out.push_reserved(b'\n');
}
