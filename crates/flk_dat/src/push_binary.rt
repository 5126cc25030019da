//! A BINARY record, appended to bytes that have room for it.

ghost use Rattle.std.specs.Prelude.{◌≡◌, ◌+◌, ◌*◌, ◌/◌, ◌<◌, ◌≤◌, ◌++◌, length, take, drop, pos, negsuc, ◌≤ℤ◌, vec_len, vec_capacity};
ghost use Rattle.std.specs.List.{flat_map, range_with_len};
ghost use Rattle.byteorder.specs.Endian.{little_bytes};
ghost use Rattle.flk_dat.specs.Records.{record_at, HasWidth};
ghost use Rattle.flk_field.specs.declared.form.Form.TheVariants.{Binary};
ghost use Rattle.flk_dat.specs.BinaryRecords.{record_size as size_of_record};
ghost use Rattle.flk_dat.specs.Written.{IsWordStamp, IsBinaryRecord, stamp_number, value_bytes, bits_number, word_bytes, written_binary};

use crate::block::Block;
use byteorder::{ByteOrder, LittleEndian};

/// The channels of a word.
const WORD_CHANNELS: usize = 16;

/// Appends a number of four bytes.
fn push_u32(out: &mut Vec<u8>, number: u32)
    requires room { vec_len out.old + 4 ≤ vec_capacity out.old }
    ensures bytes { out.new.items ≡ out.old.items ++ little_bytes 4 number }
    ensures len { vec_len out.new ≡ vec_len out.old + 4 }
    ensures capacity { vec_capacity out.new ≡ vec_capacity out.old }
{
    let mut bytes = [0u8; 4];
    LittleEndian::write_u32(&mut bytes, number);
    for byte in &bytes {
        out.push_reserved(*byte);
    }
}

/// Appends a number of two bytes.
fn push_u16(out: &mut Vec<u8>, number: u16)
    requires room { vec_len out.old + 2 ≤ vec_capacity out.old }
    ensures bytes { out.new.items ≡ out.old.items ++ little_bytes 2 number }
    ensures len { vec_len out.new ≡ vec_len out.old + 2 }
    ensures capacity { vec_capacity out.new ≡ vec_capacity out.old }
{
    let mut bytes = [0u8; 2];
    LittleEndian::write_u16(&mut bytes, number);
    for byte in &bytes {
        out.push_reserved(*byte);
    }
}

/// Appends an analog value of two bytes.
fn push_value(out: &mut Vec<u8>, value: i32)
    requires range { (negsuc 32767 ≤ℤ value) × (value ≤ℤ pos 32767) }
    requires room { vec_len out.old + 2 ≤ vec_capacity out.old }
    ensures bytes { out.new.items ≡ out.old.items ++ value_bytes value }
    ensures len { vec_len out.new ≡ vec_len out.old + 2 }
    ensures capacity { vec_capacity out.new ≡ vec_capacity out.old }
{
    let mut bytes = [0u8; 2];
    LittleEndian::write_i16(&mut bytes, value as i16);
    for byte in &bytes {
        out.push_reserved(*byte);
    }
}

/// The word of so many digital channels from a first one on.
fn word(block: &Block, row: usize, first: usize, count: usize) -> u16
    requires few { (count ≤ 16) × (first ≤ 256) }
    requires row { row < length block.now.records }
    requires there { first + count ≤ block.now.digital }
    requires width { HasWidth block.now.analog block.now.digital (record_at block.now.records row) }
    ensures { result ≡ bits_number (take count (drop first (record_at block.now.records row).digital)) }
{
    let mut word = 0u16;
    let mut left = count;
    while left > 0 {
        left -= 1;
        word = 2 * word + u16::from(block.digital(row, first + left));
    }
    word
}

/// Appends the analog values of a record.
fn push_values(out: &mut Vec<u8>, block: &Block, row: usize, analog: usize)
    requires few { analog ≤ 256 }
    requires row { row < length block.now.records }
    requires width { (analog ≡ block.now.analog)
        × HasWidth block.now.analog block.now.digital (record_at block.now.records row) }
    requires sets { IsBinaryRecord (record_at block.now.records row) }
    requires room { vec_len out.old + 2 * analog ≤ vec_capacity out.old }
    ensures bytes { out.new.items ≡ out.old.items ++ flat_map value_bytes (record_at block.now.records row).analog }
    ensures len { vec_len out.new ≡ vec_len out.old + 2 * analog }
    ensures capacity { vec_capacity out.new ≡ vec_capacity out.old }
{
    for channel in 0..analog {
        push_value(out, block.analog(row, channel));
    }
}

/// Appends the words of the digital values of a record.
fn push_words(out: &mut Vec<u8>, block: &Block, row: usize, digital: usize)
    requires few { digital ≤ 256 }
    requires row { row < length block.now.records }
    requires width { (digital ≡ block.now.digital)
        × HasWidth block.now.analog block.now.digital (record_at block.now.records row) }
    requires room { vec_len out.old + 2 * ((digital + 15) / 16) ≤ vec_capacity out.old }
    ensures bytes { out.new.items ≡ out.old.items
        ++ flat_map (word_bytes (record_at block.now.records row).digital) (range_with_len 0 ((digital + 15) / 16)) }
{
    for group in 0..(digital + 15) / WORD_CHANNELS {
        let first = WORD_CHANNELS * group;
        push_u16(
            out,
            word(block, row, first, WORD_CHANNELS.min(digital - first)),
        );
    }
}

/// Appends a BINARY record.
pub fn push_binary(out: &mut Vec<u8>, block: &Block, row: usize, analog: usize, digital: usize)
    requires few { (analog ≤ 256) × (digital ≤ 256) }
    requires row { row < length block.now.records }
    requires width { (analog ≡ block.now.analog) × (digital ≡ block.now.digital) }
    requires sets { IsBinaryRecord (record_at block.now.records row) }
    requires room { vec_len out.old + size_of_record Binary analog digital ≤ vec_capacity out.old }
    ensures { out.new.items ≡ out.old.items ++ written_binary (record_at block.now.records row) }
{
    push_u32(out, block.number(row));
    push_u32(out, stamp_word(block.stamp(row)));
    push_values(out, block, row, analog);
    push_words(out, block, row, digital);
}

/// The time stamp, which is there.
fn stamp_word(stamp: Option<u64>) -> u32
    requires { IsWordStamp stamp }
    ensures { result ≡ stamp_number stamp }
{
    match stamp {
        Some(number) => number as u32,
        None => 0,
    }
}
