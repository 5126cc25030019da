//! Binary records.

ghost use Rattle.std.specs.Prelude.{◌≡◌, ◌≢◌, ◌+◌, ◌*◌, ◌/◌, ◌<◌, ◌≤◌, ℕ, pos, true, false, length, slice_index_or, OnOk, IfOk, IfErr, MatchOption, MatchResult};
ghost use Rattle.flk_dat.specs.Records.{Follows, IsPresent, missing_value};
ghost use Rattle.flk_dat.specs.BinaryRecords.{value_width as width_of_value, record_size as size_of_record, IsBinary, IsFirstMissing, WholeFault, number_of, stamp_of, value_of, word_of, bit_of};
ghost use Rattle.flk_dat.specs.Blocks.{row_in, HavePlace, ChangesPlace, ChangesRow};
ghost use Rattle.flk_dat.specs.Heads.{headed, HasRow};

use crate::channels::Channels;
use crate::column::Column;
use crate::columns::Columns;
use crate::fields::follows;
use crate::head::Head;
use crate::kind::{Fault, Kind};
use byteorder::{ByteOrder, LittleEndian};
use flk_cfg::Form;

/// The bytes of the sample number and the time stamp.
const HEAD_BYTES: usize = 8;

/// The bytes of an analog value.
pub fn value_width(form: Form) -> usize
    ensures { result ≡ width_of_value form }
{
    match form {
        Form::Ascii => 0,
        Form::Binary => 2,
    }
}

/// The value that marks a missing sample.
fn missing(form: Form) -> i32
    ensures { result ≡ missing_value form }
{
    match form {
        Form::Ascii => 99_999,
        Form::Binary => -32_768,
    }
}

/// The bytes of a record of so many analog and digital channels.
pub fn record_size(form: Form, analog: usize, digital: usize) -> usize
    requires { (analog ≤ 256) × (digital ≤ 256) }
    ensures { result ≡ size_of_record form analog digital }
{
    HEAD_BYTES + value_width(form) * analog + 2 * ((digital + 15) / 16)
}

/// The value of an analog channel, counted from 0.
#[tactic(auto, unfolding(crate::specs::BinaryRecords::value_of))]
fn value_at(form: Form, bytes: &[u8], i: usize) -> i32
    requires few { i < 256 }
    requires there { 8 + width_of_value form * i + width_of_value form ≤ length bytes.now }
    ensures { result ≡ value_of form bytes.now i }
{
    match form {
        Form::Ascii => 0,
        Form::Binary => i32::from(LittleEndian::read_i16(&bytes[HEAD_BYTES + 2 * i..])),
    }
}

/// The word of a digital channel, counted from 0.
#[tactic(auto, unfolding(crate::specs::BinaryRecords::word_of))]
fn word_at(form: Form, bytes: &[u8], analog: usize, i: usize) -> u16
    requires few { (analog ≤ 256) × (i < 256) }
    requires there { 8 + width_of_value form * analog + 2 * (i / 16) + 2 ≤ length bytes.now }
    ensures { result ≡ word_of form analog bytes.now i }
{
    LittleEndian::read_u16(&bytes[HEAD_BYTES + value_width(form) * analog + 2 * (i / 16)..])
}

/// The sample number.
#[tactic(auto, unfolding(crate::specs::BinaryRecords::number_of))]
fn number_at(bytes: &[u8]) -> u32
    requires { 8 ≤ length bytes.now }
    ensures { result ≡ number_of bytes.now }
{
    LittleEndian::read_u32(bytes)
}

/// The time stamp.
#[tactic(auto, unfolding(crate::specs::BinaryRecords::stamp_of))]
fn stamp_at(bytes: &[u8]) -> u32
    requires { 8 ≤ length bytes.now }
    ensures { result ≡ stamp_of bytes.now }
{
    LittleEndian::read_u32(&bytes[4..])
}

/// The value of an analog channel, counted from 0, or None where it is missing and the channel is selected.
#[inline(always)]
fn value_or_missing(form: Form, bytes: &[u8], i: usize, selected: bool) -> Option<i32>
    requires few { i < 256 }
    requires there { 8 + width_of_value form * i + width_of_value form ≤ length bytes.now }
    ensures { MatchOption result ((selected ≡ true) × (value_of form bytes.now i ≡ missing_value form))
        (λ v. (v ≡ value_of form bytes.now i) × (selected ≡ true → value_of form bytes.now i ≢ missing_value form)) }
{
    let value = value_at(form, bytes, i);
    if selected && value == missing(form) {
        None
    } else {
        Some(value)
    }
}

/// Reads the analog values into a row of the columns, or answers the place of the first selected channel whose value is
/// missing.
#[inline(always)]
fn read_values(
    form: Form,
    selected: &[bool],
    bytes: &[u8],
    columns: &mut [Column<i32>],
    row: usize,
) -> Result<(), usize>
    requires few { length selected.now ≤ 256 }
    requires there { size_of_record form (length selected.now) 0 ≤ length bytes.now }
    requires same { length columns.old ≡ length selected.now }
    requires places { HavePlace row columns.old }
    ensures changed { ChangesPlace row (pos 0) columns.old columns.new }
    ensures values { OnOk result ((i : ℕ) → i < length selected.now
        → slice_index_or (row_in row (pos 0) columns.new) i (pos 0) ≡ value_of form bytes.now i) }
    ensures present { OnOk result ((i : ℕ) → i < length selected.now
        → slice_index_or selected.now i false ≡ true → value_of form bytes.now i ≢ missing_value form) }
    ensures missing { IfErr result (λ i. IsFirstMissing form selected.now bytes.now i) }
{
    for i in 0..selected.len() {
        match value_or_missing(form, bytes, i, selected[i]) {
            Some(value) => columns[i].put(row, value),
            None => return Err(i),
        }
    }
    Ok(())
}

/// Reads the digital values, which follow so many analog ones, into a row of the columns.
#[inline(always)]
fn read_bits(form: Form, bytes: &[u8], analog: usize, columns: &mut Vec<Column<bool>>, row: usize)
    requires few { (length columns.old.items ≤ 256) × (analog ≤ 256) }
    requires there { size_of_record form analog (length columns.old.items) ≤ length bytes.now }
    requires places { HavePlace row columns.old.items }
    ensures changed { ChangesPlace row false columns.old.items columns.new.items }
    ensures values { (i : ℕ) → i < length columns.old.items
        → slice_index_or (row_in row false columns.new.items) i false ≡ bit_of form analog bytes.now i }
{
    for i in 0..columns.len() {
        let bit = (word_at(form, bytes, analog, i) >> (i % 16)) % 2 == 1;
        columns[i].put(row, bit);
    }
}

/// Reads the record of this form with which the bytes begin: its front, and its values into a row of the columns.
#[inline(always)]
pub fn read_binary(
    form: Form,
    channels: &Channels,
    before: Option<u32>,
    bytes: &[u8],
    columns: &mut Columns,
    row: usize,
) -> Result<Head, Fault>
    requires row { HasRow channels.now row columns.old }
    requires whole { size_of_record form (length channels.now.selected.items) channels.now.digital ≤ length bytes.now }
    ensures changed { ChangesRow row columns.old columns.new }
    ensures values { IfOk result (λ h.
        IsBinary form (length channels.now.selected.items) channels.now.digital bytes.now (headed h row columns.new)
        × Follows before h.number
        × IsPresent form channels.now.selected.items (headed h row columns.new)) }
    ensures fault { IfErr result
        (λ f. WholeFault form channels.now.selected.items before bytes.now f.field f.kind) }
{
    let number = number_at(bytes);
    if !follows(before, number) {
        return Err(Fault {
            field: 1,
            kind: Kind::Order,
        });
    }
    if let Err(channel) = read_values(form, &channels.selected, bytes, &mut columns.analog, row) {
        return Err(Fault {
            field: channel as u32 + 3,
            kind: Kind::Missing,
        });
    }
    read_bits(
        form,
        bytes,
        channels.selected.len(),
        &mut columns.digital,
        row,
    );
    Ok(Head {
        number,
        stamp: Some(u64::from(stamp_at(bytes))),
    })
}
