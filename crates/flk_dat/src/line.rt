//! ASCII records.

ghost use Rattle.std.specs.Prelude.{◌≡◌, ◌+◌, ◌<◌, ◌≤◌, ◌∷◌, [], ℕ, pos, false, length, drop, get_or, slice_index_or, List, MatchResult, OnOk, IfOk, IfErr, MatchOption};
ghost use Rattle.std.specs.List.{list_all, position_or_len};
ghost use Rattle.flk_text.specs.Lines.{is_byte, without_cr as without_cr_of};
ghost use Rattle.flk_text.specs.Fields.{fields as fields_of};
ghost use Rattle.flk_text.specs.WholeNumber.{IsWholeAnswer};
ghost use Rattle.flk_field.specs.Values.{IsBit};
ghost use Rattle.flk_dat.specs.Records.{Follows, IsPresent};
ghost use Rattle.flk_dat.specs.Blocks.{row_in, HavePlace, ChangesPlace, ChangesRow};
ghost use Rattle.flk_dat.specs.SampleFields.{IsNumber, IsStamp, IsSample, IsThere, Stamp, Analog, Digital, Refuses};
ghost use Rattle.flk_dat.specs.AsciiRecords.{IsRow, IsLine, LineFault, IsFirstOut, column, field_total};
ghost use Rattle.flk_dat.specs.Streams.{ends_line};
ghost use Rattle.flk_dat.specs.Heads.{headed, head_column, HasRow};
ghost use Rattle.flk_field.specs.declared.form.Form.TheVariants as forms;

use crate::channels::Channels;
use crate::column::Column;
use crate::columns::Columns;
use crate::fields::{analog_value, digital_value, sample_number, stamp_of, time_stamp};
use crate::head::Head;
use crate::kind::{Fault, Kind};
use flk_text::{Fields, NumFault, field_count, last_line_end, position_of, whole, without_cr};

/// The most bytes of a line without its end.
pub const LONGEST_LINE: usize = 16_384;

/// The place of the first byte with which a line ends, or the length where there is none. The last record's line ends
/// before a byte 1A too.
pub fn line_end(bytes: &[u8], last: bool) -> usize
    ensures place { result ≡ position_or_len (ends_line last) bytes.now }
    ensures within { result ≤ length bytes.now }
{
    if last {
        last_line_end(bytes)
    } else {
        position_of(bytes, b'\n')
    }
}

/// Whether each byte is a space.
pub fn are_spaces(bytes: &[u8]) -> bool
    ensures { result ≡ list_all (is_byte 32) bytes.now }
{
    for byte in bytes {
        if *byte != b' ' {
            return false;
        }
    }
    true
}

/// A line that has too few fields, or too many.
const FIELDS: Fault = Fault {
    field: 0,
    kind: Kind::Fields,
};

/// Takes the next field, and reads it as a whole number. None exactly where no field is left.
#[inline(always)]
fn next_whole(fields: &mut Fields<'_>) -> Option<Result<i64, NumFault>>
    ensures { MatchOption result (fields.old ≡ [])
        (λ read. (field : List ℕ) × (fields.old ≡ field ∷ fields.new) × IsWholeAnswer field read) }
{
    if let Some(value) = fields.next_whole() {
        return Some(Ok(value));
    }
    match fields.next_field() {
        Some(field) => Some(whole(field)),
        None => None,
    }
}

/// Takes the next field, and reads it as a time stamp. None exactly where no field is left.
#[inline(always)]
fn next_stamp(fields: &mut Fields<'_>) -> Option<Result<Option<u64>, Kind>>
    ensures { MatchOption result (fields.old ≡ [])
        (λ read. (field : List ℕ) × (fields.old ≡ field ∷ fields.new)
        × MatchResult read (λ s. IsStamp field s) (λ kind. Refuses Stamp field kind)) }
{
    if let Some(value) = fields.next_whole() {
        return Some(stamp_of(Ok(value)));
    }
    match fields.next_field() {
        Some(field) => Some(time_stamp(field)),
        None => None,
    }
}

/// Reads the analog values, which begin at the third field, into a row of the columns.
#[inline(always)]
fn read_analog(
    fields: &mut Fields<'_>,
    channels: &Channels,
    columns: &mut Vec<Column<i32>>,
    row: usize,
) -> Result<(), Fault>
    requires same { length columns.old.items ≡ length channels.now.selected.items }
    requires places { HavePlace row columns.old.items }
    ensures changed { ChangesPlace row (pos 0) columns.old.items columns.new.items }
    ensures there { OnOk result (length channels.now.selected.items ≤ length fields.old) }
    ensures left { OnOk result (fields.new ≡ drop (length channels.now.selected.items) fields.old) }
    ensures samples { OnOk result ((i : ℕ) → i < length channels.now.selected.items
        → IsSample (get_or fields.old i []) (slice_index_or (row_in row (pos 0) columns.new.items) i (pos 0))) }
    ensures present { OnOk result ((i : ℕ) → i < length channels.now.selected.items
        → IsThere (slice_index_or channels.now.selected.items i false)
        (slice_index_or (row_in row (pos 0) columns.new.items) i (pos 0))) }
    ensures fault { length channels.now.selected.items ≤ length fields.old
        → IfErr result (λ f. (i : ℕ) × (f.field ≡ i + 3)
        × IsFirstOut (λ j. Analog (slice_index_or channels.now.selected.items j false))
        (length channels.now.selected.items) fields.old i f.kind) }
{
    for i in 0..channels.selected.len() {
        let Some(read) = next_whole(fields) else {
            return Err(FIELDS);
        };
        match analog_value(read, channels.selected[i]) {
            Ok(value) => columns[i].put(row, value),
            Err(kind) => {
                return Err(Fault {
                    field: i as u32 + 3,
                    kind,
                });
            }
        }
    }
    Ok(())
}

/// Reads the digital values, before which there are so many fields, into a row of the columns.
#[inline(always)]
fn read_digital(
    fields: &mut Fields<'_>,
    before: u32,
    columns: &mut Vec<Column<bool>>,
    row: usize,
) -> Result<(), Fault>
    requires few { (length columns.old.items ≤ 256) × (before ≤ 1000) }
    requires places { HavePlace row columns.old.items }
    ensures changed { ChangesPlace row false columns.old.items columns.new.items }
    ensures there { OnOk result (length columns.old.items ≤ length fields.old) }
    ensures left { OnOk result (fields.new ≡ drop (length columns.old.items) fields.old) }
    ensures bits { OnOk result ((i : ℕ) → i < length columns.old.items
        → IsBit (get_or fields.old i []) (slice_index_or (row_in row false columns.new.items) i false)) }
    ensures fault { length columns.old.items ≤ length fields.old
        → IfErr result (λ f. (i : ℕ) × (f.field ≡ before + i + 1)
        × IsFirstOut (λ j. Digital) (length columns.old.items) fields.old i f.kind) }
{
    for i in 0..columns.len() {
        let Some(read) = next_whole(fields) else {
            return Err(FIELDS);
        };
        match digital_value(read) {
            Ok(value) => columns[i].put(row, value),
            Err(kind) => {
                return Err(Fault {
                    field: before + i as u32 + 1,
                    kind,
                });
            }
        }
    }
    Ok(())
}

/// Reads the sample number, which is the first field, and the time stamp.
#[inline(always)]
fn read_head(fields: &mut Fields<'_>, before: Option<u32>) -> Result<Head, Fault>
    ensures there { OnOk result (2 ≤ length fields.old) }
    ensures left { OnOk result (fields.new ≡ drop 2 fields.old) }
    ensures head { IfOk result (λ h. IsNumber (get_or fields.old 0 []) h.number × Follows before h.number
        × IsStamp (get_or fields.old 1 []) h.stamp) }
    ensures fault { 2 ≤ length fields.old → IfErr result
        (λ f. (i : ℕ) × (f.field ≡ i + 1) × IsFirstOut (head_column before) 2 fields.old i f.kind) }
{
    let Some(read) = next_whole(fields) else {
        return Err(FIELDS);
    };
    let number = match sample_number(read, before) {
        Ok(number) => number,
        Err(kind) => return Err(Fault { field: 1, kind }),
    };
    match next_stamp(fields) {
        Some(Ok(stamp)) => Ok(Head { number, stamp }),
        Some(Err(kind)) => Err(Fault { field: 2, kind }),
        None => Err(FIELDS),
    }
}

/// Reads the fields of a line. The fault is that of the first field that isn't in its set, where there are as many
/// fields as a record has.
#[inline(always)]
fn read_fields(
    channels: &Channels,
    before: Option<u32>,
    line: &[u8],
    columns: &mut Columns,
    row: usize,
) -> Result<Head, Fault>
    requires row { HasRow channels.now row columns.old }
    ensures changed { ChangesRow row columns.old columns.new }
    ensures row { IfOk result (λ h.
        IsRow (length channels.now.selected.items) channels.now.digital (fields_of line.now) (headed h row columns.new)
        × Follows before h.number × IsPresent forms.Ascii channels.now.selected.items (headed h row columns.new)) }
    ensures fault { length (fields_of line.now)
        ≡ field_total (length channels.now.selected.items) channels.now.digital
        → IfErr result (λ f. (i : ℕ) × (f.field ≡ i + 1)
        × IsFirstOut (column channels.now.selected.items before)
        (field_total (length channels.now.selected.items) channels.now.digital) (fields_of line.now) i f.kind) }
{
    let mut fields = Fields::new(line);
    let head = read_head(&mut fields, before)?;
    read_analog(&mut fields, channels, &mut columns.analog, row)?;
    read_digital(
        &mut fields,
        channels.selected.len() as u32 + 2,
        &mut columns.digital,
        row,
    )?;
    match fields.next_field() {
        Some(_) => Err(FIELDS),
        None => Ok(head),
    }
}

/// Reads a line, which may have a CR at its end: the record's front, and its values into a row of the columns.
pub fn read_line(
    channels: &Channels,
    before: Option<u32>,
    bytes: &[u8],
    columns: &mut Columns,
    row: usize,
) -> Result<Head, Fault>
    requires row { HasRow channels.now row columns.old }
    ensures changed { ChangesRow row columns.old columns.new }
    ensures line { IfOk result (λ h.
        IsLine (length channels.now.selected.items) channels.now.digital (without_cr_of bytes.now)
        (headed h row columns.new)
        × Follows before h.number × IsPresent forms.Ascii channels.now.selected.items (headed h row columns.new)) }
    ensures fault { IfErr result
        (λ f. LineFault channels.now.selected.items channels.now.digital before (without_cr_of bytes.now)
        f.field f.kind) }
{
    let line = without_cr(bytes);
    if line.len() > LONGEST_LINE {
        return Err(Fault {
            field: 0,
            kind: Kind::Length,
        });
    }
    let fault = match read_fields(channels, before, line, columns, row) {
        Ok(head) => return Ok(head),
        Err(fault) => fault,
    };
    // A wrong number of fields is told before any of them.
    if field_count(line) != 2 + channels.selected.len() + channels.digital {
        return Err(FIELDS);
    }
    Err(fault)
}
