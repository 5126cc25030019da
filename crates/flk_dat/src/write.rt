//! Records written in their canonical form.

ghost use Rattle.std.specs.Prelude.{◌≡◌, ◌<◌, ◌++◌, length, OnOk, OnErr};
ghost use Rattle.flk_cfg.specs.Valid.{IsValid};
ghost use Rattle.flk_dat.specs.Records.{IsBlockFor, record_at};
ghost use Rattle.flk_dat.specs.Written.{IsWritable, written_record};

use crate::binary::record_size;
use crate::block::Block;
use crate::push_binary::push_binary;
use crate::push_line::{FIELD_ROOM, push_line};
use flk_cfg::{Config, Form};
use std::alloc::AllocError;

/// Appends the canonical bytes of one record of a block, which was made for the configuration. The record's time stamp
/// and values are in the sets of the configuration's form: a time stamp of 0 to 9999999999 or none and analog values of
/// -99999 to 99999 in ASCII, and a time stamp of 32 bits and analog values of 16 in BINARY. Where memory is short `out`
/// stays as it was.
///
/// An ASCII record is a line with CR LF behind it, of numbers without plus sign, leading zeros and spaces, and with an
/// empty time stamp where there is none. In a BINARY record unused bits are zero.
#[tactic(auto, unfolding(crate::specs::Written::written_record))]
pub fn write_record(
    out: &mut Vec<u8>,
    c: &Config,
    block: &Block,
    row: usize,
) -> Result<(), AllocError>
    requires valid { IsValid c.now }
    requires made { IsBlockFor c.now block.now }
    requires row { row < length block.now.records }
    requires sets { IsWritable c.now.form (record_at block.now.records row) }
    ensures ok { OnOk result (out.new.items ≡ out.old.items
        ++ written_record c.now.form (record_at block.now.records row)) }
    ensures err { OnErr result (out.new.items ≡ out.old.items) }
{
    let analog = c.analog.as_slice().len();
    let digital = c.digital.as_slice().len();
    match c.form {
        Form::Ascii => {
            out.reserve(FIELD_ROOM * (analog + digital + 3))?;
            push_line(out, block, row, analog, digital);
        }
        Form::Binary => {
            out.reserve(record_size(c.form, analog, digital))?;
            push_binary(out, block, row, analog, digital);
        }
    }
    Ok(())
}
