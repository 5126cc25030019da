//! A record of either form, read into a row of the columns.

ghost use Rattle.std.specs.Prelude.{◌≡◌, ◌≢◌, ◌≤◌, length, IfOk, IfErr};
ghost use Rattle.flk_field.specs.declared.form.Form.TheVariants as forms;
ghost use Rattle.flk_dat.specs.BinaryRecords.{record_size};
ghost use Rattle.flk_dat.specs.Blocks.{ChangesRow};
ghost use Rattle.flk_dat.specs.Heads.{headed, HasRow, IsGood, FaultOf};

use crate::binary::read_binary;
use crate::channels::Channels;
use crate::columns::Columns;
use crate::head::Head;
use crate::kind::Fault;
use crate::line::read_line;
use flk_cfg::Form;

/// Reads a record of the channels' form: a line, which may have a CR at its end, or the binary record with which the
/// bytes begin. The record's values go into a row of the columns.
#[inline(always)]
pub fn read_record(
    form: Form,
    channels: &Channels,
    before: Option<u32>,
    bytes: &[u8],
    columns: &mut Columns,
    row: usize,
) -> Result<Head, Fault>
    requires form { form ≡ channels.now.form }
    requires row { HasRow channels.now row columns.old }
    requires whole { channels.now.form ≢ forms.Ascii
        → record_size channels.now.form (length channels.now.selected.items) channels.now.digital ≤ length bytes.now }
    ensures changed { ChangesRow row columns.old columns.new }
    ensures good { IfOk result (λ h. IsGood channels.now before bytes.now (headed h row columns.new)) }
    ensures fault { IfErr result (λ f. FaultOf channels.now.form channels.now before bytes.now f.field f.kind) }
{
    match form {
        Form::Ascii => read_line(channels, before, bytes, columns, row),
        Form::Binary => read_binary(Form::Binary, channels, before, bytes, columns, row),
    }
}
