//! Records whose first bytes may have come in earlier pieces.

ghost use Rattle.std.specs.Prelude.{◌≡◌, ◌≢◌, ◌+◌, ◌<◌, ◌++◌, [], length, OnOk, MatchResult};
ghost use Rattle.flk_field.specs.declared.form.Form.TheVariants as forms;
ghost use Rattle.flk_dat.specs.BinaryRecords.{record_size};
ghost use Rattle.flk_dat.specs.Heads.{Gains, FaultOf, HasColumns};

use crate::block::Block;
use crate::channels::Channels;
use crate::kind::Fault;
use crate::rest::Rest;
use flk_cfg::Form;

/// Reads the record that is what was held and then these bytes, and puts it at the end of the block. It answers the
/// record's number. The bytes are up to the end of a line, or of a binary record.
#[inline(always)]
pub fn read_held(
    out: &mut Block,
    rest: &mut Rest,
    channels: &Channels,
    before: Option<u32>,
    bytes: &[u8],
) -> Result<u32, Fault>
    requires room { length out.old.records < out.old.room }
    requires columns { HasColumns channels.now out.old }
    requires whole { channels.now.form ≢ forms.Ascii
        → length rest.old + length bytes.now
        ≡ record_size channels.now.form (length channels.now.selected.items) channels.now.digital }
    ensures cleared { OnOk result (rest.new ≡ []) }
    ensures whole_cleared { channels.now.form ≢ forms.Ascii → rest.new ≡ [] }
    ensures record_read { MatchResult result (Gains channels.now before (rest.old ++ bytes.now) out.old out.new)
        (λ f. (out.new ≡ out.old)
        × FaultOf channels.now.form channels.now before (rest.old ++ bytes.now) f.field f.kind) }
{
    if rest.as_slice().is_empty() {
        return out.read(channels.form, channels, before, bytes);
    }
    match channels.form {
        Form::Ascii => rest.hold_line(bytes)?,
        Form::Binary => rest.hold(bytes),
    }
    let number = out.read(channels.form, channels, before, rest.as_slice());
    rest.clear();
    number
}
