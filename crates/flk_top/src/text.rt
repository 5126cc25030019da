//! The texts of `levels` and `check`.

ghost use Rattle.std.specs.Prelude.{◌≡◌, IfOk, string_bytes};
ghost use Rattle.flk_cfg.specs.Canonical.{form_text};
ghost use Rattle.flk_top.specs.Text.{levels_text, check_text};

use crate::measure::Levels;
use flk_cfg::{Config, Form};
use flk_io::OutOfMemory;
use flk_text::Ends;
use std::alloc::Global;

/// The four lines of `levels`.
pub fn levels_lines(alloc: Global, channel: u32, levels: Levels) -> Result<String, OutOfMemory>
    ensures { IfOk result (λ text. string_bytes text ≡ levels_text channel levels) }
{
    let count = levels.count;
    match levels.extremes {
        None => format!(in alloc;
            "levels channel {channel}\nhalf-periods {count}\nleast none\ngreatest none\n"
        ),
        Some(extremes) => {
            let least = extremes.least;
            let least = Ends(least.lo.unsigned_abs(), least.hi.unsigned_abs());
            let greatest = extremes.greatest;
            let greatest = Ends(greatest.lo.unsigned_abs(), greatest.hi.unsigned_abs());
            format!(in alloc;
                "levels channel {channel}\nhalf-periods {count}\nleast {least}\ngreatest {greatest}\n"
            )
        }
    }
}

fn form_word(form: Form) -> &'static str
    ensures { result.now ≡ form_text form }
{
    match form {
        Form::Ascii => "ASCII",
        Form::Binary => "BINARY",
    }
}

/// The five lines of `check`, for data whose first record has this sample number.
pub fn check_lines(alloc: Global, config: &Config, first: u32) -> Result<String, OutOfMemory>
    ensures { IfOk result (λ text. string_bytes text ≡ check_text config.now first) }
{
    let analog = config.analog.as_slice().len();
    let digital = config.digital.as_slice().len();
    let records = config.endsamp;
    let form = form_word(config.form);
    format!(in alloc;
        "check\nanalog {analog} digital {digital}\nrecords {records}\nfirst {first}\nform {form}\n"
    )
}
