//! The canonical text of a configuration.

ghost use Rattle.std.specs.Prelude.{◌≡◌, IfOk};
ghost use Rattle.flk_cfg.specs.Canonical.{canonical};
ghost use Rattle.flk_cfg.specs.Valid.{IsValid};

use crate::config::Config;
use crate::push::{push_analogs, push_counts, push_digitals, push_settings, push_title};
use std::alloc::{AllocError, Global};

/// The canonical text of a configuration: the lines of IEEE C37.111-1999, clause 5.3, each with CR LF behind it.
/// Decimals are written without an exponent and without zeros that say nothing, whole numbers without leading zeros,
/// dates as `dd/mm/yyyy`, and times as `hh:mm:ss.ffffff`, with nine digits after the point where six don't hold the
/// nanoseconds.
pub fn write_cfg(alloc: Global, c: &Config) -> Result<Vec<u8>, AllocError>
    requires { IsValid c.now }
    ensures { IfOk result (λ text. text.items ≡ canonical c.now) }
{
    let mut out = Vec::new(alloc);
    let analog = c.analog.as_slice();
    let digital = c.digital.as_slice();
    push_title(&mut out, c)?;
    push_counts(&mut out, analog.len() as u32, digital.len() as u32)?;
    push_analogs(&mut out, analog)?;
    push_digitals(&mut out, digital)?;
    push_settings(&mut out, c)?;
    Ok(out)
}
