//! The command `tables`: the coefficients of a lamp's sections, their gains, and the bound of the sections behind the
//! first in a row.

ghost use Rattle.std.specs.Prelude.{◌≡◌, IfOk, string_bytes};
ghost use Rattle.flk_cert.specs.Gain.{input_of, rounding_of};
ghost use Rattle.flk_section.specs.Whole.{numbers_of, IsWholeOf};
ghost use Rattle.flk_top.specs.Certified.{gains_in};
ghost use Rattle.flk_top.specs.Replies.{outcome_of};
ghost use Rattle.flk_top.specs.Tables.{section_line, gain_line, section_lines as lines_of_section, cascade_line};
ghost use Rattle.flk_top.specs.Tables.{tables_text, IsDueForTables};

use crate::certified::{CertifiedLamp, CertifiedSection, certify_lamp};
use crate::faults::lamp_reply;
use crate::reply::{Reply, Status};
use flk_cert::Coefs;
use flk_io::OutOfMemory;
use flk_num::{Lamp, Rate, Stop};
use flk_section::Whole;
use std::alloc::Global;

// The line of section i, counted from 1.
fn coefs_line(alloc: Global, i: usize, k: &Coefs) -> Result<String, OutOfMemory>
    ensures { IfOk result (λ text. string_bytes text ≡ section_line i k.now) }
{
    let b0 = k.b0;
    let b1 = k.b1;
    let b2 = k.b2;
    let a1 = k.a1;
    let a2 = k.a2;
    format!(in alloc; "section {i} {b0} {b1} {b2} {a1} {a2}\n")
}

// The line of its gain, and of how many rows its certificate has.
fn certified_line(
    alloc: Global,
    i: usize,
    section: &CertifiedSection,
) -> Result<String, OutOfMemory>
    ensures { IfOk result (λ text. string_bytes text
        ≡ gain_line i (input_of section.now.gain) (rounding_of section.now.gain) section.now.rows) }
{
    let input = section.gain.input();
    let rounding = section.gain.rounding();
    let rows = section.rows;
    format!(in alloc; "gain {i} {input} {rounding} {rows}\n")
}

// The two lines of section i.
fn section_lines(alloc: Global, i: usize, section: &CertifiedSection) -> Result<String, OutOfMemory>
    ensures { IfOk result (λ text. string_bytes text ≡ lines_of_section i section.now) }
{
    let mut text = coefs_line(alloc, i, &section.gain.coefs())?;
    text.push_str(certified_line(alloc, i, section)?.as_str())?;
    Ok(text)
}

// The line of the sections behind the first in a row.
fn whole_line(alloc: Global, whole: &Whole) -> Result<String, OutOfMemory>
    ensures { IfOk result (λ text. string_bytes text
        ≡ cascade_line (numbers_of whole.now).chain_input (numbers_of whole.now).chain_rounding) }
{
    let input = whole.input();
    let rounding = whole.rounding();
    format!(in alloc; "cascade {input} {rounding}\n")
}

// All lines of a lamp.
fn lamp_lines(alloc: Global, certified: &CertifiedLamp) -> Result<String, OutOfMemory>
    requires { IsWholeOf (gains_in certified.now.sections.items) certified.now.whole }
    ensures { IfOk result (λ text. string_bytes text ≡ tables_text certified.now.sections.items) }
{
    let mut text = String::new(alloc);
    for (i, section) in certified.sections.as_slice().iter().enumerate() {
        text.push_str(section_lines(alloc, i + 1, section)?.as_str())?;
    }
    text.push_str(whole_line(alloc, &certified.whole)?.as_str())?;
    Ok(text)
}

/// The answer to `tables`: two lines for each section of the lamp's filter at the rate, and one for the sections behind
/// the first in a row; or why the lamp isn't certified.
pub fn tables_reply(alloc: Global, lamp: Lamp, rate: Rate) -> Result<Reply, OutOfMemory>
    ensures { IfOk result (λ r. IsDueForTables lamp rate (outcome_of r)) }
{
    match certify_lamp(alloc, lamp, rate) {
        Ok(certified) => {
            let text = lamp_lines(alloc, &certified)?;
            Ok(Reply {
                status: Status::Done,
                text,
            })
        }
        Err(Stop::Fault(fault)) => lamp_reply(alloc, fault),
        Err(Stop::OutOfMemory) => Err(OutOfMemory),
    }
}
