//! The replies that are a fault line.

ghost use Rattle.std.specs.Prelude.{◌≡◌, ◌+◌, IfOk, string_bytes};
ghost use Rattle.flk_text.specs.PlainText.{plain};
ghost use Rattle.flk_top.specs.Certified.{lamp_fault_number};
ghost use Rattle.flk_top.specs.Faults.{usage_line, read_line, job_line, configuration_line};
ghost use Rattle.flk_top.specs.Faults.{match_line, data_line, range_line, lamp_line};
ghost use Rattle.flk_top.specs.declared.reply.Status.TheVariants as statuses;

use crate::certified::LampFault;
use crate::reply::{Reply, Status, line};
use flk_cfg::CfgFault;
use flk_dat::DatFault;
use flk_io::OutOfMemory;
use flk_job::JobFault;
use flk_scale::MatchFault;
use flk_text::{DecimalValue, push_decimal};
use std::alloc::Global;

/// The reply to words that have no command's shape.
pub fn usage_reply(alloc: Global) -> Result<Reply, OutOfMemory>
    ensures { IfOk result (λ r. (r.status ≡ statuses.Refused) × (string_bytes r.text ≡ usage_line)) }
{
    line(alloc, Status::Refused, "fault usage\n")
}

/// The reply to a read that failed.
pub fn read_reply(alloc: Global) -> Result<Reply, OutOfMemory>
    ensures { IfOk result (λ r. (r.status ≡ statuses.ReadFailed) × (string_bytes r.text ≡ read_line)) }
{
    line(alloc, Status::ReadFailed, "fault read\n")
}

/// The reply to the first fault of a job.
pub fn job_reply(alloc: Global, fault: JobFault) -> Result<Reply, OutOfMemory>
    ensures { IfOk result (λ r. (r.status ≡ statuses.Refused)
        × (string_bytes r.text ≡ job_line fault.key fault.kind)) }
{
    let key = fault.key;
    let kind = fault.kind;
    let text = format!(in alloc; "fault job {key} {kind}\n")?;
    Ok(Reply {
        status: Status::Refused,
        text,
    })
}

/// The reply to the first fault of a configuration.
pub fn configuration_reply(alloc: Global, fault: CfgFault) -> Result<Reply, OutOfMemory>
    ensures { IfOk result (λ r. (r.status ≡ statuses.Refused)
        × (string_bytes r.text ≡ configuration_line fault.line fault.field fault.kind)) }
{
    let line = fault.line;
    let field = fault.field;
    let kind = fault.kind;
    let text = format!(in alloc; "fault configuration {line} {field} {kind}\n")?;
    Ok(Reply {
        status: Status::Refused,
        text,
    })
}

// The plain text of a decimal.
fn plain_text(alloc: Global, d: DecimalValue) -> Result<String, OutOfMemory>
    ensures { IfOk result (λ text. string_bytes text ≡ plain d.n) }
{
    let mut text = Vec::new(alloc);
    push_decimal(&mut text, d)?;
    Ok(String::from_utf8(text).unwrap())
}

fn match_text(alloc: Global, fault: MatchFault) -> Result<String, OutOfMemory>
    ensures { IfOk result (λ text. string_bytes text ≡ match_line fault) }
{
    let number = fault.number();
    match fault {
        MatchFault::Channel { asked, there } => format!(in alloc;
            "fault match {number} {asked} {there}\n"
        ),
        MatchFault::Unit { channel } => format!(in alloc; "fault match {number} {channel} 0\n"),
        MatchFault::Scale { channel } => format!(in alloc; "fault match {number} {channel} 0\n"),
        MatchFault::Lamp { hertz, lf } => {
            let lf = plain_text(alloc, lf)?;
            format!(in alloc; "fault match {number} {hertz} {lf}\n")
        }
        MatchFault::TooShort { needed, there } => format!(in alloc;
            "fault match {number} {needed} {there}\n"
        ),
        MatchFault::TooLong { limit, there } => format!(in alloc;
            "fault match {number} {limit} {there}\n"
        ),
    }
}

/// The reply to a recording that can't be measured as it is asked for.
pub fn match_reply(alloc: Global, fault: MatchFault) -> Result<Reply, OutOfMemory>
    ensures { IfOk result (λ r. (r.status ≡ statuses.Refused) × (string_bytes r.text ≡ match_line fault)) }
{
    let text = match_text(alloc, fault)?;
    Ok(Reply {
        status: Status::Refused,
        text,
    })
}

/// The reply to the first fault of data.
pub fn data_reply(alloc: Global, fault: DatFault) -> Result<Reply, OutOfMemory>
    ensures { IfOk result (λ r. (r.status ≡ statuses.Refused)
        × (string_bytes r.text ≡ data_line fault.row fault.field fault.kind)) }
{
    let record = fault.row;
    let field = fault.field;
    let kind = fault.kind;
    let text = format!(in alloc; "fault data {record} {field} {kind}\n")?;
    Ok(Reply {
        status: Status::Refused,
        text,
    })
}

/// The reply to a record, counted from 0, whose voltage in a channel is over range.
pub fn range_reply(alloc: Global, place: u32, channel: u32) -> Result<Reply, OutOfMemory>
    ensures { IfOk result (λ r. (r.status ≡ statuses.Refused)
        × (string_bytes r.text ≡ range_line (place + 1) channel)) }
{
    let row = u64::from(place) + 1;
    let text = format!(in alloc; "fault range {row} {channel}\n")?;
    Ok(Reply {
        status: Status::Refused,
        text,
    })
}

/// The reply to a lamp that isn't certified at the rate asked for.
pub fn lamp_reply(alloc: Global, fault: LampFault) -> Result<Reply, OutOfMemory>
    ensures { IfOk result (λ r. (r.status ≡ statuses.Refused)
        × (string_bytes r.text ≡ lamp_line (lamp_fault_number fault))) }
{
    let number = fault.number();
    let text = format!(in alloc; "fault lamp {number}\n")?;
    Ok(Reply {
        status: Status::Refused,
        text,
    })
}
