//! The configuration that the words of a command name.

ghost use Rattle.std.specs.Prelude.{◌≡◌, ◌≢◌, ℕ, List, IfOk, IfErr, string_bytes};
ghost use Rattle.flk_io.specs.Causes.{TakesAll};
ghost use Rattle.flk_io.specs.Told.{OnlyReads, ReadsUnder};
ghost use Rattle.flk_num.specs.Stop.{StopIs};
ghost use Rattle.flk_cfg.specs.Valid.{IsValid};
ghost use Rattle.flk_cfg.specs.Kinds.{kind_number};
ghost use Rattle.flk_field.specs.declared.kind.Kind.TheVariants as kinds;
ghost use Rattle.flk_top.specs.Configuration.{IsConfiguration, IsConfigurationFault};
ghost use Rattle.flk_top.specs.Faults.{configuration_line};
ghost use Rattle.flk_top.specs.Outcome.{refusal};
ghost use Rattle.flk_top.specs.Replies.{outcome_of, IsHonest};
ghost use Rattle.flk_top.specs.Told.{MayHold};
ghost use Rattle.flk_top.specs.declared.reply.Status.TheVariants as statuses;

use crate::faults::{configuration_reply, read_reply};
use crate::reply::Reply;
use flk_cfg::{CfgFault, Config, Kind, read_cfg};
use flk_io::{OutOfMemory, ReadStop, Shelf, read_all};
use flk_num::Stop;
use std::alloc::Global;

/// The greatest configuration file, in bytes.
const CONFIGURATION_LIMIT: usize = 1_048_576;

// The reply to a configuration file above its limit: a fault of its length, which no line has.
fn too_long_reply(alloc: Global) -> Result<Reply, OutOfMemory>
    ensures { IfOk result (λ r. (r.status ≡ statuses.Refused)
        × (string_bytes r.text ≡ configuration_line 0 0 (kind_number kinds.Length))) }
{
    let fault = CfgFault {
        line: 0,
        field: 0,
        kind: Kind::Length.number(),
    };
    configuration_reply(alloc, fault)
}

/// Reads the configuration under a name. What stops is the reply to its first fault, or to a failed read.
pub fn read_configuration<F: Shelf>(
    alloc: Global,
    shelf: &mut F,
    name: &str,
) -> Result<Config, Stop<Reply>>
    ensures valid { IfOk result IsValid }
    ensures configuration { IfOk result (λ c. (bytes : List ℕ)
        × MayHold ((F.told shelf.old).left name.now) bytes × IsConfiguration bytes c) }
    ensures refusal { IfErr result (StopIs (λ r. r.status ≢ statuses.ReadFailed → (bytes : List ℕ) × (line : List ℕ)
        × MayHold ((F.told shelf.old).left name.now) bytes × IsConfigurationFault bytes line
        × (outcome_of r ≡ refusal line))) }
    ensures honest { IfErr result (StopIs (IsHonest (F.told shelf.old) (F.told shelf.new))) }
    ensures quiet { IfOk result (λ c. (F.told shelf.new).read_faults ≡ (F.told shelf.old).read_faults) }
    ensures only_reads { OnlyReads (F.told shelf.old) (F.told shelf.new) }
    ensures others { ReadsUnder name.now (F.told shelf.old) (F.told shelf.new) }
{
    let bytes = match read_all(alloc, shelf, name, CONFIGURATION_LIMIT) {
        Ok(bytes) => bytes,
        Err(ReadStop::TooLong) => return Err(Stop::Fault(too_long_reply(alloc)?)),
        Err(ReadStop::Failed) => return Err(Stop::Fault(read_reply(alloc)?)),
        Err(ReadStop::OutOfMemory) => return Err(Stop::OutOfMemory),
    };
    match read_cfg(alloc, &bytes) {
        Ok(config) => Ok(config),
        Err(Stop::Fault(fault)) => Err(Stop::Fault(configuration_reply(alloc, fault)?)),
        Err(Stop::OutOfMemory) => Err(Stop::OutOfMemory),
    }
}
