//! How the configuration of `feed` is read.
ghost use Rattle.std.specs.Prelude.{◌≡◌, ◌≢◌, Err, IfOk, IfErr};
ghost use Rattle.tool_events.specs.Configs.{IsConfig};
ghost use Rattle.line_feeding.specs.Fed.{looked, IsRead};
ghost use Rattle.configuration.specs.Reading.{Says};
ghost use Rattle.line_feeding.specs.CauseOf.{Refuses, Unsaid, cause_for};

use crate::read::{TextFault, read_text};
use configuration::{CONFIGURATION_BYTES, ConfigFault, read_config};
use outside::Source;
use run_causes::Cause;
use std::alloc::Global;
use tool_events::Config;

/// So many bytes are read at most: one more than a configuration may have.
const MOST_READ: usize = CONFIGURATION_BYTES + 1;

/// Why a text says no configuration.
fn cause_of(fault: ConfigFault) -> Cause
    ensures { result ≡ cause_for fault }
{
    match fault {
        ConfigFault::Rule { rule, key } => Cause::Config(rule, key),
        ConfigFault::NoMemory => Cause::NoMemory,
    }
}

/// What a text says, or why it says nothing.
#[tactic(auto, using(crate::proofs::Configuration::unsaid))]
fn config_of(alloc: Global, text: &[u8]) -> Result<Config, Cause>
    ensures says { IfOk result (λ c. Says text.now c) }
    ensures bounds { IfOk result IsConfig }
    ensures refused { IfErr result (Unsaid text.now) }
{
    match read_config(alloc, text) {
        Ok(config) => Ok(config),
        Err(fault) => Err(cause_of(fault)),
    }
}

/// Reads a configuration to its end, or to its 65,537th byte, and answers what it says (this tool's profile, configuration).
/// `Config` is the least rule that it breaks, with its key; `ReadFault` comes where a read failed.
#[tactic(auto, using(crate::proofs::Configuration::is_read, crate::proofs::Configuration::refuses))]
pub fn read_configuration<C: Source>(alloc: Global, config: &mut C) -> Result<Config, Cause>
    ensures read { IfOk result (λ c. IsRead (looked C.left C.faults C.ends config.old) (looked C.left C.faults C.ends config.new) c) }
    ensures bounds { IfOk result IsConfig }
    ensures unfailed { result ≢ Err Cause.ReadFault → C.faults config.new ≡ C.faults config.old }
    ensures refused { IfErr result (λ cause. Refuses cause (looked C.left C.faults C.ends config.old) (looked C.left C.faults C.ends config.new)) }
{
    match read_text(alloc, config, MOST_READ) {
        Ok(text) => config_of(alloc, text.as_slice()),
        Err(TextFault::Read) => Err(Cause::ReadFault),
        Err(TextFault::NoMemory) => Err(Cause::NoMemory),
    }
}
