//! What lines say that have no frames.

use crate::modules::{Commands, module_name, say_module};
use crate::printed::Cause;
use crate::slots::say_slots;
use civil_time::time16;
use gem_ids::{CarrierId, Moment, PortNo};
use message_words::Remarks;
use std::alloc::{AllocError, Global};
use tool_events::Signal;

/// Says the time of a moment, which the clock shows before the host sets it.
pub(crate) fn say_moment(moment: Moment, out: &mut Remarks) -> Result<(), AllocError> {
    if moment.0 > 25_245_561_599_999 {
        return Ok(());
    }
    out.say_time(&time16(moment))
}

/// Why a session ended.
pub(crate) fn cause_meaning(cause: Cause) -> &'static str {
    match cause {
        Cause::PeerEnd => "the peer closed the link",
        Cause::ShortLength => "a length field below 10 stood where a frame should begin",
        Cause::Separated => "the peer sent a separate message",
        Cause::T6 => "a linktest of the tool was not answered in time",
        Cause::T7 => "the link was not selected in time",
        Cause::Quit => "the operator ended the run",
        Cause::ReadFault => "a read of the link failed",
        Cause::WriteFault => "a write to the link failed",
        Cause::Stopped => "the session was up when the run ended",
    }
}

// Says that a carrier was placed, and its slots.
fn say_placed(
    alloc: Global,
    port: PortNo,
    id: Option<CarrierId>,
    map: &[u8; 25],
    out: &mut Remarks,
) -> Result<(), AllocError> {
    let port = port.0;
    let text = match id {
        Some(_) => format!(in alloc; "a carrier comes to port {port}")?,
        None => format!(in alloc; "a carrier whose id was not read comes to port {port}")?,
    };
    out.say(text.as_str())?;
    say_slots(alloc, map.as_slice(), out)
}

// Says that a module went down.
fn say_down(alloc: Global, module: u8, out: &mut Remarks) -> Result<(), AllocError> {
    let name = module_name(alloc, module)?;
    let text = format!(in alloc; "{name} went down")?;
    out.say(text.as_str())
}

/// Says what the equipment tells.
pub(crate) fn say_signal(
    alloc: Global,
    signal: &Signal,
    commands: &Commands,
    out: &mut Remarks,
) -> Result<(), AllocError> {
    match signal {
        Signal::Placed { port, id, map } => say_placed(alloc, *port, *id, map, out),
        Signal::Removed(port) => {
            let port = port.0;
            let text = format!(in alloc; "the carrier at port {port} was taken away")?;
            out.say(text.as_str())
        }
        Signal::Done(module, number) => {
            let task = commands.task_words(alloc, module.0, number.0)?;
            say_module(alloc, module.0, " did: ", task.as_slice(), out)
        }
        Signal::Failed(module, number) => {
            let task = commands.task_words(alloc, module.0, number.0)?;
            say_module(alloc, module.0, " failed at: ", task.as_slice(), out)
        }
        Signal::Down(module) => say_down(alloc, module.0, out),
    }
}
