//! Remote commands of the host (SEMI E5, S2F41; SEMI E30, remote control; SEMI E40, commands to process jobs).
ghost use Rattle.std.specs.Prelude.{◌≡◌, [], length, IfOk};
ghost use Rattle.item_model.specs.Sendable.{IsLength};
ghost use Rattle.message_model.specs.declared.gem_reply.GemReply.TheVariants as reply;
ghost use Rattle.gem_model.specs.Messages.{remote_done};
ghost use Rattle.gem_model.specs.Remote.{decided};
ghost use Rattle.host_messages.specs.Dones.{done_view, CanBeSent};

use core_state::Plant;
use gem_ids::Listed;
use gem_states::{Control, ControlTrigger};
use host_messages::{Decision, Done, HostReply, answered, decided, fires_row, job_rows};
use message_model::{GemReply, Parameter};
use std::alloc::{AllocError, Global};

/// S2F42 of a command that is done: HCACK 0, and no parameter is listed.
fn accepted(alloc: Global) -> GemReply
    ensures { result ≡ reply.S2F42 0 [] }
{
    GemReply::S2F42(0, Listed::new(alloc))
}

/// A remote command, as it is decided by the plant before it: GOLOCAL fires the row of the operator's `local`, but the switch
/// stays; CLEARALARM clears its alarm; and a command to a process job fires its row (SEMI E5, S2F42; this tool's profile, remote
/// commands). `AllocError` where there is no memory.
#[inline(never)]
pub fn command(
    plant: &mut Plant,
    alloc: Global,
    name: &[u8],
    parameters: &[Parameter],
) -> Result<Done, AllocError>
    requires { IsLength (length parameters.now) }
    ensures done { IfOk result (λ told. done_view told plant.new ≡ remote_done plant.old (decided plant.old name.now parameters.now)) }
    ensures sendable { IfOk result (λ told. CanBeSent told.reply) }
{
    let local = plant.control() == Control::Local;
    match decided(plant.alarms(), plant.jobs(), local, alloc, name, parameters)? {
        Decision::Refused(code, faults) => {
            Ok(answered(alloc, GemReply::S2F42(code.number(), faults)))
        }
        Decision::GoesLocal => Ok(fires_row(
            alloc,
            accepted(alloc),
            plant.by_control(ControlTrigger::Local),
        )),
        Decision::Clears(alid) => {
            plant.clear_alarm(alloc, alid)?;
            Ok(answered(alloc, accepted(alloc)))
        }
        Decision::Commands(job, word) => Ok(Done {
            reply: HostReply::Gem(accepted(alloc)),
            rows: job_rows(alloc, job, word, plant.jobs()),
        }),
    }
}
