//! What the host asks of carriers and load ports (SEMI E87, S3F17, S3F25 and S3F27): what it is answered, and what is done. What it
//! asks of jobs is in `jobs.rt`.
//!
//! A function clears its locals at entry, with those of each call that is written out in its place. So a large one that few messages
//! need stands apart (`inline(never)`), and the others do not pay for it.
ghost use Rattle.std.specs.Prelude.{◌≡◌, if◌then◌else◌, [], true, IfOk, OnOk};
ghost use Rattle.load_port.specs.Caack.{is_done_code};
ghost use Rattle.load_port.specs.declared.action.PortAction.TheVariants as port;
ghost use Rattle.message_model.specs.ShopPrimaries.{said};
ghost use Rattle.message_model.specs.declared.shop_reply.ShopReply.TheVariants as shop;
ghost use Rattle.shop_floor.specs.Requests.{port_rows, carrier_rows, carrier_written};
ghost use Rattle.floor_model.specs.Floor.{with_shop};
ghost use Rattle.floor_model.specs.Jobs.{carrier_code};
ghost use Rattle.gem_model.specs.Shop.{carrier_caack, port_caack};
ghost use Rattle.gem_model.specs.Messages.{carrier_action_done, port_action_done, shop_done};
ghost use Rattle.host_messages.specs.Dones.{done_view, CanBeSent};

use crate::jobs::{
    cancel_done, command_done, control_command_done, control_done, list_done, process_done,
    space_done,
};
use carrier::{CarrierAction, CarrierWord};
use core_state::Plant;
use gem_ids::Listed;
use gem_states::Control;
use host_messages::{
    Done, HostReply, Rows, accepted_carrier_rows, accepted_port_rows, carrier_action, port_word,
};
use job_requests::command_named;
use load_port::{Caack, PortAction};
use message_model::{ShopMsg, ShopReply};
use std::alloc::{AllocError, Global};

/// CAACK of an action on a carrier.
fn carrier_caack(plant: &Plant, action: &CarrierAction) -> Caack
    ensures { result ≡ carrier_caack action.now plant.now }
{
    if action.word == CarrierWord::Unknown {
        Caack::Unknown
    } else if plant.control() == Control::Local {
        Caack::NotNow
    } else {
        plant.floor().carrier_code(action)
    }
}

/// CAACK of an action on ports.
fn port_caack(plant: &Plant, action: &PortAction) -> Caack
    ensures { result ≡ port_caack action.now plant.now }
{
    if matches!(action, PortAction::Unknown) {
        Caack::Unknown
    } else if plant.control() == Control::Local {
        Caack::NotNow
    } else {
        plant.floor().shop().port_code(action)
    }
}

/// An action on a carrier, which is handed over, and so not copied: where its code is that it is done it writes, and fires its rows.
fn carrier_action_done(
    plant: &mut Plant,
    alloc: Global,
    action: CarrierAction,
) -> Result<Done, AllocError>
    ensures done { IfOk result (λ told. done_view told plant.new ≡ carrier_action_done plant.old action) }
    ensures sendable { IfOk result (λ told. CanBeSent told.reply) }
{
    let code = carrier_caack(plant, &action);
    let rows = if code.is_done() {
        write_carrier_action(plant, alloc, &action)?
    } else {
        Rows::none(alloc)
    };
    Ok(Done {
        reply: HostReply::Shop(ShopReply::S3F18(code.number())),
        rows,
    })
}

/// An action on a carrier that can be done is written. Gives the rows that it fires, by the plant before it.
fn write_carrier_action(
    plant: &mut Plant,
    alloc: Global,
    action: &CarrierAction,
) -> Result<Rows, AllocError>
    requires { is_done_code (carrier_code action.now plant.old.floor) ≡ true }
    ensures rows { IfOk result (λ rows. rows ≡ carrier_rows action.now plant.old.floor.shop) }
    ensures after { OnOk result (plant.new ≡ record plant.old { floor = with_shop (carrier_written action.now plant.old.floor.shop) plant.old.floor }) }
{
    let rows = accepted_carrier_rows(plant.floor().shop(), alloc, action)?;
    plant.write_action(action)?;
    Ok(rows)
}

/// The rows of an action on ports that is answered with this code: none where it is not done.
fn port_rows(
    plant: &Plant,
    alloc: Global,
    action: &PortAction,
    code: Caack,
) -> Result<Rows, AllocError>
    ensures { IfOk result (λ rows. rows ≡ (if is_done_code code then port_rows action.now plant.now.floor.shop else [])) }
{
    if code.is_done() {
        accepted_port_rows(plant.floor().shop(), alloc, action)
    } else {
        Ok(Rows::none(alloc))
    }
}

/// An action on a port, S3F25: where its code is that it is done it fires its rows.
#[inline(never)]
fn port_action_done(plant: &Plant, alloc: Global, action: &PortAction) -> Result<Done, AllocError>
    ensures done { IfOk result (λ told. done_view told plant.now ≡ port_action_done plant.now action.now (λ code. shop.S3F26 code)) }
    ensures sendable { IfOk result (λ told. CanBeSent told.reply) }
{
    let code = port_caack(plant, action);
    let rows = port_rows(plant, alloc, action, code)?;
    Ok(Done {
        reply: HostReply::Shop(ShopReply::S3F26(code.number())),
        rows,
    })
}

/// A change of the access of ports, S3F27: where its code is that it is done it fires its rows.
#[inline(never)]
fn access_done(
    plant: &Plant,
    alloc: Global,
    mode: u8,
    ports: &Listed<u8>,
) -> Result<Done, AllocError>
    ensures done { IfOk result (λ told. done_view told plant.now ≡ port_action_done plant.now (port.Access mode ports.now) (λ code. shop.S3F28 code)) }
    ensures sendable { IfOk result (λ told. CanBeSent told.reply) }
{
    let asked = PortAction::Access(mode, ports.clone()?);
    let code = port_caack(plant, &asked);
    let rows = port_rows(plant, alloc, &asked, code)?;
    Ok(Done {
        reply: HostReply::Shop(ShopReply::S3F28(code.number())),
        rows,
    })
}

/// A message of carriers, ports and jobs: what it is answered, and the rows that it fires, by the plant before it; and what it
/// writes is written.
pub fn shop_done(plant: &mut Plant, alloc: Global, message: &ShopMsg) -> Result<Done, AllocError>
    ensures done { IfOk result (λ told. done_view told plant.new ≡ shop_done plant.old (said message.now)) }
    ensures sendable { IfOk result (λ told. CanBeSent told.reply) }
{
    match message {
        ShopMsg::S3F17(_, action, carrier, port, attributes) => carrier_action_done(
            plant,
            alloc,
            carrier_action(action, carrier, *port, attributes.as_slice()),
        ),
        ShopMsg::S3F25(action, port, _) => {
            port_action_done(plant, alloc, &port_word(action, *port))
        }
        ShopMsg::S3F27(mode, ports) => access_done(plant, alloc, *mode, ports),
        ShopMsg::S14F9(_, kind, attributes) => {
            control_done(plant, alloc, kind, attributes.as_slice())
        }
        ShopMsg::S16F5(_, job, command, _) => {
            command_done(plant, alloc, job, command_named(*command))
        }
        ShopMsg::S16F11(_, job, carriers, recipe, start, events) => process_done(
            plant,
            alloc,
            job,
            carriers.as_slice(),
            &recipe.recipe,
            *start,
            events,
        ),
        ShopMsg::S16F17(names) => cancel_done(plant, alloc, names.as_slice()),
        ShopMsg::S16F19 => list_done(plant, alloc),
        ShopMsg::S16F21 => Ok(space_done(plant, alloc)),
        ShopMsg::S16F27(job, cmd, _) => control_command_done(plant, alloc, job, *cmd),
    }
}
