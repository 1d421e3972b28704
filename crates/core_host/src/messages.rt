//! What a message of streams 1, 2, 5 and 6 does that is taken: its reply, what it writes, and its direct rows, all by the plant
//! before it. Each message is one arm: of `asked`, `set` or `fired`, by what it does, and S2F41 of `gem_done`.
//!
//! A function clears its locals at entry, with those of each call that is written out in its place. So a large one that few messages
//! need stands apart (`inline(never)`), and the others do not pay for it.
ghost use Rattle.std.specs.Prelude.{◌≡◌, true, IfOk};
ghost use Rattle.gem_ids.specs.Texts.{IsText};
ghost use Rattle.civil_time.specs.Civil.{moment_in, time_digits};
ghost use Rattle.message_model.specs.declared.gem_reply.GemReply.TheVariants as reply;
ghost use Rattle.gem_model.specs.State.{clock_now};
ghost use Rattle.message_model.specs.Few.{HasFewParts};
ghost use Rattle.message_model.specs.GemSendable.{HasSendableParts};
ghost use Rattle.gem_model.specs.Messages.{onlack, tiack, is_enabling, clock_set, answers, writes, gem_done};
ghost use Rattle.host_messages.specs.Dones.{done_view, CanBeSent};
ghost use Rattle.core_host.specs.Groups.{only_asks, sets, fires};

use crate::remote::command;
use crate::replies::{
    alarm_data, constant_data, constant_namelist, enabled_alarm_data, event_data, report_data,
    status_data, status_namelist,
};
use crate::spooling::spool_streams;
use core_state::Plant;
use gem_states::{CommTrigger, Control, ControlTrigger};
use host_messages::{Done, answered, fires_row, moment_in, tiack};
use message_model::{GemMsg, GemReply, Identity};
use plant_parts::{by_comm, part, unload_row};
use std::alloc::{AllocError, Global};

/// ONLACK: 0 in HOST OFF-LINE, 1 in EQUIPMENT OFF-LINE and ATTEMPT ON-LINE, 2 on-line.
fn onlack(control: Control) -> u8
    ensures { result ≡ onlack control }
{
    match control {
        Control::HostOffline => 0,
        Control::EquipmentOffline | Control::Attempt => 1,
        Control::Local | Control::Remote => 2,
    }
}

/// The clock is set to the moment that a text says, where it says one. Gives TIACK.
fn set_clock(plant: &mut Plant, text: &[u8]) -> u8
    ensures code { result ≡ tiack text.now }
    ensures after { plant.new ≡ clock_set (moment_in text.now) plant.old }
{
    plant.set_clock(moment_in(text));
    tiack(text)
}

/// Whether ALED enables.
fn is_enabling(aled: u8) -> bool
    ensures { result ≡ is_enabling aled }
{
    aled >= 128
}

/// What the tool tells of itself.
fn identity(plant: &Plant, alloc: Global) -> Result<Identity, AllocError>
    ensures identity { IfOk result (λ tool. tool ≡ record { mdln = plant.now.config.mdln; softrev = plant.now.config.softrev }) }
    ensures mdln { IfOk result (λ tool. IsText tool.mdln) }
    ensures softrev { IfOk result (λ tool. IsText tool.softrev) }
{
    Ok(Identity {
        mdln: part(alloc, plant.config().mdln)?,
        softrev: part(alloc, plant.config().softrev)?,
    })
}

/// S1F2.
fn on_line_data(plant: &Plant, alloc: Global) -> Result<GemReply, AllocError>
    ensures reply { IfOk result (λ r. r ≡ reply.S1F2 plant.now.config.mdln plant.now.config.softrev) }
    ensures sendable { IfOk result HasSendableParts }
{
    let Identity { mdln, softrev } = identity(plant, alloc)?;
    Ok(GemReply::S1F2(mdln, softrev))
}

/// S1F14.
fn established(plant: &Plant, alloc: Global) -> Result<GemReply, AllocError>
    ensures reply { IfOk result (λ r. r ≡ reply.S1F14 (record { mdln = plant.now.config.mdln; softrev = plant.now.config.softrev })) }
    ensures sendable { IfOk result HasSendableParts }
{
    Ok(GemReply::S1F14(identity(plant, alloc)?))
}

/// S2F18.
fn date_and_time(plant: &Plant, alloc: Global) -> Result<GemReply, AllocError>
    ensures reply { IfOk result (λ r. r ≡ reply.S2F18 (time_digits (clock_now plant.now))) }
    ensures sendable { IfOk result HasSendableParts }
{
    Ok(GemReply::S2F18(plant.seen().time_text(alloc)?))
}

/// What a message is answered that only asks.
fn asked(plant: &Plant, alloc: Global, message: &GemMsg) -> Result<GemReply, AllocError>
    requires few { HasFewParts message.now }
    requires asks { only_asks message.now ≡ true }
    ensures reply { IfOk result (λ r. gem_done plant.now message.now ≡ answers r plant.now) }
    ensures sendable { IfOk result HasSendableParts }
{
    match message {
        GemMsg::S1F1 => on_line_data(plant, alloc),
        GemMsg::S1F3(ids) => status_data(plant, alloc, ids.as_slice()),
        GemMsg::S1F11(ids) => status_namelist(plant, alloc, ids.as_slice()),
        GemMsg::S2F13(ids) => constant_data(plant, alloc, ids.as_slice()),
        GemMsg::S2F17 => date_and_time(plant, alloc),
        GemMsg::S2F29(ids) => constant_namelist(plant, alloc, ids.as_slice()),
        GemMsg::S5F5(ids) => alarm_data(plant, alloc, ids.as_slice()),
        GemMsg::S5F7 => enabled_alarm_data(plant, alloc),
        GemMsg::S6F15(ceid) => event_data(plant, alloc, *ceid),
        GemMsg::S6F19(rptid) => report_data(plant, alloc, *rptid),
        _ => unreachable!(),
    }
}

/// A message that sets something: it is set, where it can be. Gives what the message is answered.
#[inline(never)]
fn set(plant: &mut Plant, alloc: Global, message: &GemMsg) -> Result<GemReply, AllocError>
    requires few { HasFewParts message.now }
    requires sets { sets message.now ≡ true }
    ensures reply { IfOk result (λ r. gem_done plant.old message.now ≡ writes r plant.new) }
    ensures sendable { IfOk result HasSendableParts }
{
    match message {
        GemMsg::S2F15(settings) => Ok(GemReply::S2F16(plant.set_constants(
            alloc,
            settings.as_slice(),
        )?)),
        GemMsg::S2F31(text) => Ok(GemReply::S2F32(set_clock(plant, text.as_slice()))),
        GemMsg::S2F33(_, reports) => Ok(GemReply::S2F34(plant.define_reports(
            alloc,
            reports.as_slice(),
        )?)),
        GemMsg::S2F35(_, events) => {
            Ok(GemReply::S2F36(plant.link_reports(alloc, events.as_slice())?))
        }
        GemMsg::S2F37(on, ceids) => {
            Ok(GemReply::S2F38(plant.enable_events(*on, ceids.as_slice())))
        }
        GemMsg::S2F43(entries) => spool_streams(plant, alloc, entries.as_slice()),
        GemMsg::S5F3(aled, alid) => {
            Ok(GemReply::S5F4(plant.enable_alarms(is_enabling(*aled), *alid)))
        }
        _ => unreachable!(),
    }
}

/// A message whose row fires: what it is answered, and the row, by the plant before it.
#[inline(never)]
fn fired(plant: &Plant, alloc: Global, message: &GemMsg) -> Result<Done, AllocError>
    requires fires { fires message.now ≡ true }
    ensures done { IfOk result (λ told. done_view told plant.now ≡ gem_done plant.now message.now) }
    ensures sendable { IfOk result (λ told. CanBeSent told.reply) }
{
    match message {
        GemMsg::S1F13 => Ok(fires_row(
            alloc,
            established(plant, alloc)?,
            by_comm(CommTrigger::HostS1F13),
        )),
        GemMsg::S1F15 => Ok(fires_row(
            alloc,
            GemReply::S1F16,
            plant.by_control(ControlTrigger::HostS1F15),
        )),
        GemMsg::S1F17 => Ok(fires_row(
            alloc,
            GemReply::S1F18(onlack(plant.control())),
            plant.by_control(ControlTrigger::HostS1F17),
        )),
        GemMsg::S6F23(rsdc) => Ok(fires_row(
            alloc,
            GemReply::S6F24(plant.rsda()),
            unload_row(*rsdc),
        )),
        _ => unreachable!(),
    }
}

/// A message of streams 1, 2, 5 and 6: what it is answered, and the rows that it fires, by the plant before it; and what it writes
/// is written.
pub fn gem_done(plant: &mut Plant, alloc: Global, message: &GemMsg) -> Result<Done, AllocError>
    requires { HasFewParts message.now }
    ensures done { IfOk result (λ told. done_view told plant.new ≡ gem_done plant.old message.now) }
    ensures sendable { IfOk result (λ told. CanBeSent told.reply) }
{
    let reply = match message {
        GemMsg::S1F1
        | GemMsg::S1F3(_)
        | GemMsg::S1F11(_)
        | GemMsg::S2F13(_)
        | GemMsg::S2F17
        | GemMsg::S2F29(_)
        | GemMsg::S5F5(_)
        | GemMsg::S5F7
        | GemMsg::S6F15(_)
        | GemMsg::S6F19(_) => asked(plant, alloc, message)?,
        GemMsg::S2F15(_)
        | GemMsg::S2F31(_)
        | GemMsg::S2F33(_, _)
        | GemMsg::S2F35(_, _)
        | GemMsg::S2F37(_, _)
        | GemMsg::S2F43(_)
        | GemMsg::S5F3(_, _) => set(plant, alloc, message)?,
        GemMsg::S1F13 | GemMsg::S1F15 | GemMsg::S1F17 | GemMsg::S6F23(_) => {
            return fired(plant, alloc, message);
        }
        GemMsg::S2F41(name, parameters) => {
            return command(plant, alloc, name.as_bytes(), parameters.as_slice());
        }
    };
    Ok(answered(alloc, reply))
}
