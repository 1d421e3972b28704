//! Replies to what the host asks of streams 1, 2, 5 and 6, by what the plant shows: the plant stays as it is.
ghost use Rattle.std.specs.Prelude.{◌≡◌, ◌≤◌, length, map, IfOk};
ghost use Rattle.data_variables.specs.Bodies.{name_item};
ghost use Rattle.data_variables.specs.Table.{constant_ids};
ghost use Rattle.event_reports.specs.Reports.{value_items, report_items, one_items};
ghost use Rattle.message_model.specs.declared.gem_reply.GemReply.TheVariants as reply;
ghost use Rattle.message_model.specs.GemReplies.{items as items_data};
ghost use Rattle.message_model.specs.GemSendable.{HasSendableParts};
ghost use Rattle.gem_model.specs.Messages.{or_all, status_name, alarm_part, alids_of, enabled_alids};
ghost use Rattle.gem_model.specs.Values.{no_firing, status_value, constant_value, value_of, svids};

use core_state::Plant;
use host_messages::{
    alarm_list, constant_names, constant_values, enabled_alarm_list, event_reports, one_report,
    status_names, status_values,
};
use message_model::GemReply;
use std::alloc::{AllocError, Global};

/// S1F4.
pub fn status_data(plant: &Plant, alloc: Global, ids: &[u32]) -> Result<GemReply, AllocError>
    requires { length ids.now ≤ 1024 }
    ensures reply { IfOk result (λ r. r ≡ reply.S1F4 (value_items (status_value plant.now) (or_all (svids plant.now) ids.now))) }
    ensures sendable { IfOk result HasSendableParts }
{
    Ok(GemReply::S1F4(status_values(&plant.seen(), alloc, ids)?))
}

/// S1F12.
pub fn status_namelist(plant: &Plant, alloc: Global, ids: &[u32]) -> Result<GemReply, AllocError>
    requires { length ids.now ≤ 1024 }
    ensures reply { IfOk result (λ r. r ≡ reply.S1F12 (map (status_name plant.now) (or_all (svids plant.now) ids.now))) }
    ensures sendable { IfOk result HasSendableParts }
{
    Ok(GemReply::S1F12(status_names(&plant.seen(), alloc, ids)?))
}

/// S2F14.
pub fn constant_data(plant: &Plant, alloc: Global, ids: &[u32]) -> Result<GemReply, AllocError>
    requires { length ids.now ≤ 1024 }
    ensures reply { IfOk result (λ r. r ≡ reply.S2F14 (value_items (constant_value plant.now) (or_all constant_ids ids.now))) }
    ensures sendable { IfOk result HasSendableParts }
{
    Ok(GemReply::S2F14(constant_values(&plant.seen(), alloc, ids)?))
}

/// S2F30.
pub fn constant_namelist(plant: &Plant, alloc: Global, ids: &[u32]) -> Result<GemReply, AllocError>
    requires { length ids.now ≤ 1024 }
    ensures reply { IfOk result (λ r. r ≡ reply.S2F30 (items_data (map name_item (or_all constant_ids ids.now)))) }
    ensures sendable { IfOk result HasSendableParts }
{
    Ok(GemReply::S2F30(constant_names(&plant.seen(), alloc, ids)?))
}

/// S5F6.
pub fn alarm_data(plant: &Plant, alloc: Global, ids: &[u32]) -> Result<GemReply, AllocError>
    requires { length ids.now ≤ 1024 }
    ensures reply { IfOk result (λ r. r ≡ reply.S5F6 (map (alarm_part plant.now) (or_all (alids_of plant.now) ids.now))) }
    ensures sendable { IfOk result HasSendableParts }
{
    Ok(GemReply::S5F6(alarm_list(&plant.seen(), alloc, ids)?))
}

/// S5F8.
pub fn enabled_alarm_data(plant: &Plant, alloc: Global) -> Result<GemReply, AllocError>
    ensures reply { IfOk result (λ r. r ≡ reply.S5F8 (map (alarm_part plant.now) (enabled_alids plant.now))) }
    ensures sendable { IfOk result HasSendableParts }
{
    Ok(GemReply::S5F8(enabled_alarm_list(&plant.seen(), alloc)?))
}

/// S6F16.
pub fn event_data(plant: &Plant, alloc: Global, ceid: u32) -> Result<GemReply, AllocError>
    ensures reply { IfOk result (λ r. r ≡ reply.S6F16 ceid (report_items (value_of no_firing plant.now) ceid plant.now.reports)) }
    ensures sendable { IfOk result HasSendableParts }
{
    Ok(GemReply::S6F16(ceid, event_reports(&plant.seen(), alloc, ceid)?))
}

/// S6F20.
pub fn report_data(plant: &Plant, alloc: Global, rptid: u32) -> Result<GemReply, AllocError>
    ensures reply { IfOk result (λ r. r ≡ reply.S6F20 (one_items (value_of no_firing plant.now) rptid plant.now.reports)) }
    ensures sendable { IfOk result HasSendableParts }
{
    Ok(GemReply::S6F20(one_report(&plant.seen(), alloc, rptid)?))
}
