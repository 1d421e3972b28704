//! What the host asks of process jobs and control jobs (SEMI E40, S16F5, S16F11, S16F17, S16F19 and S16F21; SEMI E94, S14F9 and
//! S16F27): what it is answered, and what is done. Why something isn't done is told by the jobs before the message.
//!
//! A function clears its locals at entry, with those of each call that is written out in its place. So a large one that few messages
//! need stands apart (`inline(never)`), and the others do not pay for it.
ghost use Rattle.std.specs.Prelude.{◌≡◌, None, true, false, OnOk, IfOk};
ghost use Rattle.item_model.specs.View.{view};
ghost use Rattle.process_job.specs.Creating.{create_fault};
ghost use Rattle.control_job.specs.Jobs.{headed};
ghost use Rattle.tool_jobs.specs.Creating.{with_process, with_control, control_fault, is_any_missing};
ghost use Rattle.request_model.specs.Acts.{act_after, act_rows};
ghost use Rattle.request_model.specs.Requests.{is_job_name, asked_process, process_rows, asked_control, control_rows, cancel_error};
ghost use Rattle.gem_model.specs.Remote.{is_local};
ghost use Rattle.gem_model.specs.JobMessages.{acknowledged, jobs_of, with_jobs_now, process_done, control_done, command_done, cancel_done, control_command_done, list_done, space_done};
ghost use Rattle.host_messages.specs.Dones.{done_view, CanBeSent};

use core_state::Plant;
use gem_ids::{Listed, Text80};
use gem_states::Control;
use host_messages::{
    Done, HostReply, Rows, acknowledged, command_rows, errors_of, few_cancelled, listed_jobs,
    object_acknowledged,
};
use item_model::Item;
use job_requests::{
    cancel_error, cancel_rows, command_error, control_command, control_command_error,
    control_error, control_id, control_names, control_request, control_row, job_name,
    process_error, process_row, process_spec,
};
use message_model::{CarrierSlots, JobAcknowledge, NamedValue, ShopReply};
use request_model::{ControlRequest, QueueAct};
use std::alloc::{AllocError, Global};
use tool_tasks::JobWord;

// ---- process jobs

/// S16F11, a process job is created: where nothing stands against it, it is QUEUED, and its row of creation fires. S16F12 tells its
/// name, and else the error. The parts are those of the message in their order; `AllocError` where there is no memory.
#[inline(never)]
pub fn process_done(
    plant: &mut Plant,
    alloc: Global,
    job: &Text80,
    carriers: &[CarrierSlots],
    recipe: &Text80,
    start: bool,
    events: &Item,
) -> Result<Done, AllocError>
    ensures done { IfOk result (λ told. done_view told plant.new ≡ process_done plant.old (asked_process job.now carriers.now recipe.now start) (view events.now)) }
    ensures sendable { IfOk result (λ told. CanBeSent told.reply) }
{
    let error = process_error(
        is_local(plant),
        *job,
        carriers,
        *recipe,
        events,
        plant.jobs(),
    );
    let told = acknowledged(alloc, error)?;
    let rows = match error {
        Some(_) => Rows::none(alloc),
        None => create_process(plant, alloc, *job, carriers, *recipe, start)?,
    };
    Ok(Done {
        reply: HostReply::Shop(ShopReply::S16F12(*job, told)),
        rows,
    })
}

// A process job is created that can be. Gives its row of creation.
fn create_process(
    plant: &mut Plant,
    alloc: Global,
    job: Text80,
    carriers: &[CarrierSlots],
    recipe: Text80,
    start: bool,
) -> Result<Rows, AllocError>
    requires named { is_job_name job ≡ true }
    requires free { create_fault (asked_process job carriers.now recipe start) (jobs_of plant.old).process ≡ None }
    ensures rows { IfOk result (λ rows. rows ≡ process_rows (jobs_of plant.old)) }
    ensures after { OnOk result (plant.new ≡ with_jobs_now (with_process (asked_process job carriers.now recipe start) (jobs_of plant.old)) plant.old) }
{
    let spec = process_spec(alloc, job, carriers, recipe, start)?;
    plant.create_process(spec)?;
    Ok(Rows::one(alloc, process_row(plant.jobs())))
}

/// S16F5, a command on the process job of a name, by its word where there is one: where nothing stands against it, its row of table 14
/// fires. S16F6 tells the name, and else the error. `AllocError` where there is no memory.
#[inline(never)]
pub fn command_done(
    plant: &Plant,
    alloc: Global,
    job: &Text80,
    word: Option<JobWord>,
) -> Result<Done, AllocError>
    ensures done { IfOk result (λ told. done_view told plant.now ≡ command_done plant.now job.now word) }
    ensures sendable { IfOk result (λ told. CanBeSent told.reply) }
{
    let error = command_error(is_local(plant), *job, word, plant.jobs());
    let told = acknowledged(alloc, error)?;
    let rows = match error {
        Some(_) => Rows::none(alloc),
        None => command_rows(alloc, *job, word, plant.jobs()),
    };
    Ok(Done {
        reply: HostReply::Shop(ShopReply::S16F6(*job, told)),
        rows,
    })
}

/// S16F17, process jobs that are QUEUED are cancelled, all where none is named: where nothing stands against it, row 15 of table 14
/// fires at each. S16F18 tells their names, and else the error. `AllocError` where there is no memory.
#[inline(never)]
pub fn cancel_done(plant: &Plant, alloc: Global, names: &[Text80]) -> Result<Done, AllocError>
    ensures done { IfOk result (λ told. done_view told plant.now ≡ cancel_done plant.now names.now) }
    ensures sendable { IfOk result (λ told. CanBeSent told.reply) }
{
    let error = cancel_error(is_local(plant), names, plant.jobs());
    let told = acknowledged(alloc, error)?;
    match error {
        Some(_) => Ok(Done {
            reply: HostReply::Shop(ShopReply::S16F18(Listed::new(alloc), told)),
            rows: Rows::none(alloc),
        }),
        None => cancel(plant, alloc, names, told),
    }
}

// The process jobs are cancelled that S16F17 names: it is answered so, and their rows fire.
fn cancel(
    plant: &Plant,
    alloc: Global,
    names: &[Text80],
    told: JobAcknowledge,
) -> Result<Done, AllocError>
    requires free { cancel_error (is_local plant.now.control) names.now (jobs_of plant.now) ≡ None }
    requires told { told ≡ acknowledged None }
    ensures done { IfOk result (λ told. done_view told plant.now ≡ cancel_done plant.now names.now) }
    ensures sendable { IfOk result (λ told. CanBeSent told.reply) }
{
    let jobs = few_cancelled(alloc, names, plant.jobs())?;
    let rows = cancel_rows(alloc, jobs.as_slice(), plant.jobs())?;
    Ok(Done {
        reply: HostReply::Shop(ShopReply::S16F18(jobs, told)),
        rows: Rows::from_vec(rows.into_vec()),
    })
}

/// S16F19, the process jobs are listed in the order of creation: S16F20 tells each with its state, and nothing is done. `AllocError`
/// where there is no memory.
#[inline(never)]
pub fn list_done(plant: &Plant, alloc: Global) -> Result<Done, AllocError>
    ensures done { IfOk result (λ told. done_view told plant.now ≡ list_done plant.now) }
    ensures sendable { IfOk result (λ told. CanBeSent told.reply) }
{
    let jobs = listed_jobs(alloc, plant.jobs().process())?;
    Ok(Done {
        reply: HostReply::Shop(ShopReply::S16F20(jobs)),
        rows: Rows::none(alloc),
    })
}

/// S16F21, S16F22 tells how many more process jobs can be created, and nothing is done. Takes no memory.
pub fn space_done(plant: &Plant, alloc: Global) -> Done
    ensures done { done_view result plant.now ≡ space_done plant.now }
    ensures sendable { CanBeSent result.reply }
{
    Done {
        reply: HostReply::Shop(ShopReply::S16F22(plant.jobs().process().space())),
        rows: Rows::none(alloc),
    }
}

// ---- control jobs

/// S14F9, a control job is created of this type and these attributes: where nothing stands against it, it is QUEUED, and its row of
/// creation fires. S14F10 tells its name, and else the error. `AllocError` where there is no memory.
#[inline(never)]
pub fn control_done(
    plant: &mut Plant,
    alloc: Global,
    kind: &Text80,
    attributes: &[NamedValue],
) -> Result<Done, AllocError>
    ensures done { IfOk result (λ told. done_view told plant.new ≡ control_done plant.old kind.now (asked_control attributes.now)) }
    ensures sendable { IfOk result (λ told. CanBeSent told.reply) }
{
    let request = control_request(alloc, attributes)?;
    asked_control_done(plant, alloc, kind, &request)
}

// The same of what the attributes ask for.
fn asked_control_done(
    plant: &mut Plant,
    alloc: Global,
    kind: &Text80,
    request: &ControlRequest,
) -> Result<Done, AllocError>
    ensures done { IfOk result (λ told. done_view told plant.new ≡ control_done plant.old kind.now request.now) }
    ensures sendable { IfOk result (λ told. CanBeSent told.reply) }
{
    let error = control_error(alloc, is_local(plant), *kind, request, plant.jobs())?;
    let reply = ShopReply::S14F10(request.name, object_acknowledged(alloc, error)?);
    let rows = match error {
        Some(_) => Rows::none(alloc),
        None => create_control(plant, alloc, request)?,
    };
    Ok(Done {
        reply: HostReply::Shop(reply),
        rows,
    })
}

// A control job is created that can be. Gives its row of creation.
fn create_control(
    plant: &mut Plant,
    alloc: Global,
    request: &ControlRequest,
) -> Result<Rows, AllocError>
    requires named { is_job_name request.now.name ≡ true }
    requires there { is_any_missing request.now.jobs (jobs_of plant.old) ≡ false }
    requires free { control_fault request.now.name request.now.jobs (jobs_of plant.old) ≡ None }
    ensures rows { IfOk result (λ rows. rows ≡ control_rows (jobs_of plant.old)) }
    ensures after { OnOk result (plant.new ≡ with_jobs_now (with_control request.now.name request.now.jobs request.now.auto (jobs_of plant.old)) plant.old) }
{
    let names = control_names(alloc, request.jobs.as_slice(), plant.jobs())?;
    plant.create_control(
        alloc,
        job_name(request.name),
        names.as_slice(),
        request.auto,
    )?;
    Ok(Rows::one(alloc, control_row(plant.jobs())))
}

/// S16F27, a command on the control job of a name: where nothing stands against it, its row of table 15 fires, or the job goes first in
/// the queue. S16F28 tells whether it is done, and else the error. `AllocError` where there is no memory.
#[inline(never)]
pub fn control_command_done(
    plant: &mut Plant,
    alloc: Global,
    job: &Text80,
    cmd: u8,
) -> Result<Done, AllocError>
    ensures done { IfOk result (λ told. done_view told plant.new ≡ control_command_done plant.old job.now cmd) }
    ensures sendable { IfOk result (λ told. CanBeSent told.reply) }
{
    let error = control_command_error(is_local(plant), *job, cmd, plant.jobs());
    let reply = ShopReply::S16F28(error.is_none(), errors_of(alloc, error)?);
    let rows = match error {
        Some(_) => Rows::none(alloc),
        None => act(plant, alloc, *job, control_command(*job, cmd, plant.jobs())),
    };
    Ok(Done {
        reply: HostReply::Shop(reply),
        rows,
    })
}

// A command is done on the control job of a name. Gives its row.
fn act(plant: &mut Plant, alloc: Global, job: Text80, act: Option<QueueAct>) -> Rows
    ensures rows { result ≡ act_rows act }
    ensures after { plant.new ≡ with_jobs_now (act_after job act (jobs_of plant.old)) plant.old }
{
    match act {
        Some(QueueAct::Fires(row)) => Rows::one(alloc, Some(row)),
        Some(QueueAct::Heads) => {
            make_head(plant, job);
            Rows::none(alloc)
        }
        None => Rows::none(alloc),
    }
}

// The QUEUED control job of a name goes first in the queue; without one nothing changes.
fn make_head(plant: &mut Plant, job: Text80)
    ensures { plant.new ≡ with_jobs_now (record (jobs_of plant.old) { control = headed job (jobs_of plant.old).control }) plant.old }
{
    if let Some(id) = control_id(plant.jobs().control(), job) {
        plant.head_of_queue(id);
    }
}

// ---- parts

// Whether the operator commands: ON-LINE LOCAL.
fn is_local(plant: &Plant) -> bool
    ensures { result ≡ is_local plant.now.control }
{
    plant.control() == Control::Local
}
