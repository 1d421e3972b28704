//! Remote commands of the host, their parameters, and what is faulty in these (SEMI E5, S2F41; SEMI E30, remote control; SEMI
//! E40, commands to process jobs).
ghost use Rattle.std.specs.Prelude.{◌≡◌, List, [], length, IfOk, option_map};
ghost use Rattle.std.specs.Option.{option_copied};
ghost use Rattle.item_model.specs.View.{view};
ghost use Rattle.message_model.specs.Bodies.{text};
ghost use Rattle.gem_model.specs.State.{State};
ghost use Rattle.gem_model.specs.Remote.{Parameter, command_named, takes, has_format, is_known, cpack, faulty, is_missing, alarm_named, job_named, refused, clearing, commanding, is_local, decided, hcack_number};
ghost use Rattle.host_messages.specs.Remotes.{remote_view, hcack_view, decision_view, was_taken, parameter_named, hcack_of, ListsFew};

use event_reports::Alarms;
use gem_ids::{Listed, Text80};
use item_model::Item;
use job_requests::command_error;
use message_model::{Parameter, ParameterAcknowledge};
use request_model::JobError;
use std::alloc::{AllocError, Global};
use tool_jobs::Jobs;
use tool_tasks::JobWord;

/// The remote commands: GOLOCAL, CLEARALARM, and those to a process job.
#[derive(Clone, Copy, PartialEq, Eq)]
enum RemoteCommand {
    GoLocal,
    ClearAlarm,
    ToJob(JobWord),
}

/// HCACK of a command that is refused, as far as the tool uses it (SEMI E5, S2F42).
#[derive(Clone, Copy)]
pub enum Hcack {
    UnknownCommand,
    NotNow,
    FaultyParameter,
    AlreadySo,
    NoObject,
}

impl Hcack {
    /// Its number.
    pub fn number(self) -> u8
        ensures { result ≡ hcack_number (hcack_view self) }
    {
        match self {
            Hcack::UnknownCommand => 1,
            Hcack::NotNow => 2,
            Hcack::FaultyParameter => 3,
            Hcack::AlreadySo => 5,
            Hcack::NoObject => 6,
        }
    }
}

/// What is decided of a command: it is refused with a code and the faulty parameters that S2F42 lists; or it is done, and
/// then HCACK is 0: GOLOCAL, CLEARALARM of this alarm, or a command to the process job of a name.
#[derive(Drop)]
pub enum Decision {
    Refused(Hcack, Listed<ParameterAcknowledge>),
    GoesLocal,
    Clears(u32),
    Commands(Text80, JobWord),
}

/// The command of a name.
fn command_named(name: &[u8]) -> Option<RemoteCommand>
    ensures { option_map remote_view result ≡ command_named name.now }
{
    if name == b"GOLOCAL".as_slice() {
        Some(RemoteCommand::GoLocal)
    } else if name == b"CLEARALARM".as_slice() {
        Some(RemoteCommand::ClearAlarm)
    } else if name == b"START".as_slice() {
        Some(RemoteCommand::ToJob(JobWord::Start))
    } else if name == b"PAUSE".as_slice() {
        Some(RemoteCommand::ToJob(JobWord::Pause))
    } else if name == b"RESUME".as_slice() {
        Some(RemoteCommand::ToJob(JobWord::Resume))
    } else if name == b"STOP".as_slice() {
        Some(RemoteCommand::ToJob(JobWord::Stop))
    } else if name == b"ABORT".as_slice() {
        Some(RemoteCommand::ToJob(JobWord::Abort))
    } else {
        None
    }
}

// ---- a parameter

/// Whether a command takes a parameter of this name. No command takes two names.
fn takes(command: RemoteCommand, name: &[u8]) -> bool
    ensures { result ≡ takes (remote_view command) name.now }
{
    match command {
        RemoteCommand::GoLocal => false,
        RemoteCommand::ClearAlarm => name == b"ALID".as_slice(),
        RemoteCommand::ToJob(_) => name == b"PRJOBID".as_slice(),
    }
}

/// Whether a command takes a parameter.
fn is_taken(command: RemoteCommand, parameter: &Parameter) -> bool
    ensures { result ≡ takes (remote_view command) parameter.now.0 }
{
    takes(command, parameter.name().as_bytes())
}

/// The text of an item.
fn text_of(item: &Item) -> Option<Text80>
    ensures { result ≡ text (view item.now) }
{
    match item {
        Item::Ascii(bytes) => match Text80::read(bytes.as_slice()) {
            Ok(text) => Some(text),
            Err(_) => None,
        },
        _ => None,
    }
}

/// Whether a value has the format of the parameter that a command takes: that of an ALID is an id, that of a PRJOBID a text.
fn has_format(command: RemoteCommand, item: &Item) -> bool
    ensures { result ≡ has_format (remote_view command) (view item.now) }
{
    match command {
        RemoteCommand::GoLocal => false,
        RemoteCommand::ClearAlarm => item.as_id().is_some(),
        RemoteCommand::ToJob(_) => text_of(item).is_some(),
    }
}

/// Whether a value names what there may be: the alarm of an ALID is one of the tool, and a PRJOBID may name any job.
fn is_known(command: RemoteCommand, alarms: &Alarms, item: &Item) -> bool
    ensures { result ≡ is_known (remote_view command) alarms.now (view item.now) }
{
    match command {
        RemoteCommand::GoLocal => false,
        RemoteCommand::ClearAlarm => match item.as_id() {
            Some(alid) => alarms.is_known(alid),
            None => false,
        },
        RemoteCommand::ToJob(_) => true,
    }
}

/// CPACK of a parameter, by whether one that the command takes was given before it: 1 for an unknown name, 3 for a wrong format,
/// 2 for an unknown alarm and for a parameter that was given before, and else 0.
fn cpack(alarms: &Alarms, command: RemoteCommand, is_given: bool, parameter: &Parameter) -> u8
    ensures { (earlier : List Parameter) → is_given ≡ was_taken (remote_view command) earlier → result ≡ cpack (remote_view command) alarms.now earlier parameter.now }
{
    if !is_taken(command, parameter) {
        return 1;
    }
    let item = parameter.item();
    if !has_format(command, item) {
        return 3;
    }
    if !is_known(command, alarms, item) || is_given {
        return 2;
    }
    0
}

// ---- the parameters

/// The faulty parameters, each with its CPACK, in order.
fn faulty(
    alarms: &Alarms,
    alloc: Global,
    command: RemoteCommand,
    parameters: &[Parameter],
) -> Result<Listed<ParameterAcknowledge>, AllocError>
    ensures { IfOk result (λ faults. faults ≡ faulty (remote_view command) alarms.now [] parameters.now) }
{
    let mut faults = Listed::new(alloc);
    // A command takes one name at most, so only what it takes can be faulty by having been given before.
    let mut is_given = false;
    for parameter in parameters {
        let code = cpack(alarms, command, is_given, parameter);
        if code != 0 {
            faults.push(ParameterAcknowledge {
                name: parameter.name(),
                cpack: code,
            })?;
        }
        is_given |= is_taken(command, parameter);
    }
    Ok(faults)
}

/// Whether one of these parameters is one that the command takes.
fn was_taken(command: RemoteCommand, parameters: &[Parameter]) -> bool
    ensures { result ≡ was_taken (remote_view command) parameters.now }
{
    parameters
        .iter()
        .any(|parameter| is_taken(command, parameter))
}

/// Whether a parameter that the command needs is missing.
fn is_missing(command: RemoteCommand, parameters: &[Parameter]) -> bool
    ensures { result ≡ is_missing (remote_view command) parameters.now }
{
    command != RemoteCommand::GoLocal && !was_taken(command, parameters)
}

/// The first parameter of a name.
fn parameter_named<'a>(name: &[u8], parameters: &'a [Parameter]) -> Option<&'a Parameter>
    ensures { option_copied result ≡ parameter_named name.now parameters.now }
{
    parameters
        .iter()
        .find(|parameter| parameter.name().as_bytes() == name)
}

/// The alarm that the parameters name.
fn alarm_named(parameters: &[Parameter]) -> Option<u32>
    ensures { result ≡ alarm_named parameters.now }
{
    match parameter_named(b"ALID", parameters) {
        Some(parameter) => parameter.item().as_id(),
        None => None,
    }
}

/// The process job that the parameters name.
fn job_named(parameters: &[Parameter]) -> Option<Text80>
    ensures { result ≡ job_named parameters.now }
{
    match parameter_named(b"PRJOBID", parameters) {
        Some(parameter) => text_of(parameter.item()),
        None => None,
    }
}

// ---- what is decided

/// A command is refused with a code, and no parameter is listed.
fn refused(alloc: Global, code: Hcack) -> Decision
    ensures decision { decision_view result ≡ refused (hcack_view code) [] }
    ensures few { ListsFew 0 result }
{
    Decision::Refused(code, Listed::new(alloc))
}

/// CLEARALARM of the alarm that is named, where it is set.
fn clearing(alarms: &Alarms, alloc: Global, alid: Option<u32>) -> Decision
    ensures decision { decision_view result ≡ clearing alarms.now alid }
    ensures few { ListsFew 0 result }
{
    match alid {
        Some(alid) if alarms.is_set(alid) => Decision::Clears(alid),
        _ => refused(alloc, Hcack::AlreadySo),
    }
}

/// HCACK of a command to a process job, by why it isn't done.
fn hcack_of(error: JobError) -> Hcack
    ensures { hcack_view result ≡ hcack_of error }
{
    match error {
        JobError::UnknownObject => Hcack::NoObject,
        _ => Hcack::NotNow,
    }
}

/// A command to the process job that is named, where it is there and the command can be done at its state.
fn commanding(jobs: &Jobs, alloc: Global, word: JobWord, job: Option<Text80>) -> Decision
    ensures decision { (g : State) → g.floor.jobs ≡ jobs.now → decision_view result ≡ commanding g word job }
    ensures few { ListsFew 0 result }
{
    let Some(job) = job else {
        return refused(alloc, Hcack::NoObject);
    };
    match command_error(false, job, Some(word), jobs) {
        Some(error) => refused(alloc, hcack_of(error)),
        None => Decision::Commands(job, word),
    }
}

/// What is decided of the command of a name, by the alarms, the jobs, and whether the operator commands (ON-LINE LOCAL). The first
/// of these that fits refuses it: it is unknown; ON-LINE LOCAL; a parameter is faulty or missing, and the faulty ones are
/// listed; CLEARALARM of an alarm that is clear; a command to a process job that isn't there, or can't be done at its state
/// (SEMI E5, S2F42; docs/profile/remote.md). `AllocError` where there is no memory for the faulty parameters.
#[tactic(auto, using(crate::proofs::Faults::few_faults))]
pub fn decided(
    alarms: &Alarms,
    jobs: &Jobs,
    local: bool,
    alloc: Global,
    name: &[u8],
    parameters: &[Parameter],
) -> Result<Decision, AllocError>
    ensures decision { (g : State) → g.alarms ≡ alarms.now → g.floor.jobs ≡ jobs.now → is_local g.control ≡ local → IfOk result (λ decision. decision_view decision ≡ decided g name.now parameters.now) }
    ensures few { IfOk result (ListsFew (length parameters.now)) }
{
    let Some(command) = command_named(name) else {
        return Ok(refused(alloc, Hcack::UnknownCommand));
    };
    if local {
        return Ok(refused(alloc, Hcack::NotNow));
    }
    let faults = faulty(alarms, alloc, command, parameters)?;
    if !faults.is_empty() || is_missing(command, parameters) {
        return Ok(Decision::Refused(Hcack::FaultyParameter, faults));
    }
    match command {
        RemoteCommand::GoLocal => Ok(Decision::GoesLocal),
        RemoteCommand::ClearAlarm => Ok(clearing(alarms, alloc, alarm_named(parameters))),
        RemoteCommand::ToJob(word) => Ok(commanding(jobs, alloc, word, job_named(parameters))),
    }
}
