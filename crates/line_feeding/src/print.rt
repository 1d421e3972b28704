//! The output lines of an answer.
ghost use Rattle.std.specs.Prelude.{◌≡◌, ◌++◌, Some, OnOk};
ghost use Rattle.line_grammar.specs.declared.out_line.OutLine.TheVariants as out_line;
ghost use Rattle.gem_model.specs.Printed.{command_line, answer_line, end_line, line_bytes};

use gem_ids::ModuleId;
use hsms_frame::Bytes;
use std::alloc::{AllocError, Global};
use tool_events::{Answer, SessionEnd};
use tool_tasks::Command;
use tool_texts::{OutLine, print_out_line};

/// Appends the line of a session that came up.
fn print_up(alloc: Global, session: u64, text: &mut Vec<u8>) -> Result<(), AllocError>
    ensures { OnOk result (text.new.items ≡ text.old.items ++ line_bytes (Some (out_line.Up session))) }
{
    print_out_line(alloc, &OutLine::Up(session), text)
}

/// Appends the line of an operator's command, by whether it was accepted.
fn print_accepted(alloc: Global, accepted: bool, text: &mut Vec<u8>) -> Result<(), AllocError>
    ensures { OnOk result (text.new.items ≡ text.old.items ++ line_bytes (Some (out_line.Oper accepted))) }
{
    print_out_line(alloc, &OutLine::Oper(accepted), text)
}

/// Appends the line of a session that ended.
fn print_end(alloc: Global, end: SessionEnd, text: &mut Vec<u8>) -> Result<(), AllocError>
    ensures { OnOk result (text.new.items ≡ text.old.items ++ line_bytes (end_line (Some end))) }
{
    print_out_line(alloc, &OutLine::Ended(end.session, end.cause), text)
}

/// Appends the line of a frame that was taken.
fn print_taken(alloc: Global, frame: Bytes, text: &mut Vec<u8>) -> Result<(), AllocError>
    ensures { OnOk result (text.new.items ≡ text.old.items ++ line_bytes (Some (out_line.Frame frame))) }
{
    print_out_line(alloc, &OutLine::Frame(frame), text)
}

/// Appends the line of a command, by the module that fetched it.
fn print_command(
    alloc: Global,
    m: Option<ModuleId>,
    command: Command,
    text: &mut Vec<u8>,
) -> Result<(), AllocError>
    ensures { OnOk result (text.new.items ≡ text.old.items ++ line_bytes (command_line m command)) }
{
    match m {
        Some(m) => print_out_line(alloc, &OutLine::Command(m, command), text),
        None => Ok(()),
    }
}

/// Appends the line of an answer to an event that lets this module fetch, or none, where it has one.
fn print_answer(
    alloc: Global,
    m: Option<ModuleId>,
    answer: Answer,
    text: &mut Vec<u8>,
) -> Result<(), AllocError>
    ensures { OnOk result (text.new.items ≡ text.old.items ++ line_bytes (answer_line m answer)) }
{
    match answer {
        Answer::Session(session) => print_up(alloc, session, text),
        Answer::Frame(frame) => print_taken(alloc, frame, text),
        Answer::Oper(accepted) => print_accepted(alloc, accepted, text),
        Answer::Command(command) => print_command(alloc, m, command, text),
        Answer::Done | Answer::Ended => Ok(()),
    }
}

/// Puts the lines of an answer to an event that lets this module fetch, or none, and of the session that ended with it, if one did,
/// in place of what stands in `text`.
pub fn outcome_text(
    alloc: Global,
    m: Option<ModuleId>,
    answer: Answer,
    ended: Option<SessionEnd>,
    text: &mut Vec<u8>,
) -> Result<(), AllocError>
    ensures { OnOk result (text.new.items ≡ line_bytes (answer_line m answer) ++ line_bytes (end_line ended)) }
{
    text.clear();
    print_answer(alloc, m, answer, text)?;
    if let Some(end) = ended {
        print_end(alloc, end, text)?;
    }
    Ok(())
}
