//! The printer of output lines.
ghost use Rattle.std.specs.Prelude.{◌≡◌, ◌++◌, ◌*◌, length, take, OnOk, OnErr, IfOk, codes};
ghost use Rattle.hex.specs.Hex.{encode_upper};
ghost use Rattle.std.specs.Fmt.{decimal};
ghost use Rattle.std.specs.String.{string_bytes};
ghost use Rattle.line_grammar.specs.OutLines.{cause_word, ended_line, up_line, end_line, frame_line, oper_line, two_digits, location_name, task_words, command_line, out_line_bytes};

use gem_ids::{LocId, ModuleId};
use hsms_frame::NoMemory;
use line_grammar::OutLine;
use std::alloc::{AllocError, Global};
use tool_events::SessionCause;
use tool_tasks::{Command, Task};

/// Appends an output line, with its line feed (this tool's profile, output lines). After want of memory `out` is as
/// before.
pub fn print_out_line(alloc: Global, o: &OutLine, out: &mut Vec<u8>) -> Result<(), NoMemory>
    ensures ok { OnOk result (out.new.items ≡ out.old.items ++ out_line_bytes o.now) }
    ensures err { OnErr result (out.new.items ≡ out.old.items) }
{
    match o {
        OutLine::Frame(frame) => print_frame(frame.as_slice(), out),
        OutLine::Oper(true) => out.extend_from_slice(b"= ok\n"),
        OutLine::Oper(false) => out.extend_from_slice(b"= no\n"),
        OutLine::Up(session) => {
            let line = up_bytes(alloc, *session)?;
            out.extend_from_slice(line.as_slice())
        }
        OutLine::Ended(session, cause) => {
            let line = end_bytes(alloc, *session, cause_text(*cause))?;
            out.extend_from_slice(line.as_slice())
        }
        OutLine::Command(module, command) => {
            let line = command_bytes(alloc, *module, command)?;
            out.extend_from_slice(line.as_slice())
        }
    }
}

/// Appends the line of a frame that was taken, with its line feed (this tool's profile, output lines). After want of memory
/// `out` is as before.
pub fn print_frame(frame: &[u8], out: &mut Vec<u8>) -> Result<(), NoMemory>
    ensures ok { OnOk result (out.new.items ≡ out.old.items ++ frame_line frame.now) }
    ensures err { OnErr result (out.new.items ≡ out.old.items) }
{
    let start = out.len();
    match push_frame(frame, out) {
        Ok(()) => Ok(()),
        Err(no_memory) => {
            out.truncate(start);
            Err(no_memory)
        }
    }
}

// Puts the line of a frame behind what stands there, or, after want of memory, a part of it.
fn push_frame(frame: &[u8], out: &mut Vec<u8>) -> Result<(), NoMemory>
    ensures ok { OnOk result (out.new.items ≡ out.old.items ++ frame_line frame.now) }
    ensures front { take (length out.old.items) out.new.items ≡ out.old.items }
{
    out.extend_from_slice(b"> ")?;
    push_digits(frame, out)?;
    out.extend_from_slice(b"\n")
}

// Puts the digits of bytes behind what stands there. After want of memory `out` is as before.
fn push_digits(bytes: &[u8], out: &mut Vec<u8>) -> Result<(), NoMemory>
    ensures ok { OnOk result (out.new.items ≡ out.old.items ++ encode_upper bytes.now) }
    ensures err { OnErr result (out.new.items ≡ out.old.items) }
{
    let start = out.len();
    let Some(count) = bytes.len().checked_mul(2) else {
        return Err(AllocError);
    };
    let Some(len) = start.checked_add(count) else {
        return Err(AllocError);
    };
    out.resize(len, b'0')?;
    write_digits(bytes, &mut out[start..]);
    Ok(())
}

// Writes the digits of bytes.
#[tactic(auto, using(crate::proofs::UpperCase::upper))]
fn write_digits(bytes: &[u8], digits: &mut [u8])
    requires { length digits.old ≡ 2 * length bytes.now }
    ensures { digits.new ≡ encode_upper bytes.now }
{
    if hex::encode_to_slice(bytes, digits).is_ok() {
        digits.make_ascii_uppercase();
    }
}

// The line of a session that came up.
#[inline(never)]
fn up_bytes(alloc: Global, session: u64) -> Result<Vec<u8>, NoMemory>
    ensures { IfOk result (λ bytes. bytes.items ≡ up_line session) }
{
    Ok(format!(in alloc; "+ {session}\n")?.into_bytes())
}

// The word of a cause.
fn cause_text(cause: SessionCause) -> &'static str
    ensures { result.now ≡ cause_word cause }
{
    match cause {
        SessionCause::ReadFault => "ReadFault",
        SessionCause::WriteFault => "WriteFault",
        SessionCause::PeerEnd => "PeerEnd",
        SessionCause::ShortLength => "ShortLength",
        SessionCause::Separated => "Separated",
        SessionCause::T6 => "T6",
        SessionCause::T7 => "T7",
        SessionCause::Quit => "Quit",
        SessionCause::Stopped => "Stopped",
    }
}

// The line of a session that ended, by the word of its cause.
#[inline(never)]
fn end_bytes(alloc: Global, session: u64, word: &str) -> Result<Vec<u8>, NoMemory>
    ensures { IfOk result (λ bytes. bytes.items ≡ ended_line (codes "- " ++ decimal session ++ codes " " ++ word.now)) }
{
    Ok(format!(in alloc; "- {session} {word}\n")?.into_bytes())
}

// The line of a command to a module.
#[inline(never)]
fn command_bytes(alloc: Global, module: ModuleId, command: &Command) -> Result<Vec<u8>, NoMemory>
    ensures { IfOk result (λ bytes. bytes.items ≡ command_line «module».0 command.now) }
{
    let mut line = address_bytes(alloc, module.0, command.number.0)?;
    push_task(alloc, &command.task, &mut line)?;
    line.push(b'\n')?;
    Ok(line)
}

// The numbers of a module and its command.
fn address_bytes(alloc: Global, module: u8, number: u64) -> Result<Vec<u8>, NoMemory>
    ensures { IfOk result (λ bytes. bytes.items ≡ codes "! " ++ decimal «module» ++ codes " " ++ decimal number ++ codes " ") }
{
    Ok(format!(in alloc; "! {module} {number} ")?.into_bytes())
}

// Puts the words of a task behind what stands there.
fn push_task(alloc: Global, task: &Task, line: &mut Vec<u8>) -> Result<(), NoMemory>
    ensures { OnOk result (line.new.items ≡ line.old.items ++ task_words task.now) }
{
    match task {
        Task::Pick { sub, from } => {
            let location = location_text(alloc, *from)?;
            push_words(line, b"pick ", sub.as_bytes(), location.as_bytes())
        }
        Task::Place { sub, to } => {
            let location = location_text(alloc, *to)?;
            push_words(line, b"place ", sub.as_bytes(), location.as_bytes())
        }
        Task::Align { sub } => {
            line.extend_from_slice(b"align ")?;
            line.extend_from_slice(sub.as_bytes())
        }
        Task::Process { sub, recipe } => {
            push_words(line, b"process ", sub.as_bytes(), recipe.as_bytes())
        }
    }
}

// Puts a word, and a name and another behind it, behind what stands there.
fn push_words(line: &mut Vec<u8>, word: &[u8], name: &[u8], other: &[u8]) -> Result<(), NoMemory>
    ensures { OnOk result (line.new.items ≡ line.old.items ++ (word.now ++ name.now ++ codes " " ++ other.now)) }
{
    line.extend_from_slice(word)?;
    line.extend_from_slice(name)?;
    line.push(b' ')?;
    line.extend_from_slice(other)
}

// The name of a location.
fn location_text(alloc: Global, location: LocId) -> Result<String, NoMemory>
    ensures { IfOk result (λ text. string_bytes text ≡ location_name location) }
{
    match location {
        LocId::Slot(port, slot) => slot_text(alloc, port.0, slot.0),
        LocId::Aligner => String::from_str(alloc, "AL"),
        LocId::Arm => String::from_str(alloc, "ARM"),
        LocId::Chamber(number) => format!(in alloc; "C{number}"),
    }
}

// The name of a slot: the port, and the slot in two digits.
fn slot_text(alloc: Global, port: u8, slot: u8) -> Result<String, NoMemory>
    ensures { IfOk result (λ text. string_bytes text ≡ codes "P" ++ decimal port ++ codes "." ++ two_digits slot) }
{
    let digits = two_digits(alloc, slot)?;
    format!(in alloc; "P{port}.{digits}")
}

// A number in at least two digits.
fn two_digits(alloc: Global, number: u8) -> Result<String, NoMemory>
    ensures { IfOk result (λ text. string_bytes text ≡ two_digits number) }
{
    if number < 10 {
        format!(in alloc; "0{number}")
    } else {
        format!(in alloc; "{number}")
    }
}
