//! What the program does with its words: it hands a file, standard input, standard output, and to `serve` besides a TCP port, the
//! system's clock, a script that ends with the run and a gate that wakes, to `top_calls::feed`, to `notes_top::notes_top` or to
//! `serving::serve`, whose contracts are the promises of the whole program; and it prints what `--help` and `--version` ask for
//! (docs/profile/words.md).
//!
//! It ends no process and reads no argument of one: `gem300_tool` does, and `program_runs` calls it with words of its own. Begin with
//! `run_words`.
#![tactic(auto)]

use gem_ids::Text80;
use notes_top::notes_top;
use outside::{
    FileDisk, FileSource, RunSigns, ScriptSource, StdinSource, StdoutSink, SystemClock, TcpDoor,
    WakeGate,
};
use program_words::{Question, Words, asked, command_of, help_text, version_text};
use serving::serve;
use std::alloc::{AllocError, Global};
use std::fs::File;
use std::net::{Net, TcpListener, TcpStream};
use std::os::fd::AsRawFd;
use std::rt::{Clock, Files};
use std::sync::Wait;
use std::thread::Threads;
pub use top_calls::Cause;
use top_calls::feed;

// The words behind the program's name. One that is no text of at most 80 bytes that print is handed in as an empty word, which fits no
// command.
fn texts_of(alloc: Global, args: &[String]) -> Result<Vec<Text80>, AllocError> {
    let mut words = Vec::new(alloc);
    for arg in args.iter().skip(1) {
        words.push(Text80::read(arg.as_bytes()).unwrap_or(Text80::empty()))?;
    }
    Ok(words)
}

// Prints what the words ask for, and tells why that ends.
fn answer<R: Print>(rt: &R, alloc: Global, question: Question) -> Result<Cause, AllocError> {
    let text = match question {
        Question::Help => help_text(alloc)?,
        Question::Version => version_text(alloc)?,
    };
    match rt.print(text.as_str()) {
        Ok(()) => Ok(Cause::Done),
        Err(_) => Ok(Cause::WriteFault),
    }
}

// The name of the file, as it was given: the last argument of each command.
fn file_path(args: &[String]) -> &str {
    match args.last() {
        Some(path) => path.as_str(),
        None => "",
    }
}

// Calls `feed` on the file of this name, standard input and standard output, and tells why it ended.
fn run_feed<R: Files + Input + Print>(
    rt: &R,
    alloc: Global,
    path: &str,
    words: &[Text80],
) -> Cause {
    let mut config = FileSource::new(rt, path);
    let mut input = StdinSource::new(rt);
    let mut out = StdoutSink::new(rt);
    feed(alloc, words, &mut config, &mut input, &mut out).cause
}

// Calls `notes_top` on the file of this name as a disk, standard input and standard output, and tells why it ended.
fn run_notes<R: Files<File = File> + Input + Print>(
    rt: &R,
    alloc: Global,
    path: &str,
    words: &[Text80],
) -> Cause {
    let disk = FileDisk::new(rt, path);
    let mut input = StdinSource::new(rt);
    let mut out = StdoutSink::new(rt);
    let (_, cause, _) = notes_top(alloc, words, disk, &mut input, &mut out);
    cause
}

// Tells on standard error which port could not be opened, and why, where that is so.
fn tell_refusal<R: Eprint>(rt: &R, alloc: Global, door: &TcpDoor<'_, R>) -> Result<(), AllocError> {
    if let Some((port, kind)) = door.refusal() {
        let text = format!(in alloc; "port {port}: {kind}")?;
        let _ = rt.eprintln(text.as_str());
    }
    Ok(())
}

// Calls `serve` on the file of this name, a TCP port, standard input as the script and standard output for the log, and tells why it
// ended.
fn run_serve<
    R: Threads
        + Wait
        + Sync
        + Files
        + Input
        + Print
        + Eprint
        + Net<Listener = TcpListener, Stream = TcpStream>
        + Clock,
>(rt: &R, alloc: Global, path: &str, words: &[Text80]) -> Result<Cause, AllocError>
where
    R::Reader: Send + AsRawFd,
{
    let signs = RunSigns::new();
    let mut config = FileSource::new(rt, path);
    let mut door = TcpDoor::with_signs(rt, &signs);
    let mut script = ScriptSource::new(rt.reader(), &signs);
    let mut clock = SystemClock::new(rt);
    let mut log = StdoutSink::new(rt);
    let ended = serve(
        rt,
        alloc,
        words,
        &mut config,
        &mut door,
        &mut script,
        &mut clock,
        &mut log,
        &WakeGate::new(rt, &signs),
    );
    tell_refusal(rt, alloc, &door)?;
    Ok(ended.cause)
}

// Does the command that the words spell. `feed` refuses words that spell none.
fn run_command<
    R: Threads
        + Wait
        + Sync
        + Files<File = File>
        + Input
        + Print
        + Eprint
        + Net<Listener = TcpListener, Stream = TcpStream>
        + Clock,
>(rt: &R, alloc: Global, path: &str, words: &[Text80]) -> Result<Cause, AllocError>
where
    R::Reader: Send + AsRawFd,
{
    match command_of(words) {
        Ok(Words::Serve(_)) => run_serve(rt, alloc, path, words),
        Ok(Words::Notes(_)) => Ok(run_notes(rt, alloc, path, words)),
        _ => Ok(run_feed(rt, alloc, path, words)),
    }
}

/// Does what the arguments ask for, of which the first is the program's own name: prints what `--help` and `--version` ask for, or does the
/// command that the words spell. Words that spell none are refused by `feed`. Tells why it ended; where a port could not be opened,
/// standard error has that with the reason by then. `AllocError` where there was no memory for the words or a text.
pub fn run_words<
    R: Threads
        + Wait
        + Sync
        + Files<File = File>
        + Input
        + Print
        + Eprint
        + Net<Listener = TcpListener, Stream = TcpStream>
        + Clock,
>(rt: &R, alloc: Global, args: &[String]) -> Result<Cause, AllocError>
where
    R::Reader: Send + AsRawFd,
{
    let words = texts_of(alloc, args)?;
    if let Some(question) = asked(&words) {
        return answer(rt, alloc, question);
    }
    run_command(rt, alloc, file_path(args), &words)
}
