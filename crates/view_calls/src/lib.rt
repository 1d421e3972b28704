//! What the program `gem300_view` does with its words (this tool's profile, docs/profile/view.md): it hands a configuration, an input and
//! an output to `transcripts` or to `run_charts`, draws a state model by `state_charts`, and prints what `--help` and `--version` ask for.
//!
//! It ends no process and reads no argument of one: `gem300_view` does, and `view_runs` calls it with words of its own. Begin with
//! `run_view`.
#![tactic(auto)]

use gem_ids::Text80;
use line_feeding::{Cause, read_configuration};
use outside::{FileSource, Sink, Source, write_all};
use program_words::{Question, WordsFault, asked};
use run_charts::run_chart;
use state_charts::{chart_named, draw_chart};
use std::alloc::{AllocError, Global};
use std::rt::Files;
use tool_events::Config;
use transcripts::{TranscriptFault, View, write_capture, write_words};
use view_words::{ViewWords, command_of, help_text, version_text};

/// The tool under its first configuration, by which a transcript is shown where none is named.
const FIRST: View = View {
    device: 0,
    ports: 2,
    chambers: 2,
    tcp_port: 5000,
    start_moment: 0,
};

// The words behind the program's name. One that is no text of at most 80 bytes that print is handed in as an empty word, which fits no
// command.
fn texts_of(alloc: Global, args: &[String]) -> Result<Vec<Text80>, AllocError> {
    let mut words = Vec::new(alloc);
    for arg in args.iter().skip(1) {
        words.push(Text80::read(arg.as_bytes()).unwrap_or(Text80::empty()))?;
    }
    Ok(words)
}

// What of a configuration a transcript is shown by.
fn view_of(config: &Config) -> View {
    View {
        device: config.device,
        ports: config.ports,
        chambers: config.chambers,
        tcp_port: config.tcp_port,
        start_moment: config.start_moment.0,
    }
}

// The view by the configuration in this file, or by the first one.
fn read_view<R: Files>(
    rt: &R,
    alloc: Global,
    path: &str,
    config: Option<Text80>,
) -> Result<View, Cause> {
    if config.is_none() {
        return Ok(FIRST);
    }
    let mut source = FileSource::new(rt, path);
    match read_configuration(alloc, &mut source) {
        Ok(config) => Ok(view_of(&config)),
        Err(cause) => Err(cause),
    }
}

// Why a run ended, by what ended a transcript.
fn cause_of(ended: Result<(), TranscriptFault>) -> Cause {
    match ended {
        Ok(()) => Cause::Done,
        Err(TranscriptFault::Line(number, place)) => Cause::Line(number, place),
        Err(TranscriptFault::Read) => Cause::ReadFault,
        Err(TranscriptFault::Write) => Cause::WriteFault,
        Err(TranscriptFault::NoMemory) => Cause::NoMemory,
    }
}

// Shows a transcript, and tells why that ended.
fn run_words<R: Files, S: Source, K: Sink>(
    rt: &R,
    alloc: Global,
    path: &str,
    config: Option<Text80>,
    input: &mut S,
    out: &mut K,
) -> Cause {
    match read_view(rt, alloc, path, config) {
        Ok(view) => cause_of(write_words(alloc, view, input, out)),
        Err(cause) => cause,
    }
}

// Writes the capture file of a transcript, and tells why that ended.
fn run_pcap<R: Files, S: Source, K: Sink>(
    rt: &R,
    alloc: Global,
    path: &str,
    config: Option<Text80>,
    input: &mut S,
    out: &mut K,
) -> Cause {
    match read_view(rt, alloc, path, config) {
        Ok(view) => cause_of(write_capture(alloc, view, input, out)),
        Err(cause) => cause,
    }
}

// Writes a text, and tells why that ended.
fn write_text<K: Sink>(text: &[u8], out: &mut K) -> Cause {
    match write_all(out, text) {
        Ok(()) => Cause::Done,
        Err(_) => Cause::WriteFault,
    }
}

// Prints what the words ask for, and tells why that ended.
fn answer<K: Sink>(alloc: Global, question: Question, out: &mut K) -> Result<Cause, AllocError> {
    let text = match question {
        Question::Help => help_text(alloc)?,
        Question::Version => version_text(alloc)?,
    };
    Ok(write_text(text.as_bytes(), out))
}

// Draws the state model of this name, which is the second word, and tells why that ended.
fn draw_states<K: Sink>(alloc: Global, name: &str, out: &mut K) -> Result<Cause, AllocError> {
    match chart_named(name) {
        Some(chart) => Ok(write_text(draw_chart(alloc, chart)?.as_slice(), out)),
        None => Ok(Cause::Words(1)),
    }
}

// The second word, as it was given: the name of the configuration's file, or of a state model.
fn second_word(args: &[String]) -> &str {
    match args.get(2) {
        Some(path) => path.as_str(),
        None => "",
    }
}

/// Does what the arguments ask for, of which the first is the program's own name: prints what `--help` and `--version` ask for, or does the
/// command that the words spell, over this input and this output. Tells why it ended: `Words` where the words spell no command, or a
/// state model is asked for that there is not, `Config` where the configuration says none, `Line` where a line is none of a transcript or
/// of a run, `Full` where the history of a run takes no more, and the faults of reading and writing. `AllocError` where there was no
/// memory for the words or a text.
pub fn run_view<R: Files, S: Source, K: Sink>(
    rt: &R,
    alloc: Global,
    args: &[String],
    input: &mut S,
    out: &mut K,
) -> Result<Cause, AllocError> {
    let words = texts_of(alloc, args)?;
    if let Some(question) = asked(&words) {
        return answer(alloc, question, out);
    }
    let second = second_word(args);
    match command_of(&words) {
        Ok(ViewWords::Words(config)) => Ok(run_words(rt, alloc, second, config, input, out)),
        Ok(ViewWords::Pcap(config)) => Ok(run_pcap(rt, alloc, second, config, input, out)),
        Ok(ViewWords::Chart(_)) => Ok(run_chart(
            alloc,
            &mut FileSource::new(rt, second),
            input,
            out,
        )),
        Ok(ViewWords::States(_)) => draw_states(alloc, second, out),
        Err(WordsFault::Place(place)) => Ok(Cause::Words(place)),
    }
}
