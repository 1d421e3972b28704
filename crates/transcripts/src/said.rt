//! A transcript in words.

use crate::line::{TranscriptLine, read_transcript_line};
use crate::lines::TakesLines;
use crate::modules::{Commands, say_module};
use crate::printed::Printed;
use crate::told::{cause_meaning, say_moment, say_signal};
use hsms_frame::{Arrival, CutFault, Cutter, Frame, Header};
use line_grammar::Line;
use message_words::{Listener, Remarks, Sender, frame_words, header_words};
use std::alloc::{AllocError, Global};
use tool_events::TEXT_BYTES;
use tool_texts::LineFault;

// The greatest text of a frame of the tool that is shown: no line has more hex digits.
const TOOL_TEXT_BYTES: u32 = 300_000;

// The columns of the mark in front of a frame, `H ` or `> `.
const MARK_WIDTH: usize = 2;

/// Puts the lines of a transcript into words.
#[derive(Drop)]
pub(crate) struct Speaker {
    listener: Listener,
    commands: Commands,
    // What came of the host's stream, while a session is up.
    host: Option<Cutter>,
}

// The bytes of a line as they stand, with a line feed.
fn push_line(line: &[u8], text: &mut Vec<u8>) -> Result<(), AllocError> {
    text.extend_from_slice(line)?;
    text.extend_from_slice(b"\n")
}

// The mark of a frame that this end sent.
fn mark_of(sender: Sender) -> &'static [u8] {
    match sender {
        Sender::Host => b"H ".as_slice(),
        Sender::Tool => b"> ".as_slice(),
    }
}

// A frame whose text was over the limit, by its header.
fn push_too_long(
    alloc: Global,
    sender: Sender,
    header: Header,
    field: u32,
    text: &mut Vec<u8>,
) -> Result<(), AllocError> {
    text.extend_from_slice(mark_of(sender))?;
    let words = header_words(alloc, header)?;
    push_line(words.as_slice(), text)?;
    let bytes = field.saturating_sub(10);
    let remark = format!(in alloc; "a text of {bytes} bytes, which is over {TEXT_BYTES}")?;
    push_remark(alloc, remark.as_str(), text)
}

// A remark.
fn push_remark(alloc: Global, remark: &str, text: &mut Vec<u8>) -> Result<(), AllocError> {
    let mut remarks = Remarks::new(alloc);
    remarks.say(remark)?;
    text.extend_from_slice(remarks.as_slice())
}

// What was cut of a piece of a stream, and whether no frame begins where the next should.
fn cut(
    alloc: Global,
    cutter: &mut Cutter,
    piece: &[u8],
    arrivals: &mut Vec<Arrival>,
) -> Result<Option<u32>, AllocError> {
    match cutter.feed(alloc, piece, arrivals) {
        Ok(()) => Ok(None),
        Err(CutFault::ShortLength(field)) => Ok(Some(field)),
        Err(CutFault::NoMemory) => Err(AllocError),
    }
}

// Says what is left of a stream behind the frames that are whole.
fn push_rest(
    alloc: Global,
    short: Option<u32>,
    kept: u64,
    text: &mut Vec<u8>,
) -> Result<(), AllocError> {
    match short {
        Some(field) => {
            let remark = format!(in alloc;
                "the length field {field} is below 10: no frame begins so"
            )?;
            push_remark(alloc, remark.as_str(), text)
        }
        None if kept > 0 => {
            let remark = format!(in alloc; "{kept} bytes of a frame that isn't whole yet")?;
            push_remark(alloc, remark.as_str(), text)
        }
        None => Ok(()),
    }
}

impl Speaker {
    /// Who has read no line yet. The tool has this device id, and so many load ports and chambers.
    pub(crate) fn new(alloc: Global, device: u16, ports: u8, chambers: u8) -> Speaker {
        Speaker {
            listener: Listener::new(alloc, device, ports, chambers),
            commands: Commands::new(alloc),
            host: None,
        }
    }

    // A link comes up, unless one is.
    fn begin_session(&mut self, alloc: Global) -> Result<(), AllocError> {
        if self.host.is_none() {
            self.host = Some(Cutter::new(alloc, TEXT_BYTES)?);
        }
        Ok(())
    }

    // The session ends.
    fn end_session(&mut self) {
        self.host = None;
        self.listener.end_session();
    }

    // A frame in words, with remarks.
    fn push_frame(
        &mut self,
        alloc: Global,
        sender: Sender,
        frame: &Frame,
        text: &mut Vec<u8>,
    ) -> Result<(), AllocError> {
        text.extend_from_slice(mark_of(sender))?;
        let said = frame_words(alloc, MARK_WIDTH, frame)?;
        push_line(said.text.as_slice(), text)?;
        let mut remarks = Remarks::new(alloc);
        self.listener
            .hear(alloc, sender, frame, &said.body, &mut remarks)?;
        text.extend_from_slice(remarks.as_slice())
    }

    // An arrival in words.
    fn push_arrival(
        &mut self,
        alloc: Global,
        sender: Sender,
        arrival: &Arrival,
        text: &mut Vec<u8>,
    ) -> Result<(), AllocError> {
        match arrival {
            Arrival::Frame(frame) => self.push_frame(alloc, sender, frame, text),
            Arrival::TooLong(header, field) => {
                push_too_long(alloc, sender, *header, *field, text)
            }
        }
    }

    // Arrivals in words, or, where there are none, the line as it stands.
    fn push_arrivals(
        &mut self,
        alloc: Global,
        sender: Sender,
        line: &[u8],
        arrivals: &[Arrival],
        text: &mut Vec<u8>,
    ) -> Result<(), AllocError> {
        if arrivals.is_empty() {
            return push_line(line, text);
        }
        for arrival in arrivals {
            self.push_arrival(alloc, sender, arrival, text)?;
        }
        Ok(())
    }

    // The host's bytes come in a session, of which this cutter has what isn't whole.
    fn take_bytes(
        &mut self,
        alloc: Global,
        cutter: &mut Cutter,
        line: &[u8],
        bytes: &[u8],
        text: &mut Vec<u8>,
    ) -> Result<(), AllocError> {
        let mut arrivals = Vec::new(alloc);
        let short = cut(alloc, cutter, bytes, &mut arrivals)?;
        self.push_arrivals(alloc, Sender::Host, line, arrivals.as_slice(), text)?;
        push_rest(alloc, short, cutter.kept(), text)
    }

    // The host's bytes come.
    fn take_host(
        &mut self,
        alloc: Global,
        line: &[u8],
        bytes: &[u8],
        text: &mut Vec<u8>,
    ) -> Result<(), AllocError> {
        let Some(mut cutter) = self.host.take() else {
            push_line(line, text)?;
            return push_remark(alloc, "no session is up: the bytes are dropped", text);
        };
        self.take_bytes(alloc, &mut cutter, line, bytes, text)?;
        self.host = Some(cutter);
        Ok(())
    }

    // A frame of the tool goes to the host.
    fn take_frame(
        &mut self,
        alloc: Global,
        line: &[u8],
        bytes: &[u8],
        text: &mut Vec<u8>,
    ) -> Result<(), AllocError> {
        let mut cutter = Cutter::new(alloc, TOOL_TEXT_BYTES)?;
        let mut arrivals = Vec::new(alloc);
        let short = cut(alloc, &mut cutter, bytes, &mut arrivals)?;
        self.push_arrivals(alloc, Sender::Tool, line, arrivals.as_slice(), text)?;
        push_rest(alloc, short, cutter.kept(), text)
    }

    // A module is told a command.
    fn take_command(
        &mut self,
        alloc: Global,
        module: u8,
        number: u64,
        task: &[u8],
        text: &mut Vec<u8>,
    ) -> Result<(), AllocError> {
        self.commands.tell(alloc, module, number, task)?;
        let mut remarks = Remarks::new(alloc);
        say_module(alloc, module, " is to do: ", task, &mut remarks)?;
        text.extend_from_slice(remarks.as_slice())
    }

    // A printed line but that of a frame, behind the line itself.
    fn take_other(
        &mut self,
        alloc: Global,
        printed: &Printed<'_>,
        text: &mut Vec<u8>,
    ) -> Result<(), AllocError> {
        match printed {
            Printed::Up(_) => {
                self.begin_session(alloc)?;
                push_remark(alloc, "a session came up", text)
            }
            Printed::Ended(_, cause) => {
                self.end_session();
                push_remark(alloc, cause_meaning(*cause), text)
            }
            Printed::Command(module, number, task) => {
                self.take_command(alloc, *module, *number, task, text)
            }
            Printed::Oper(true) => push_remark(alloc, "accepted", text),
            Printed::Oper(false) => push_remark(alloc, "not accepted", text),
            Printed::Frame(_) => Ok(()),
        }
    }

    // A printed line.
    fn take_printed(
        &mut self,
        alloc: Global,
        printed: &Printed<'_>,
        line: &[u8],
        text: &mut Vec<u8>,
    ) -> Result<(), AllocError> {
        if let Printed::Frame(bytes) = printed {
            return self.take_frame(alloc, line, bytes.as_slice(), text);
        }
        push_line(line, text)?;
        self.take_other(alloc, printed, text)
    }

    // What an input line says but that of bytes, behind the line itself.
    fn take_input(
        &mut self,
        alloc: Global,
        input: &Line,
        text: &mut Vec<u8>,
    ) -> Result<(), AllocError> {
        let mut remarks = Remarks::new(alloc);
        match input {
            Line::Up => self.begin_session(alloc)?,
            Line::Down => self.end_session(),
            Line::Moment(moment) => say_moment(*moment, &mut remarks)?,
            Line::Signal(signal) => say_signal(alloc, signal, &self.commands, &mut remarks)?,
            Line::Skip | Line::Bytes(_) | Line::Oper(_) | Line::Watch(_) => {}
        }
        text.extend_from_slice(remarks.as_slice())
    }

    // What a line says.
    fn take(
        &mut self,
        alloc: Global,
        said: &TranscriptLine<'_>,
        line: &[u8],
        text: &mut Vec<u8>,
    ) -> Result<(), AllocError> {
        match said {
            TranscriptLine::Printed(printed, words) => {
                self.take_printed(alloc, printed, words, text)
            }
            TranscriptLine::Input(Line::Bytes(bytes)) => {
                self.take_host(alloc, line, bytes.as_slice(), text)
            }
            TranscriptLine::Input(input) => {
                push_line(line, text)?;
                self.take_input(alloc, input, text)
            }
        }
    }
}

impl TakesLines for Speaker {
    fn take_line(
        &mut self,
        alloc: Global,
        line: &[u8],
        text: &mut Vec<u8>,
    ) -> Result<(), LineFault> {
        let said = read_transcript_line(alloc, line)?;
        match self.take(alloc, &said, line, text) {
            Ok(()) => Ok(()),
            Err(AllocError) => Err(LineFault::NoMemory),
        }
    }
}
