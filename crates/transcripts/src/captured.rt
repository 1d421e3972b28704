//! A transcript as a capture file.

use crate::line::{TranscriptLine, read_transcript_line};
use crate::lines::TakesLines;
use crate::printed::Printed;
use line_grammar::Line;
use link_capture::{Capture, End};
use std::alloc::{AllocError, Global};
use tool_texts::LineFault;

/// Makes packets of the lines of a transcript.
#[derive(Clone, Copy)]
pub(crate) struct Recorder {
    capture: Capture,
    is_up: bool,
}

impl Recorder {
    /// Begins a capture file, of a tool that listens on this port, at this moment.
    pub(crate) fn begin(
        port: u16,
        moment: u64,
        text: &mut Vec<u8>,
    ) -> Result<Recorder, AllocError> {
        Ok(Recorder {
            capture: Capture::begin(port, moment, text)?,
            is_up: false,
        })
    }

    // A link comes up, unless one is.
    fn connect(&mut self, text: &mut Vec<u8>) -> Result<(), AllocError> {
        if self.is_up {
            return Ok(());
        }
        self.is_up = true;
        self.capture.connect(text)
    }

    // The link is closed by this end, where it is up.
    fn close(&mut self, from: End, text: &mut Vec<u8>) -> Result<(), AllocError> {
        if !self.is_up {
            return Ok(());
        }
        self.is_up = false;
        self.capture.close(from, text)
    }

    // The host's bytes come; without a session they are dropped.
    fn take_host(&mut self, bytes: &[u8], text: &mut Vec<u8>) -> Result<(), AllocError> {
        if !self.is_up {
            return Ok(());
        }
        self.capture.send(End::Host, bytes, text)
    }

    // A frame of the tool goes to the host, which is there.
    fn take_frame(&mut self, bytes: &[u8], text: &mut Vec<u8>) -> Result<(), AllocError> {
        self.connect(text)?;
        self.capture.send(End::Tool, bytes, text)
    }

    // A printed line.
    fn take_printed(
        &mut self,
        printed: &Printed<'_>,
        text: &mut Vec<u8>,
    ) -> Result<(), AllocError> {
        match printed {
            Printed::Up(_) => self.connect(text),
            Printed::Ended(_, _) => self.close(End::Tool, text),
            Printed::Frame(bytes) => self.take_frame(bytes.as_slice(), text),
            Printed::Command(_, _, _) | Printed::Oper(_) => Ok(()),
        }
    }

    // A line that came in.
    fn take_input(&mut self, input: &Line, text: &mut Vec<u8>) -> Result<(), AllocError> {
        match input {
            Line::Up => self.connect(text),
            Line::Down => self.close(End::Host, text),
            Line::Bytes(bytes) => self.take_host(bytes.as_slice(), text),
            Line::Moment(moment) => {
                self.capture.set_moment(moment.0);
                Ok(())
            }
            Line::Skip | Line::Oper(_) | Line::Signal(_) | Line::Watch(_) => Ok(()),
        }
    }

    // What a line says.
    fn take(&mut self, said: &TranscriptLine<'_>, text: &mut Vec<u8>) -> Result<(), AllocError> {
        match said {
            TranscriptLine::Printed(printed, _) => self.take_printed(printed, text),
            TranscriptLine::Input(input) => self.take_input(input, text),
        }
    }
}

impl TakesLines for Recorder {
    fn take_line(
        &mut self,
        alloc: Global,
        line: &[u8],
        text: &mut Vec<u8>,
    ) -> Result<(), LineFault> {
        let said = read_transcript_line(alloc, line)?;
        match self.take(&said, text) {
            Ok(()) => Ok(()),
            Err(AllocError) => Err(LineFault::NoMemory),
        }
    }
}
