//! What a transcript is shown as.

use crate::captured::Recorder;
use crate::lines::{TranscriptFault, take_lines};
use crate::said::Speaker;
use outside::{Sink, Source, write_all};
use std::alloc::Global;

/// What of a tool's configuration a transcript is shown by.
#[derive(Clone, Copy)]
pub struct View {
    /// The device id, to which the host's messages go.
    pub device: u16,
    /// How many load ports the tool has.
    pub ports: u8,
    /// How many chambers.
    pub chambers: u8,
    /// The port of TCP on which it listens.
    pub tcp_port: u16,
    /// The first moment, in hundredths of a second since the beginning of 2000.
    pub start_moment: u64,
}

/// Reads a transcript to its end, and writes it in words: each line as soon as it was read, a frame with its item in the place of its hex
/// digits, and remarks behind it (this tool's profile, docs/profile/view.md).
///
/// `Line` comes at the first line that is none of a transcript, with what the lines before it say written; `Read` and `Write` where a
/// read or a write failed, `NoMemory` for want of memory. What was written by then are the words of whole lines, but for `Write`, where
/// it may be a front of that.
pub fn write_words<S: Source, K: Sink>(
    alloc: Global,
    view: View,
    input: &mut S,
    out: &mut K,
) -> Result<(), TranscriptFault> {
    let mut speaker = Speaker::new(alloc, view.device, view.ports, view.chambers);
    take_lines(alloc, input, &mut speaker, out)
}

/// Reads a transcript to its end, and writes a capture file of the bytes that went over its links, which tools for networks open (this
/// tool's profile, docs/profile/view.md). The faults are those of `write_words`, with the packets of the lines before written.
pub fn write_capture<S: Source, K: Sink>(
    alloc: Global,
    view: View,
    input: &mut S,
    out: &mut K,
) -> Result<(), TranscriptFault> {
    let mut front = Vec::new(alloc);
    let Ok(mut recorder) = Recorder::begin(view.tcp_port, view.start_moment, &mut front) else {
        return Err(TranscriptFault::NoMemory);
    };
    if write_all(out, front.as_slice()).is_err() {
        return Err(TranscriptFault::Write);
    }
    take_lines(alloc, input, &mut recorder, out)
}
