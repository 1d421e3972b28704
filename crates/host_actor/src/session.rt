//! Reader and writer of one link, at once.

ghost use Rattle.std.specs.Prelude.{◌≡◌, true};
ghost use Rattle.outside.specs.Counts.{Failed, Rose};
ghost use Rattle.actors.specs.Reads.{ReaderDid, reader_counts};
ghost use Rattle.actors.specs.Writes.{WriterDid};

use actors::{ActorEnd, read_host, write_host};
use outside::{Gate, LinkIn, LinkOut};
use std::alloc::Global;
use std::sync::Wait;
use std::thread::{Threads, join_mut};
use tool_events::Desk;

/// How the reader and the writer of a link ended, each with the count of its bytes.
#[derive(Clone, Copy)]
pub(crate) struct LinkEnds {
    pub(crate) reader: ActorEnd,
    pub(crate) bytes_read: u64,
    pub(crate) writer: ActorEnd,
    pub(crate) bytes_written: u64,
}

/// Reads and writes at once, each at a desk of its own, until both have ended.
pub(crate) fn run_session<
    R: Threads + Wait + Sync,
    D: Desk + Send,
    E: Desk + Send,
    I: LinkIn + Send,
    O: LinkOut + Send,
    G: Gate + Sync,
>(
    rt: &R,
    alloc: Global,
    reader: &mut D,
    writer: &mut E,
    link_in: &mut I,
    link_out: &mut O,
    session: u64,
    gate: &G,
) -> LinkEnds
    ensures read { ReaderDid session (I.left link_in.old) (I.left link_in.new)
        (reader_counts D.fulls D.wants I.faults I.ends reader.old link_in.old) (reader_counts D.fulls D.wants I.faults I.ends reader.new link_in.new)
        (D.posts reader.old) (D.posts reader.new) result.bytes_read result.reader }
    ensures read_full { result.reader ≡ ActorEnd.Full → Rose (D.fulls reader.old) (D.fulls reader.new) }
    ensures wrote { WriterDid session (Failed (O.faults link_out.old) (O.faults link_out.new) (O.refusals link_out.old) (O.refusals link_out.new))
        (O.held link_out.old) (O.held link_out.new) (E.posts writer.old) (E.posts writer.new) result.bytes_written result.writer }
    ensures wrote_full { result.writer ≡ ActorEnd.Full → Rose (E.fulls writer.old) (E.fulls writer.new) }
    ensures shut { O.is_shut link_out.new ≡ true }
{
    let ((reader_end, bytes_read), (writer_end, bytes_written)) = join_mut(
        rt,
        &mut || -> (ActorEnd, u64)
            ensures did { ReaderDid session (I.left link_in.entry.now) (I.left link_in.exit.now)
                (reader_counts D.fulls D.wants I.faults I.ends reader.entry.now link_in.entry.now)
                (reader_counts D.fulls D.wants I.faults I.ends reader.exit.now link_in.exit.now)
                (D.posts reader.entry.now) (D.posts reader.exit.now) result.1 result.0 }
            ensures full { result.0 ≡ ActorEnd.Full → Rose (D.fulls reader.entry.now) (D.fulls reader.exit.now) }
        { read_host(rt, alloc, reader, link_in, session, gate) },
        &mut || -> (ActorEnd, u64)
            ensures did { WriterDid session
                (Failed (O.faults link_out.entry.now) (O.faults link_out.exit.now) (O.refusals link_out.entry.now) (O.refusals link_out.exit.now))
                (O.held link_out.entry.now) (O.held link_out.exit.now) (E.posts writer.entry.now) (E.posts writer.exit.now) result.1 result.0 }
            ensures full { result.0 ≡ ActorEnd.Full → Rose (E.fulls writer.entry.now) (E.fulls writer.exit.now) }
            ensures shut { O.is_shut link_out.exit.now ≡ true }
        { write_host(rt, writer, link_out, session, gate) },
    );
    LinkEnds {
        reader: reader_end,
        bytes_read,
        writer: writer_end,
        bytes_written,
    }
}
