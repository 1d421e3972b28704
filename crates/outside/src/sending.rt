ghost use Rattle.std.specs.Prelude.{◌≤◌, length, IfOk};

use crate::signs::RunSigns;
use crate::write::rest_from;
use std::io::{self, Write};
use std::net::TcpStream;

// How many times a write waits for a peer that takes nothing. Each wait is of the write timeout of the stream, 50 milliseconds, so
// that they are two seconds together.
const PATIENCE: u32 = 40;

// Writes all of the bytes. It fails where a write fails, or takes nothing of a piece.
pub(crate) fn write_whole(
    stream: &mut TcpStream,
    signs: Option<&RunSigns>,
    bytes: &[u8],
) -> io::Result<()> {
    let mut at = 0;
    while at < bytes.len() {
        match write_patiently(stream, signs, rest_from(bytes, at))? {
            0 => return Err(io::Error::from(io::ErrorKind::WriteZero)),
            count => at += count,
        }
    }
    Ok(())
}

// Writes some of the bytes, and tries again while the peer takes nothing, up to a bound, or until the session is over.
pub(crate) fn write_patiently(
    stream: &mut TcpStream,
    signs: Option<&RunSigns>,
    bytes: &[u8],
) -> io::Result<usize>
    ensures { IfOk result (λ n. n ≤ length bytes.now) }
{
    for _ in 0..PATIENCE {
        match stream.write(bytes) {
            Err(fault) if is_late(fault.kind()) => {
                if is_over(signs) {
                    return Err(fault);
                }
            }
            answer => return answer,
        }
    }
    Err(io::Error::from(io::ErrorKind::TimedOut))
}

// Whether the system took nothing in time.
fn is_late(kind: io::ErrorKind) -> bool {
    matches!(
        kind,
        io::ErrorKind::WouldBlock | io::ErrorKind::TimedOut | io::ErrorKind::Interrupted
    )
}

// Whether the session is over, where that is told.
fn is_over(signs: Option<&RunSigns>) -> bool {
    match signs {
        Some(signs) => signs.is_session_over(),
        None => false,
    }
}
