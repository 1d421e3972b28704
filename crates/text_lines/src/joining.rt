//! The bytes of a line that come in parts.
ghost use Rattle.std.specs.Prelude.{◌≡◌, ◌↔◌, ◌+◌, ◌<◌, ◌≤◌, ◌++◌, length, Err, OnOk, OnErr};
ghost use Rattle.text_lines.specs.declared.joining.JoinFault.TheVariants as join;

/// Why bytes were not put behind those of a line.
#[derive(Clone, Copy)]
pub enum JoinFault {
    /// The line would have more bytes than it may.
    Long,
    /// There was no memory.
    NoMemory,
}

/// Puts bytes behind those of a line, which may have so many at most. Where they would be more, that is told whether there is memory or
/// not. On an error the line stays as it was.
pub fn join_line(line: &mut Vec<u8>, part: &[u8], most: usize) -> Result<(), JoinFault>
    ensures joined { OnOk result (line.new.items ≡ line.old.items ++ part.now) }
    ensures fits { OnOk result (length line.new.items ≤ most) }
    ensures long { result ≡ Err join.Long ↔ most < length line.old.items + length part.now }
    ensures stays { OnErr result (line.new.items ≡ line.old.items) }
{
    if line.len() + part.len() > most {
        return Err(JoinFault::Long);
    }
    match line.extend_from_slice(part) {
        Ok(()) => Ok(()),
        Err(_) => Err(JoinFault::NoMemory),
    }
}
