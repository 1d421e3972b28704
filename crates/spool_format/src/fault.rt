//! Why a call of a durable spool did nothing, or left it open what it did.

/// The fault of a call.
#[derive(Clone, Copy, Debug)]
pub enum NvFault {
    /// The disk failed: the change in work may be made or not. From now on the answer is `Closed`; open the disk again.
    Disk,
    /// The disk failed in an earlier call.
    Closed,
    /// The bytes from this place on are not in the format.
    Unread(u64),
    /// There is no memory, and nothing changed.
    NoMemory,
}
