/// How many bytes the reader of a session read, and its writer wrote; each count stands still at the greatest number of 64 bits.
#[derive(Clone, Copy)]
pub struct SessionBytes {
    pub session: u64,
    pub read: u64,
    pub written: u64,
}
