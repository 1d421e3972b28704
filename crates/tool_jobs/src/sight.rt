//! What the floor shows of a process job.

/// What the floor shows of a process job: whether each carrier that it names is present with its map VERIFIED, and NOT ACCESSED or
/// IN ACCESS; whether each member is finished, and in its slot or removed; and whether no member is at the aligner, on the arm or in
/// a chamber and no open command names one (this tool's profile, table 14).
#[derive(Clone, Copy)]
pub struct Sight {
    pub here: bool,
    pub settled: bool,
    pub still: bool,
}
