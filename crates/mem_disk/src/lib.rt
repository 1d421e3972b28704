//! A disk in memory, for tests: it keeps what it had at first and each call that did something since, from which all images follow that
//! a crash at any moment might have left; and a list of calls that are to fail. It gives one byte a read. Begin with `MemDisk::new`.
#![tactic(auto)]

mod mem_disk;

pub use mem_disk::{Call, MemDisk};
