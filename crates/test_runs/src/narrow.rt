//! A sink that takes one byte at a time.

use outside::{Failed, Sink};
use std::alloc::Global;

/// It keeps what it takes. A write fails where there is no memory.
#[derive(Drop)]
pub struct Narrow {
    taken: Vec<u8>,
    faults: u64,
}

impl Narrow {
    /// A sink that took nothing yet.
    pub fn new(alloc: Global) -> Narrow {
        Narrow {
            taken: Vec::new(alloc),
            faults: 0,
        }
    }

    /// The bytes that it took.
    pub fn into_bytes(self) -> Vec<u8> {
        let Narrow { taken, .. } = self;
        taken
    }
}

impl Sink for Narrow {
    ghost use Rattle.std.specs.Prelude.{None};

    ghost held = { λ _. None };

    ghost faults = { λ s. s.faults };

    ghost refusals = { λ _. 0 };

    fn write(&mut self, bytes: &[u8]) -> Result<usize, Failed> {
        if bytes.is_empty() {
            return Ok(0);
        }
        match self.taken.push(bytes[0]) {
            Ok(()) => Ok(1),
            Err(_) => {
                self.faults = self.faults.saturating_add(1);
                Err(Failed)
            }
        }
    }
}
