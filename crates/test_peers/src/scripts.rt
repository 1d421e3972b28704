//! A script that waits.

use crate::signs::Sign;
use outside::{Failed, MemSource, Source};
use std::alloc::{AllocError, Global};
use std::time;

/// A script in pieces. Its reads from a number on are answered once a sign was raised, and fail where it is not within 60,000
/// turns.
#[derive(Drop)]
pub struct WaitingScript<'a, R> {
    rt: &'a R,
    text: MemSource,
    waits_from: u64,
    sign: &'a Sign,
    reads: u64,
    faults: u64,
}

impl<R: time::Clock> Source for WaitingScript<'_, R> {
    ghost use Rattle.std.specs.Prelude.{None};

    ghost left = { λ _. None };

    ghost faults = { λ s. s.faults };

    ghost ends = { λ s. s.text.ends };

    fn read(&mut self, buf: &mut [u8]) -> Result<usize, Failed> {
        self.reads = self.reads.saturating_add(1);
        if self.reads >= self.waits_from && !self.sign.is_raised_in_time(self.rt) {
            self.faults = self.faults.saturating_add(1);
            return Err(Failed);
        }
        match self.text.read(buf) {
            Ok(count) => Ok(count),
            Err(_) => {
                self.faults = self.faults.saturating_add(1);
                Err(Failed)
            }
        }
    }
}

/// The script `O quit`, which waits for the sign.
pub fn quit_at<'a, R: time::Clock>(
    rt: &'a R,
    alloc: Global,
    sign: &'a Sign,
) -> Result<WaitingScript<'a, R>, AllocError> {
    Ok(WaitingScript {
        rt,
        text: MemSource::new(Vec::from_slice(alloc, b"O quit\n")?, Vec::new(alloc)),
        waits_from: 1,
        sign,
        reads: 0,
        faults: 0,
    })
}

/// The script `O local`, `O quit`, of which a read gives one line; the second waits for the sign.
pub fn local_and_quit_at<'a, R: time::Clock>(
    rt: &'a R,
    alloc: Global,
    sign: &'a Sign,
) -> Result<WaitingScript<'a, R>, AllocError> {
    let text = MemSource::new(
        Vec::from_slice(alloc, b"O local\nO quit\n")?,
        Vec::new(alloc),
    );
    Ok(WaitingScript {
        rt,
        text: text.with_piece(8),
        waits_from: 2,
        sign,
        reads: 0,
        faults: 0,
    })
}
