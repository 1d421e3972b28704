//! The disk, by itself or under a spool.
ghost use Rattle.std.specs.Prelude.{◌≡◌, ◌≢◌, true, Ok, IfOk, IfErr};
ghost use Rattle.notes_top.specs.Keeping.{disk_of, KeptAt, OpenedAt, Refuses};
ghost use Rattle.notes_top.specs.Stages.{Stage, is_open};
ghost use Rattle.notes_lines.specs.declared.line.SpoolLine.{SpoolLine};

use crate::stop::{Stop, stop_of};
use nv_spool::NvSpool;
use outside::Disk;
use std::alloc::Global;

/// The disk, and once a line wants that the spool over it.
#[derive(Drop)]
pub enum Kept<D: Disk + Drop> {
    Disk(D),
    Spool(NvSpool<D>),
}

impl<D: Disk + Drop> Kept<D> {
    // Whether the spool is open.
    pub(crate) fn is_open(&self) -> bool
        ensures { (first : D) (stage : Stage) → KeptAt D.tells D.reads D.leaves D.faults first stage self.now → result ≡ is_open stage }
    {
        match self {
            Kept::Disk(_) => false,
            Kept::Spool(_) => true,
        }
    }

    // Hands the disk back.
    pub(crate) fn into_disk(self) -> D
        ensures { result ≡ disk_of self }
    {
        match self {
            Kept::Disk(disk) => disk,
            Kept::Spool(spool) => spool.close(),
        }
    }

    // The spool, which is opened where it isn't yet; or the disk, and why it isn't opened.
    pub(crate) fn opened(self, alloc: Global) -> Result<NvSpool<D>, (D, Stop)>
        ensures opened { (first : D) (stage : Stage) → KeptAt D.tells D.reads D.leaves D.faults first stage self
            → IfOk result (OpenedAt D.tells D.reads D.leaves D.faults first stage) }
        ensures refused { (first : D) (stage : Stage) (says : SpoolLine) → KeptAt D.tells D.reads D.leaves D.faults first stage self
            → IfErr result (λ e. Refuses D.tells D.reads D.leaves D.faults first stage (Ok says) e.0 e.1) }
        ensures unwritten { IfErr result (λ e. e.1 ≢ Stop.Write) }
    {
        match self {
            Kept::Spool(spool) => Ok(spool),
            Kept::Disk(disk) => match NvSpool::open(alloc, disk) {
                Ok(spool) => Ok(spool),
                Err((disk, fault)) => Err((disk, stop_of(fault))),
            },
        }
    }
}
