/// The number of a load port, counted from 1.
#[derive(Clone, Copy, PartialEq, Eq, PartialOrd, Ord)]
pub struct PortNo(pub u8);

/// The number of a slot of a carrier, 1 to 25 (SEMI E87, slot map).
#[derive(Clone, Copy, PartialEq, Eq, PartialOrd, Ord)]
pub struct SlotNo(pub u8);

/// The number of a module of the tool, which takes commands: robot, aligner or chamber.
#[derive(Clone, Copy, PartialEq, Eq, PartialOrd, Ord)]
pub struct ModuleId(pub u8);

/// The number of a command to a module. Each command of a run has its own, counted from 1.
#[derive(Clone, Copy, PartialEq, Eq, PartialOrd, Ord)]
pub struct CmdNo(pub u64);

/// A place for one substrate (SEMI E90, substrate location): a slot of the carrier at a port, the aligner, the arm
/// of the robot, or a chamber by its number, counted from 1.
#[derive(Clone, Copy, PartialEq, Eq)]
pub enum LocId {
    Slot(PortNo, SlotNo),
    Aligner,
    Arm,
    Chamber(u8),
}
