//! What stands around a tool that serves, in tests: hosts over TCP and peers in memory, scripts that wait, clocks of equal steps, gates
//! that hold an actor, doors; what a run is given; and what is told of one. It knows nothing of the call that serves, so that it is proved
//! beside all that the call stands on. It is no part of the tool.
//!
//! Whatever waits gives up after 60,000 turns of a millisecond. Begin with `Given`, and with `patient_door`.
#![tactic(auto)]

mod clocks;
mod doors;
mod ends;
mod frames;
mod gates;
mod given;
mod histories;
mod peers;
mod scripts;
mod signs;
mod told;
mod visits;

pub use clocks::StepClock;
pub use doors::{
    PatientDoor, door_of, hasty_links, holds_a_front, is_race, is_selected, patient_door,
    three_links_door,
};
pub use ends::{PatientIn, TellingOut};
pub use frames::SELECT;
pub use gates::RestingHold;
pub use given::{Given, Limits, UNLIMITED, fails_of, give, source_of};
pub use peers::free_port;
pub use scripts::{WaitingScript, local_and_quit_at, quit_at};
pub use signs::{LinkSigns, Sign};
pub use told::{tell_history, tell_log};
pub use visits::{HostTold, tell_host, visit};
