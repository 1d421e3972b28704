//! The world outside: where bytes come from and where they go, links and the door that gives them, clocks, and gates that
//! hold who passes them, or let who has nothing to do sleep until there is news. A `Source` and a `Sink` say in their
//! contracts what is left and what is held, where they tell it, and count their faults, so that code above can prove that it
//! gives up only where something outside failed. A `LinkIn` and a `LinkOut` are both ends of a link, and a `Door` gives links.
//! A `Disk` keeps bytes that outlive the power. The crate has all of these in memory, but for the disk, which `mem_disk` has, those that
//! can fail with a list of calls that are to, and thin adapters of files,
//! standard input and standard output, TCP and the system's clock, which tell no content. It buffers nothing but what
//! a `TcpOut` keeps until it is flushed; `write_all` writes on until all is written. What an adapter that waits has to know of a run, `RunSigns` tell it. Begin with the
//! traits; a test begins with `MemSource::new` and `MemSink::new`, and with `MemDoor::new` for links.
#![tactic(auto)]

mod bell;
mod clock;
mod counts;
mod disk;
mod door;
mod file_disk;
mod file_source;
mod gate;
mod gates;
mod hearings;
mod link;
mod list_clock;
mod meetings;
mod mem_door;
mod mem_link;
mod mem_sink;
mod mem_source;
mod met;
mod read;
mod ready;
mod script_source;
mod sending;
mod signs;
mod sink;
mod source;
mod standard;
mod system_clock;
mod tcp_door;
mod tcp_in;
mod tcp_out;
mod turning_away;
mod wake_gate;
mod write;

pub use clock::Clock;
pub use disk::Disk;
pub use door::Door;
pub use file_disk::FileDisk;
pub use file_source::FileSource;
pub use gate::{Gate, Point};
pub use gates::{HoldGate, OpenGate, SleepGate};
pub use link::{LinkIn, LinkOut};
pub use list_clock::ListClock;
pub use mem_door::MemDoor;
pub use mem_link::{MemIn, MemOut};
pub use mem_sink::{MemSink, NoMemory};
pub use mem_source::MemSource;
pub use met::Met;
pub use read::{front, read_front};
pub use script_source::ScriptSource;
pub use signs::RunSigns;
pub use sink::Sink;
pub use source::{Failed, Source};
pub use standard::{StdinSource, StdoutSink};
pub use system_clock::SystemClock;
pub use tcp_door::TcpDoor;
pub use tcp_in::TcpIn;
pub use tcp_out::TcpOut;
pub use wake_gate::WakeGate;
pub use write::{WriteFault, write_all};
