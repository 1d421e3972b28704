//! The names and moments of the tool, which every other crate speaks of: texts of at most 80 bytes, the names of
//! carriers, jobs and substrates, ports, slots, modules, commands, locations, moments in hundredths of a second, and lists.
//! The limits are those of this tool's profile, within what SEMI E87, E90 and E94 allow. Only a list takes memory, and every
//! other type is copied. A name is compared by its bytes; what it names is kept by the crates above. Begin with
//! `Text80::read`, which makes a text of bytes, and `CarrierId::read`, which makes a name of a text. `Listed` is the list
//! type of the whole tool.
#![tactic(auto)]

mod listed;
mod moment;
mod names;
mod numbers;
mod text;

pub use listed::{Ids, Listed};
pub use moment::Moment;
pub use names::{
    CarrierId, CarrierKind, JobId, JobKind, Name, SubstrateId, SubstrateKind, substrate_id,
};
pub use numbers::{CmdNo, LocId, ModuleId, PortNo, SlotNo};
pub use text::{Text80, TextFault};
