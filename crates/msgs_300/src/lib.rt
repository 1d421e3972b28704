//! Bodies of the messages of stream 3, of carriers and load ports, of stream 14, of the creation of control jobs, and of
//! stream 16, of process jobs and control jobs (after SEMI E87, E40 and E94; this tool's profile, messages): what the host's
//! primaries say, and what the tool's replies are written as. An action or a command that is not known, an attribute that is
//! not known, a port that the tool has not and a name that is no carrier's and no job's are read as they are; what a message
//! does and how it is refused is left to the crates above, and so are headers, the W-bit and texts that are not one item.
//! Messages of the other streams have crates of their own. Begin with `read_shop`, which reads a primary, and `shop_item`,
//! which gives the item of a reply.
#![tactic(auto)]

mod material;
mod primary;
mod reply;

pub use message_model::{
    BodyFault, CarrierSlots, ErrorPart, JobAcknowledge, JobState, NamedValue, ObjectAcknowledge,
    RecipePart, ShopMsg, ShopReply,
};
pub use primary::{is_shop_stream, read_shop};
pub use reply::shop_item;
