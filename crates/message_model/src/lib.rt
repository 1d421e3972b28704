//! Bodies of messages (SEMI E5; after SEMI E87, E40 and E94; this tool's profile, messages), by definitions: the words that a body is
//! printed with, the tables of the host's primaries, what each is read as, what the tool's replies and its own primaries are printed
//! as, and how much each holds at most. What a message does is left to the crates above, and so are headers and the W-bit.
//!
//! The code that reads and writes the bodies is `body_parts`, `msgs_gem` and `msgs_300`, which meet these
//! definitions; they stand apart from it, so that what is said of the tool doesn't wait for it. Begin with `GemMsg` and `GemReply`, of
//! streams 1, 2, 5, 6 and 9, and `ShopMsg` and `ShopReply`, of streams 3, 14 and 16.
#![tactic(auto)]

mod fault;
mod gem_primary;
mod gem_reply;
mod material;
mod named_value;
mod shop_primary;
mod shop_reply;

pub use fault::BodyFault;
pub use gem_primary::{GemMsg, Parameter, Setting, SpooledStream};
pub use gem_reply::{
    AlarmPart, GemReply, Identity, ParameterAcknowledge, StreamRefusal, VariableName,
};
pub use material::{CarrierSlots, RecipePart};
pub use named_value::NamedValue;
pub use shop_primary::ShopMsg;
pub use shop_reply::{ErrorPart, JobAcknowledge, JobState, ObjectAcknowledge, ShopReply};
