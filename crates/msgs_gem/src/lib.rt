//! Bodies of the messages of streams 1, 2, 5, 6 and 9 (SEMI E5; this tool's profile, messages): what the host's
//! primaries say (`primary`), what the tool's replies and its own primaries are written as (`reply`), and whether an S1F14 accepts
//! (`acknowledge`). What a message does is left to the crates above, and so are headers, the W-bit and texts that are not one item;
//! values, constants and reports come to a reply as items that those crates made. Begin with `read_gem`, which reads a primary,
//! and `gem_item`, which gives the item of a reply; who gives a reply away takes `gem_item_out`, which copies nothing.
#![tactic(auto)]

mod acknowledge;
mod ignored;
mod laws;
mod primary;
mod reply;

pub use acknowledge::accepts_communication;
pub use ignored::an_ignored_text_makes_no_difference;
pub use laws::what_refuses_few_functions_can_be_sent;
pub use message_model::{
    AlarmPart, BodyFault, GemMsg, GemReply, Identity, Parameter, ParameterAcknowledge, Setting,
    SpooledStream, StreamRefusal, VariableName,
};
pub use primary::{is_ignored, read_gem};
pub use reply::{gem_item, gem_item_out};
