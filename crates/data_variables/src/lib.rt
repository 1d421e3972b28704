//! The equipment constants of the tool (SEMI E5, S2F13 to S2F16, S2F29 and S2F30; SEMI E30, equipment constants), by this
//! tool's profile: their table, their values, and what messages say of them.
//!
//! It gives no constant a meaning: the crates above read `number` and `truth`, and act. It knows no message and no header,
//! only the items inside. Begin with `Constants::new`; `set_of` and `Constants::set_all` take the values of the host.
#![tactic(auto)]

mod bodies;
mod constant;
mod constants;
mod laws;
mod val;

pub use bodies::{item_of, set_of};
pub use constant::ids;
pub use constants::Constants;
pub use laws::{
    constants_are_variables, each_value_is_in_range, setting_keeps_constants,
    the_defaults_are_constants, values_and_names_can_be_sent,
};
pub use val::Val;
