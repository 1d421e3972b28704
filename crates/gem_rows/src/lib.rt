//! Numbers of the tool's host interface: rows of the transition tables and their collection events, variables, and alarms
//! (SEMI E5, data items CEID, VID, ALID; SEMI E30, event notification), by this tool's profile.
//!
//! It knows which numbers there are and how they are called, and no value of a variable and no state of an alarm. Only
//! the two lists take memory. Begin with `ceid_of`, which gives the event of a row; `is_vid` and `alids` say what a plant
//! knows.
#![tactic(auto)]

mod alarms;
pub mod ecids;
mod laws;
mod names;
mod rows;
mod variables;

pub use alarms::{UNEXPECTED_ANSWER, alarm_text, alids, is_module_alarm, module_alarm, port_alarm};
pub use gem_tables::{RowId, Table};
pub use laws::{
    a_row_and_its_ceid_name_each_other, alarms_of_a_plant_rise_and_have_texts, names_are_texts,
    the_list_has_each_ceid_once, the_list_has_each_status_variable_once,
    variables_of_a_plant_have_names,
};
pub use rows::{ceid_of, ceids, is_ceid, row_of};
pub use variables::{StatusVariable, is_vid, status_variable, status_vids, vid_name};
