//! What the messages of the host ask and what they are answered, as far as the tool need not change for it (SEMI E5, streams 1, 2, 3, 5, 6,
//! 14 and 16; SEMI E30, remote control and spooling; SEMI E40, commands to process jobs; SEMI E87, carrier and port actions; SEMI E94,
//! S14F9 and S16F27).
//!
//! - What is asked: the header of a data message and its item, with what it is read, and by what one is told that is not read
//!   (`arrival`, `reading`); what is decided of a remote command, by the alarms, the jobs and who commands (`remote`); which entries of
//!   S2F43 are refused (`spooling`); and which action on carriers or ports is meant (`shop`).
//! - What the host is told of the tool's data: values and names of variables and constants, alarms and reports (`asks`), of a plant
//!   that comes as a `Seen` of `plant_values` and is not changed.
//! - What was done of a message, the text of its reply (`done`), what replies tell of jobs (`jobs`), and the rows of what is asked of
//!   carriers, ports and jobs (`ports`, `rows`).
//!
//! What messages do stands in `core_host`. Memory may run out in each call that is handed an allocator. Begin with `header_of` and
//! `item_of`, then `Done` and `reply_text`.
#![tactic(auto)]

mod arrival;
mod asks;
mod clock;
mod done;
mod jobs;
mod ports;
mod reading;
mod remote;
mod rows;
mod shop;
mod spooling;

pub use arrival::{header_of, is_message, is_too_long, item_of, stream_of, wants_reply};
pub use asks::{
    alarm_list, constant_names, constant_values, enabled_alarm_list, event_reports, one_report,
    status_names, status_values,
};
pub use clock::{moment_in, tiack};
pub use done::{Done, HostReply, answered, fires_row, reply_text};
pub use jobs::{
    acknowledged, command_rows, errors_of, few_cancelled, job_rows, listed_jobs,
    object_acknowledged,
};
pub use ports::{accepted_carrier_rows, accepted_port_rows};
pub use reading::{text_item, told_by};
pub use remote::{Decision, Hcack, decided};
pub use rows::Rows;
pub use shop::{carrier_action, port_word};
pub use spooling::{kinds_of, refusals};
