//! What holds of the control job that executes, as laws over the jobs (after SEMI E40 and SEMI E94; this tool's profile, tables 14
//! and 15): which process jobs were started, and that a control job which nobody disturbs goes on until none is left in it.
//!
//! It has no code, and stands on the jobs by names and numbers of `tool_jobs`. Begin with `specs/Started.antt` and
//! `specs/Steers.antt`, then `laws`.
#![tactic(auto)]

pub mod laws;
