//! The definitions of the tool, with no code of it: its state, what each data message does to it, the step of an event, the
//! run of a history and when it is full, the history that a text of lines makes, and the lines that are printed for it. They
//! follow SEMI E5 (streams and functions), SEMI E30 (communication, control, event reports, alarms and spooling) and this
//! tool's profile, and stand in `specs/`. What a header does on a link, and
//! when its deadlines come (SEMI E37: select, linktest and separate, rejects, T6 and T7), is defined in `hsms_link`; a step
//! takes it from there. The crates above cite the definitions in their contracts. Begin with `specs/State.antt` and
//! `specs/Step.antt`. `worked` has conversations that show what the definitions mean, and `laws` what holds of them.
#![tactic(auto)]

pub mod laws;
pub mod worked;
