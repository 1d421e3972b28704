//! A control job that executes undisturbed on the floor of the tool, as laws (after SEMI E40, SEMI E90 and SEMI E94; this tool's
//! profile, tables 14 and 15, and moves): the Dones that are owed to its substrates by their routes, and that it completes where none
//! is owed. And that the floor stays in order, which it stands on as it starts: an unfinished substrate in its slot isn't aligned.
//!
//! It has no code. Begin with `specs/Lot.antt`, then `laws`.
#![tactic(auto)]

pub mod laws;
