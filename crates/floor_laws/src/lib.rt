//! What holds of the floor of the tool at every moment is kept by each row, by what the host writes, and by what inputs do (after SEMI E40,
//! SEMI E87, SEMI E90 and SEMI E94; this tool's profile, tables 4 to 16).
//!
//! It has no code. What holds is in place_laws, `specs/Sound.antt`; what rows do to the floor by numbers is in picture_laws.
#![tactic(auto)]

pub mod laws;
