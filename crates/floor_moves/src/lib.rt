//! The moves as laws (after SEMI E87 and E90; this tool's profile, tables 10, 12, 13 and 16): what the rows of carriers,
//! substrates and modules do to a floor that is told by numbers, and what holds of it at each moment.
//!
//! It has no code, and knows no record and no process job: a crate above gives the floor by numbers, and takes the laws. What
//! process jobs say of substrates and carriers stands in it as it is told. When a row fires is no part of it: `carrier`,
//! `substrate`, `robot_moves` and `floor_model` say that. Begin with `specs/Floor.antt` and `specs/Effects.antt`, then
//! `specs/Valid.antt` and `laws`.
#![tactic(auto)]

pub mod laws;
