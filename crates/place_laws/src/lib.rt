//! What the laws of the moves say of the floor of the tool (after SEMI E40, SEMI E87 and SEMI E90; this tool's profile, carriers,
//! substrates, moves and process jobs).
//!
//! It has no code. `specs/Picture.antt` reads the floor of the tool by numbers, as `floor_moves` has it; `specs/Sound.antt`, with
//! `specs/Standing.antt` and `specs/Ports.antt`, is what holds at every moment. That each row keeps it is in `floor_laws`.
#![tactic(auto)]
