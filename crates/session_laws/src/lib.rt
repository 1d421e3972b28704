//! What the history of a run has of each session of the host, as a law (after SEMI E37; this tool's profile, sessions and serving):
//! the messages that came on its link and the frames that went out on it, of each session those of its own link.
//!
//! It has no code. Begin with `specs/Kept.antt`; the law is `sessions_kept` in `proofs/Whole.antt`, and `serve` promises it.
#![tactic(auto)]
