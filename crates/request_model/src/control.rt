//! What is asked where a control job is created (SEMI E94, S14F9).

use gem_ids::{Listed, Text80};

/// What the attributes of an S14F9 ask for (SEMI E94, S14F9; this tool's profile, messages): whether they are taken; the name of the
/// control job, which also stands in the answer; the process jobs that it names; and whether it starts by itself.
#[derive(Drop)]
pub struct ControlRequest {
    pub is_taken: bool,
    pub name: Text80,
    pub jobs: Listed<Text80>,
    pub auto: bool,
}
