//! The tool's replies of streams 3, 14 and 16.

use gem_ids::{Listed, Text80};

/// Why something that the host asks is refused (after SEMI E40 and E94; this tool's profile, messages).
#[derive(Drop)]
pub struct ErrorPart {
    /// ERRCODE, the number of the cause.
    pub code: u8,
    /// ERRTEXT, the cause in words.
    pub text: Text80,
}

/// Whether a command or a creation is taken, and why not (after SEMI E40; this tool's profile, messages).
#[derive(Drop)]
pub struct JobAcknowledge {
    /// ACKA, true where it is taken.
    pub ok: bool,
    /// Why it is refused: none where it is taken.
    pub errors: Listed<ErrorPart>,
}

/// Whether an object is created, and why not (after SEMI E94; this tool's profile, messages).
#[derive(Drop)]
pub struct ObjectAcknowledge {
    /// OBJACK, 0 where it is created.
    pub objack: u8,
    /// Why it is refused: none where it is created.
    pub errors: Listed<ErrorPart>,
}

/// A process job in a list of process jobs (after SEMI E40; this tool's profile, messages).
#[derive(Drop)]
pub struct JobState {
    /// PRJOBID, the job.
    pub job: Text80,
    /// PRSTATE, the number of its state.
    pub state: u8,
}

/// A reply of the tool, with the parts of its body in the printed order (after SEMI E87, E40 and E94; this tool's profile,
/// messages). A part with a fixed value is no field.
pub enum ShopReply {
    /// Carrier action acknowledge: CAACK, 0 where the action is taken.
    S3F18(u8),
    /// Port action acknowledge: CAACK, 0 where the action is taken.
    S3F26(u8),
    /// Change access acknowledge: CAACK, 0 where the access is changed.
    S3F28(u8),
    /// Create object acknowledge: OBJSPEC, and whether the object is created.
    S14F10(Text80, ObjectAcknowledge),
    /// Process job command acknowledge: PRJOBID as it was sent, and whether the command is taken.
    S16F6(Text80, JobAcknowledge),
    /// Process job creation acknowledge: PRJOBID as it was sent, and whether the job is created.
    S16F12(Text80, JobAcknowledge),
    /// Process job dequeue acknowledge: the PRJOBIDs that are taken off the queue, and whether the request is taken.
    S16F18(Listed<Text80>, JobAcknowledge),
    /// Process job list: each job with its state.
    S16F20(Listed<JobState>),
    /// Process job space: how many more jobs can be created.
    S16F22(u16),
    /// Control job command acknowledge: ACKA, true where the command is taken, and why it is refused.
    S16F28(bool, Listed<ErrorPart>),
}

// Written out, so that it is one call wherever such a message is dropped.
impl Drop for ShopReply {
    fn drop(self) {
        match self {
            ShopReply::S3F18(_a) => {}
            ShopReply::S3F26(_a) => {}
            ShopReply::S3F28(_a) => {}
            ShopReply::S14F10(_a, _b) => {}
            ShopReply::S16F6(_a, _b) => {}
            ShopReply::S16F12(_a, _b) => {}
            ShopReply::S16F18(_a, _b) => {}
            ShopReply::S16F20(_a) => {}
            ShopReply::S16F22(_a) => {}
            ShopReply::S16F28(_a, _b) => {}
        }
    }
}
