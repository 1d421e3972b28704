use gem_ids::ModuleId;
use hsms_frame::Bytes;
use tool_events::SessionCause;
use tool_tasks::Command;

/// What an output line says (this tool's profile, output lines).
#[derive(Drop)]
pub enum OutLine {
    /// `+ k`: session k came up.
    Up(u64),
    /// `- k CAUSE`: session k ended.
    Ended(u64, SessionCause),
    /// `> HEX`: a frame that was taken, all of its bytes.
    Frame(Bytes),
    /// `! m n TASK`: module m is to do this task, by command n.
    Command(ModuleId, Command),
    /// `= ok` or `= no`: whether an operator's command was accepted.
    Oper(bool),
}
