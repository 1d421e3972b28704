//! The tool's replies, and its own primaries, of streams 1, 2, 5, 6 and 9.

use gem_ids::{Listed, Text80};
use item_model::{Bytes, Items};

/// What the tool tells of itself.
#[derive(Drop)]
pub struct Identity {
    /// MDLN, the model of the tool.
    pub mdln: Bytes,
    /// SOFTREV, the revision of its software.
    pub softrev: Bytes,
}

/// A status variable and its name.
#[derive(Drop)]
pub struct VariableName {
    /// SVID, the variable.
    pub svid: u32,
    /// SVNAME, its name: the text of no bytes where the variable is unknown.
    pub name: Text80,
}

/// A parameter of a remote command that is refused, and why.
#[derive(Drop)]
pub struct ParameterAcknowledge {
    /// CPNAME, the name of the parameter as it was sent.
    pub name: Text80,
    /// CPACK, why it is refused.
    pub cpack: u8,
}

/// A stream that is refused where the host sets what is spooled, and why.
#[derive(Drop)]
pub struct StreamRefusal {
    /// STRID, the stream as it was sent.
    pub stream: u8,
    /// STRACK, why it is refused.
    pub strack: u8,
    /// FCNID, the functions that are refused.
    pub functions: Listed<u8>,
}

/// An alarm in a list of alarms.
#[derive(Drop)]
pub struct AlarmPart {
    /// ALCD, the byte of the alarm's code. None where the alarm is unknown, which is printed as a B without elements.
    pub alcd: Option<u8>,
    /// ALID, the alarm.
    pub alid: u32,
    /// ALTX, the text of the alarm: of no bytes where the alarm is unknown.
    pub text: Text80,
}

/// A reply of the tool, or a primary of its own, with the parts of its body in the printed order (SEMI E5; this tool's
/// profile, messages). A part with a fixed value is no field. S1F1 of the tool and each message of function 0 have no
/// text, and no variant.
pub enum GemReply {
    /// On line data: MDLN and SOFTREV.
    S1F2(Bytes, Bytes),
    /// Selected equipment status data: the values, in the order of the request.
    S1F4(Items),
    /// Status variable namelist reply.
    S1F12(Listed<VariableName>),
    /// Establish communications, the tool's primary: MDLN and SOFTREV.
    S1F13(Bytes, Bytes),
    /// Establish communications acknowledge, with COMMACK 0.
    S1F14(Identity),
    /// OFF-LINE acknowledge, with OFLACK 0.
    S1F16,
    /// ON-LINE acknowledge: ONLACK.
    S1F18(u8),
    /// Equipment constant data: the values, in the order of the request.
    S2F14(Items),
    /// New equipment constant acknowledge: EAC.
    S2F16(u8),
    /// Date and time data: 16 digits, YYYYMMDDhhmmsscc.
    S2F18(Bytes),
    /// Equipment constant namelist: the constants, each the whole list of ECID, name, least, greatest and default value,
    /// and units.
    S2F30(Items),
    /// Date and time set acknowledge: TIACK.
    S2F32(u8),
    /// Define report acknowledge: DRACK.
    S2F34(u8),
    /// Link event report acknowledge: LRACK.
    S2F36(u8),
    /// Enable or disable event report acknowledge: ERACK.
    S2F38(u8),
    /// Host command acknowledge: HCACK, and the parameters that are refused.
    S2F42(u8, Listed<ParameterAcknowledge>),
    /// Reset spooling acknowledge: RSPACK, and the streams that are refused.
    S2F44(u8, Listed<StreamRefusal>),
    /// Alarm report send, the tool's primary: ALCD, ALID and ALTX.
    S5F1(u8, u32, Text80),
    /// Enable or disable alarm acknowledge: ACKC5.
    S5F4(u8),
    /// List alarm data.
    S5F6(Listed<AlarmPart>),
    /// List enabled alarm data.
    S5F8(Listed<AlarmPart>),
    /// Event report send, the tool's primary: the number of its note as DATAID, CEID, and the reports, each the whole
    /// list of RPTID and values.
    S6F11(u64, u32, Items),
    /// Event report data: CEID, and the reports, each the whole list of RPTID and values. DATAID is 0.
    S6F16(u32, Items),
    /// Individual report data: the values.
    S6F20(Items),
    /// Request spooled data acknowledge: RSDA.
    S6F24(u8),
    /// Unrecognized device id: the header that was received.
    S9F1(Bytes),
    /// Unrecognized stream: the header that was received.
    S9F3(Bytes),
    /// Unrecognized function: the header that was received.
    S9F5(Bytes),
    /// Illegal data: the header that was received.
    S9F7(Bytes),
    /// Transaction timer timeout: the header that was sent.
    S9F9(Bytes),
    /// Data too long: the header that was received.
    S9F11(Bytes),
}

// Written out, so that it is one call wherever such a message is dropped.
impl Drop for GemReply {
    fn drop(self) {
        match self {
            GemReply::S1F2(_a, _b) => {}
            GemReply::S1F4(_a) => {}
            GemReply::S1F12(_a) => {}
            GemReply::S1F13(_a, _b) => {}
            GemReply::S1F14(_a) => {}
            GemReply::S1F18(_a) => {}
            GemReply::S2F14(_a) => {}
            GemReply::S2F16(_a) => {}
            GemReply::S2F18(_a) => {}
            GemReply::S2F30(_a) => {}
            GemReply::S2F32(_a) => {}
            GemReply::S2F34(_a) => {}
            GemReply::S2F36(_a) => {}
            GemReply::S2F38(_a) => {}
            GemReply::S2F42(_a, _b) => {}
            GemReply::S2F44(_a, _b) => {}
            GemReply::S5F1(_a, _b, _c) => {}
            GemReply::S5F4(_a) => {}
            GemReply::S5F6(_a) => {}
            GemReply::S5F8(_a) => {}
            GemReply::S6F11(_a, _b, _c) => {}
            GemReply::S6F16(_a, _b) => {}
            GemReply::S6F20(_a) => {}
            GemReply::S6F24(_a) => {}
            GemReply::S9F1(_a) => {}
            GemReply::S9F3(_a) => {}
            GemReply::S9F5(_a) => {}
            GemReply::S9F7(_a) => {}
            GemReply::S9F9(_a) => {}
            GemReply::S9F11(_a) => {}
            GemReply::S1F16 => {}
        }
    }
}
