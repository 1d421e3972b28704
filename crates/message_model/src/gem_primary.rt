//! The host's primaries of streams 1, 2, 5 and 6.

ghost use Rattle.std.specs.Prelude.{◌≡◌};
ghost use Rattle.item_model.specs.View.{view};

use crate::named_value::NamedValue;
use gem_ids::{Ids, Listed, Text80};
use item_model::{Bytes, Item};
use std::marker::Model;

/// A constant and its new value, as S2F15 sets it. Contracts see the number and what the item says.
#[derive(Drop)]
pub struct Setting {
    /// ECID, the constant.
    pub id: u32,
    /// ECV, its new value, which may be an item of any kind.
    pub value: Item,
}

impl Model for Setting {
    ghost use Rattle.std.specs.Prelude.{ℕ};
    ghost use Rattle.item_model.specs.Data.{Data};
    ghost use Rattle.item_model.specs.View.{view as said};
    ghost use Rattle.message_model.specs.Codes.{number_code};

    ghost Value = { ℕ × Data };

    ghost coded = { number_code };

    ghost view = { λ s. (s.id, said s.value) };
}

/// A parameter of a remote command, as S2F41 gives it: CPNAME, and CPVAL, which may be an item of any kind.
pub type Parameter = NamedValue;

/// A stream, and its functions whose notes are to be spooled, as S2F43 gives them.
#[derive(Drop)]
pub struct SpooledStream {
    /// STRID, the stream.
    pub stream: u8,
    /// FCNID, its functions: none stands for all that the stream has.
    pub functions: Listed<u8>,
}

impl Setting {
    /// ECID, the constant.
    pub fn ecid(&self) -> u32
        ensures { result ≡ self.now.0 }
    {
        self.id
    }

    /// ECV, the item of its new value.
    pub fn item(&self) -> &Item
        ensures { view result.now ≡ self.now.1 }
    {
        &self.value
    }
}

/// A primary of the host, with the parts of its body in the printed order (SEMI E5; this tool's profile, messages). A
/// list of ids has at most 1,024 of them, and an empty one stands for all where it asks or enables.
pub enum GemMsg {
    /// Are you there. Its text is ignored.
    S1F1,
    /// Selected equipment status request: SVIDs.
    S1F3(Ids),
    /// Status variable namelist request: SVIDs.
    S1F11(Ids),
    /// Establish communications. Its text is ignored.
    S1F13,
    /// Request OFF-LINE. Its text is ignored.
    S1F15,
    /// Request ON-LINE. Its text is ignored.
    S1F17,
    /// Equipment constant request: ECIDs.
    S2F13(Ids),
    /// New equipment constant send: constants and their new values.
    S2F15(Listed<Setting>),
    /// Date and time request. Its text is ignored.
    S2F17,
    /// Equipment constant namelist request: ECIDs.
    S2F29(Ids),
    /// Date and time set: the characters that were sent, which need be no moment.
    S2F31(Bytes),
    /// Define report: DATAID, and reports, each RPTID and its VIDs.
    S2F33(u32, Listed<(u32, Ids)>),
    /// Link event report: DATAID, and events, each CEID and its RPTIDs.
    S2F35(u32, Listed<(u32, Ids)>),
    /// Enable or disable event report: CEED, true to enable, and CEIDs.
    S2F37(bool, Ids),
    /// Host command send: RCMD, the command, and its parameters.
    S2F41(Text80, Listed<Parameter>),
    /// Reset spooling streams and functions: the streams, and the functions of each, whose notes are to be spooled.
    S2F43(Listed<SpooledStream>),
    /// Enable or disable alarm send: ALED, and ALID. None stands for all alarms: an integer item without elements.
    S5F3(u8, Option<u32>),
    /// List alarms request: ALIDs, as the elements of one integer item or as a list of ids.
    S5F5(Ids),
    /// List enabled alarm request. Its text is ignored.
    S5F7,
    /// Event report request: CEID.
    S6F15(u32),
    /// Individual report request: RPTID.
    S6F19(u32),
    /// Request spooled data: RSDC, 0 to transmit the spool and 1 to purge it.
    S6F23(u8),
}

// Written out, so that it is one call wherever such a message is dropped.
impl Drop for GemMsg {
    fn drop(self) {
        match self {
            GemMsg::S1F3(_a) => {}
            GemMsg::S1F11(_a) => {}
            GemMsg::S2F13(_a) => {}
            GemMsg::S2F15(_a) => {}
            GemMsg::S2F29(_a) => {}
            GemMsg::S2F31(_a) => {}
            GemMsg::S2F33(_a, _b) => {}
            GemMsg::S2F35(_a, _b) => {}
            GemMsg::S2F37(_a, _b) => {}
            GemMsg::S2F41(_a, _b) => {}
            GemMsg::S2F43(_a) => {}
            GemMsg::S5F3(_a, _b) => {}
            GemMsg::S5F5(_a) => {}
            GemMsg::S6F15(_a) => {}
            GemMsg::S6F19(_a) => {}
            GemMsg::S6F23(_a) => {}
            GemMsg::S1F1
            | GemMsg::S1F13
            | GemMsg::S1F15
            | GemMsg::S1F17
            | GemMsg::S2F17
            | GemMsg::S5F7 => {}
        }
    }
}
