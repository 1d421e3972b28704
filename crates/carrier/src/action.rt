//! What is asked of a carrier.

use gem_ids::Text80;

/// What the host asks of a carrier (SEMI E87, S3F17): Bind, CancelBind, ProceedWithCarrier, CancelCarrier,
/// CarrierNotification, CancelCarrierNotification, or any other action.
#[derive(Clone, Copy)]
pub enum CarrierWord {
    Bind,
    CancelBind,
    Proceed,
    Cancel,
    Notify,
    CancelNotify,
    Unknown,
}

/// An action on a carrier, as S3F17 says it: the name and the port's number as they stand in the message, the map of the
/// attribute SlotMap, where it is given, and whether an attribute is faulty.
#[derive(Clone, Copy)]
pub struct CarrierAction {
    pub word: CarrierWord,
    pub id: Text80,
    pub port: u8,
    pub map: Option<[u8; 25]>,
    pub bad_attr: bool,
}
