//! What is asked of ports, and what carriers are told of them.

use gem_ids::{CarrierId, Listed};

/// What the host asks of ports (SEMI E87, S3F25 and S3F27): `Reserve` and `CancelReserve` name a port by its number, and
/// `Access` the mode, 0 MANUAL and 1 AUTO, and the ports whose mode it is to be, none for all. `Unknown` is any other
/// action.
#[derive(Drop)]
pub enum PortAction {
    Reserve(u8),
    CancelReserve(u8),
    Access(u8, Listed<u8>),
    Unknown,
}

/// What carriers are told of a port: whether a carrier is present, whether the port is in service, and the carrier that
/// belongs to it.
#[derive(Clone, Copy, Default)]
pub struct PortView {
    pub present: bool,
    pub in_service: bool,
    pub carrier: Option<CarrierId>,
}
