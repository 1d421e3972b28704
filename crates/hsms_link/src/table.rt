//! What a header does on a link (SEMI E37, message exchange procedures).

ghost use Rattle.std.specs.Prelude.{◌≡◌, true};
ghost use Rattle.hsms_link.specs.Links.{is_up, is_asked};
ghost use Rattle.hsms_link.specs.LinkTable.{response, reject, link_act, link_after};

use crate::state::{LinkState, Phase, Ping};
use gem_ids::Moment;
use hsms_frame::Header;

/// What a header does: a header goes back, it belongs to a data message, it ends the session, or nothing.
#[derive(Clone, Copy)]
pub enum LinkAct {
    Reply(Header),
    Data,
    Ended,
    Nothing,
}

// Session types (SEMI E37, message header).
const DATA: u8 = 0;

const SELECT_REQUEST: u8 = 1;

const SELECT_RESPONSE: u8 = 2;

const LINKTEST_REQUEST: u8 = 5;

const LINKTEST_RESPONSE: u8 = 6;

const REJECT: u8 = 7;

const SEPARATE: u8 = 9;

// Reasons of a reject (SEMI E37, reject procedure).
const SESSION_TYPE_NOT_SUPPORTED: u8 = 1;

const PRESENTATION_TYPE_NOT_SUPPORTED: u8 = 2;

const TRANSACTION_NOT_OPEN: u8 = 3;

const NOT_SELECTED: u8 = 4;

// A response to a select or linktest request, with its session type and status.
fn response(stype: u8, status: u8, request: &Header) -> LinkAct
    ensures { result ≡ response stype status request.now }
{
    LinkAct::Reply(Header {
        session: 0xFFFF,
        byte2: 0,
        byte3: status,
        ptype: 0,
        stype,
        system: request.system,
    })
}

// A reject of a header, with its reason and the type that is rejected.
fn reject(reason: u8, refused: u8, header: &Header) -> LinkAct
    ensures { result ≡ reject reason refused header.now }
{
    LinkAct::Reply(Header {
        session: header.session,
        byte2: refused,
        byte3: reason,
        ptype: 0,
        stype: REJECT,
        system: header.system,
    })
}

impl LinkState {
    /// Takes a header that arrived at this moment, by the table of the link: what it does, and the state after it. The
    /// link is up. `Ended` leaves the state: the end of the session calls `down`.
    pub fn take(&mut self, header: &Header, at: Moment) -> LinkAct
        requires { is_up self.old.phase ≡ true }
        ensures act { result ≡ link_act header.now self.old }
        ensures after { self.new ≡ link_after header.now at.0 self.old }
        ensures up { is_up self.new.phase ≡ true }
    {
        if header.ptype != 0 {
            return reject(PRESENTATION_TYPE_NOT_SUPPORTED, header.ptype, header);
        }
        let selected = self.phase == Phase::Selected;
        match header.stype {
            DATA if selected => LinkAct::Data,
            DATA => reject(NOT_SELECTED, DATA, header),
            SELECT_REQUEST if selected => response(SELECT_RESPONSE, 1, header),
            SELECT_REQUEST => {
                *self = LinkState {
                    session: self.session,
                    phase: Phase::Selected,
                    ping: Ping::Quiet { since: at },
                };
                response(SELECT_RESPONSE, 0, header)
            }
            LINKTEST_REQUEST => response(LINKTEST_RESPONSE, 0, header),
            LINKTEST_RESPONSE if self.is_asked(header.system) => {
                self.ping = Ping::Quiet { since: at };
                LinkAct::Nothing
            }
            SELECT_RESPONSE | LINKTEST_RESPONSE => {
                reject(TRANSACTION_NOT_OPEN, header.stype, header)
            }
            REJECT => LinkAct::Nothing,
            SEPARATE if selected => LinkAct::Ended,
            SEPARATE => LinkAct::Nothing,
            stype => reject(SESSION_TYPE_NOT_SUPPORTED, stype, header),
        }
    }

    // A linktest of the tool with these system bytes is open.
    fn is_asked(&self, system: u32) -> bool
        ensures { result ≡ is_asked system self.now.ping }
    {
        match self.ping {
            Ping::Asked { system: open, .. } => open == system,
            _ => false,
        }
    }
}
