//! The state of a link, and how it comes up and goes down (SEMI E37, connection states).

ghost use Rattle.std.specs.Prelude.{◌≡◌, true, false};
ghost use Rattle.hsms_link.specs.Links.{is_selected, is_open};
ghost use Rattle.hsms_link.specs.declared.state.Phase.TheVariants as phase;
ghost use Rattle.hsms_link.specs.declared.state.Ping.TheVariants as ping;

use gem_ids::Moment;

/// The states of a link (SEMI E37, connection states): none, a link that isn't selected since it came up, a selected one.
#[derive(Clone, Copy, PartialEq, Eq)]
pub enum Phase {
    Down,
    NotSelected { since: Moment },
    Selected,
}

/// The tool's linktests: not begun, none open since this moment, or one open that was asked at this moment.
#[derive(Clone, Copy)]
pub enum Ping {
    Off,
    Quiet { since: Moment },
    Asked { system: u32, since: Moment },
}

/// A link, with the number of its session.
#[derive(Clone, Copy)]
pub struct LinkState {
    pub session: u64,
    pub phase: Phase,
    pub ping: Ping,
}

impl LinkState {
    /// A link came up at this moment, as the session of this number. It isn't selected yet.
    pub fn up(&mut self, session: u64, at: Moment)
        ensures session { self.new.session ≡ session }
        ensures phase { self.new.phase ≡ phase.NotSelected at }
        ensures ping { self.new.ping ≡ ping.Off }
    {
        *self = LinkState {
            session,
            phase: Phase::NotSelected { since: at },
            ping: Ping::Off,
        };
    }

    /// The link went down. The number of its session stays.
    pub fn down(&mut self)
        ensures session { self.new.session ≡ self.old.session }
        ensures phase { self.new.phase ≡ phase.Down }
        ensures ping { self.new.ping ≡ ping.Off }
    {
        self.phase = Phase::Down;
        self.ping = Ping::Off;
    }

    /// The tool sent a linktest request with these system bytes at this moment. The link is selected, and no linktest
    /// of the tool is open.
    pub fn asked(&mut self, system: u32, at: Moment)
        requires selected { is_selected self.old.phase ≡ true }
        requires none_open { is_open self.old.ping ≡ false }
        ensures session { self.new.session ≡ self.old.session }
        ensures phase { self.new.phase ≡ self.old.phase }
        ensures ping { self.new.ping ≡ ping.Asked system at }
    {
        self.ping = Ping::Asked { system, since: at };
    }
}
