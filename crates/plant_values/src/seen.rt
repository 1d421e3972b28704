//! What the plant is, borrowed, as its variables are read.
ghost use Rattle.std.specs.Prelude.{◌≡◌};
ghost use Rattle.gem_model.specs.State.{clock_now};

use data_variables::Constants;
use event_reports::{Alarms, Reports};
use floor_model::FloorParts;
use gem_ids::Moment;
use gem_states::{Comm, Control};
use hsms_frame::Bytes;
use hsms_link::LinkState;
use note_line::CountedLine;
use std::collections::VecDeque;
use std::marker::Model;
use tool_events::Config;
use transactions::Transactions;

/// All that the tool is, borrowed: its parts, each under its name in the state of the tables. Contracts see it as that state.
#[derive(Drop)]
pub struct Seen<'a> {
    pub config: &'a Config,
    pub moment: Moment,
    /// What the host's clock showed, and the moment at which it did.
    pub shown: Moment,
    pub shown_at: Moment,
    pub quitting: bool,
    pub link: &'a LinkState,
    pub comm: Comm,
    pub control: Control,
    pub switch_local: bool,
    pub transactions: &'a Transactions,
    pub constants: &'a Constants,
    pub reports: &'a Reports,
    pub alarms: &'a Alarms,
    pub line: &'a CountedLine,
    pub floor: FloorParts<'a>,
    pub waiting: &'a VecDeque<Bytes>,
}

impl<'a> Model for Seen<'a> {
    ghost use Rattle.gem_model.specs.State.{State};

    ghost Value = { State };

    ghost view = { λ p. record {
      config = p.config.now;
      moment = p.moment.0;
      clock = record { shown = p.shown.0; at = p.shown_at.0 };
      quitting = p.quitting;
      link = p.link.now;
      comm = p.comm;
      control = p.control;
      switch_local = p.switch_local;
      transactions = p.transactions.now;
      constants = p.constants.now;
      reports = p.reports.now;
      alarms = p.alarms.now;
      line = p.line.now;
      floor = p.floor;
      waiting = p.waiting.now.items;
    } };
}

impl<'a> Seen<'a> {
    /// The equipment constants.
    pub fn constants(&self) -> &Constants
        ensures { result.now ≡ self.now.constants }
    {
        self.constants
    }

    /// The alarms of the tool.
    pub fn alarms(&self) -> &Alarms
        ensures { result.now ≡ self.now.alarms }
    {
        self.alarms
    }

    /// The clock that the host sees (docs/profile/time.md).
    pub fn clock_now(&self) -> Moment
        ensures { result.0 ≡ clock_now self.now }
    {
        let passed = self.moment.0.saturating_sub(self.shown_at.0);
        Moment(self.shown.0.saturating_add(passed).min(Moment::LAST.0))
    }
}
