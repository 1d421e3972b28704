//! What the host sets of the tool's data (SEMI E5, streams 2 and 5).
ghost use Rattle.std.specs.Prelude.{◌≡◌, OnOk, IfOk};
ghost use Rattle.data_variables.specs.Setting.{eac, set_all_after};
ghost use Rattle.event_reports.specs.Alarms.{is_set, ackc5, alarms_enabled};
ghost use Rattle.event_reports.specs.Reports.{drack, defined, lrack, linked, erack, enabled};
ghost use Rattle.gem_model.specs.Messages.{settings_of};

use crate::plant::Plant;
use gem_ids::Ids;
use message_model::Setting;
use plant_parts::settings_of;
use std::alloc::{AllocError, Global};

impl Plant {
    /// Whether an alarm of the tool is set.
    pub fn is_alarm_set(&self, alid: u32) -> bool
        ensures { result ≡ is_set alid self.now.alarms }
    {
        self.alarms.is_set(alid)
    }

    /// Constants are set to these values, all of them or none (SEMI E5, S2F15). Gives EAC: 1 for an unknown constant and 3
    /// for a value of another kind or out of range, that of the first faulty one, and else 0.
    pub fn set_constants(&mut self, alloc: Global, settings: &[Setting]) -> Result<u8, AllocError>
        ensures code { IfOk result (λ code. code ≡ eac (settings_of settings.now)) }
        ensures after { OnOk result (self.new ≡ record self.old { constants = set_all_after (settings_of settings.now) self.old.constants }) }
    {
        let sets = settings_of(alloc, settings)?;
        Ok(self.constants.set_all(sets.as_slice()))
    }

    /// Reports are defined and deleted, all of them or none (SEMI E5, S2F33). Gives DRACK.
    pub fn define_reports(
        &mut self,
        alloc: Global,
        reports: &[(u32, Ids)],
    ) -> Result<u8, AllocError>
        ensures code { IfOk result (λ code. code ≡ drack reports.now self.old.reports) }
        ensures after { OnOk result (self.new ≡ record self.old { reports = defined reports.now self.old.reports }) }
    {
        let code = self.reports.define(alloc, reports)?;
        Ok(code)
    }

    /// Reports are linked to events, all of them or none (SEMI E5, S2F35). Gives LRACK.
    pub fn link_reports(&mut self, alloc: Global, events: &[(u32, Ids)]) -> Result<u8, AllocError>
        ensures code { IfOk result (λ code. code ≡ lrack events.now self.old.reports) }
        ensures after { OnOk result (self.new ≡ record self.old { reports = linked events.now self.old.reports }) }
    {
        let code = self.reports.link(alloc, events)?;
        Ok(code)
    }

    /// Events are enabled or disabled, all of the tool where none is named (SEMI E5, S2F37). Gives ERACK: 1 for an unknown
    /// one, and then nothing has changed, and else 0.
    pub fn enable_events(&mut self, on: bool, ceids: &[u32]) -> u8
        ensures code { result ≡ erack ceids.now self.old.reports }
        ensures after { self.new ≡ record self.old { reports = enabled on ceids.now self.old.reports } }
    {
        self.reports.enable(on, ceids)
    }

    /// An alarm is enabled or disabled, or all where none is named (SEMI E5, S5F3). Gives ACKC5: 1 for an unknown one, and
    /// then nothing has changed, and else 0.
    pub fn enable_alarms(&mut self, on: bool, alid: Option<u32>) -> u8
        ensures code { result ≡ ackc5 alid self.old.alarms }
        ensures after { self.new ≡ record self.old { alarms = alarms_enabled on alid self.old.alarms } }
    {
        self.alarms.enable(on, alid)
    }
}
