//! The rows of communication and control (tables 1 and 2), the end of a session, and the communication delay.
ghost use Rattle.std.specs.Prelude.{◌≡◌, ◌+◌, ◌<◌, OnOk};
ghost use Rattle.gem_tables.specs.Table.{firing};
ghost use Rattle.gem_model.specs.State.{without_session};
ghost use Rattle.gem_model.specs.Fire.{fire};
ghost use Rattle.gem_model.specs.Effects.{fire_comm, comm_effect, fire_control, control_effect};
ghost use Rattle.gem_model.specs.Wants.{delay_is_over};
ghost use Rattle.gem_model.specs.Due.{delay_has_come};
ghost use Rattle.gem_model.specs.Act.{session_ended};

use crate::noting::RowFiring;
use crate::plant::Plant;
use gem_ids::Moment;
use gem_rows::ecids;
use gem_states::Comm;
use gem_tables::Table;
use hsms_frame::Bytes;
use plant_parts::identity_text;
use std::alloc::{AllocError, Global};
use transactions::What;

impl Plant {
    /// What a row of communication does besides its state.
    fn comm_effect(&mut self, alloc: Global, row: u8) -> Result<(), AllocError>
        ensures { OnOk result (self.new ≡ comm_effect row self.old) }
    {
        match row {
            2 => self.close_all(),
            3 => {
                let text = identity_text(alloc, &self.config)?;
                self.ask(alloc, 1, 13, What::Establish, text)?;
            }
            6 => self.forget(What::Establish),
            _ => {}
        }
        Ok(())
    }

    /// The state and the effect of a row of communication.
    fn fire_comm(&mut self, alloc: Global, row: u8) -> Result<(), AllocError>
        ensures { OnOk result (self.new ≡ fire_comm row self.old) }
    {
        let until = if row == 5 {
            self.moment.0 + u64::from(self.constants.number(ecids::ESTABLISH_TIMEOUT))
        } else {
            0
        };
        self.comm.fire(row, until);
        self.comm_effect(alloc, row)
    }

    /// What a row of control does besides its state.
    fn control_effect(&mut self, alloc: Global, row: u8) -> Result<(), AllocError>
        ensures { OnOk result (self.new ≡ control_effect row self.old) }
    {
        match row {
            1 if self.can_ask() => {
                let text = Bytes::from_vec(Vec::new(alloc));
                self.ask(alloc, 1, 1, What::Attempt, text)?;
            }
            6 => self.forget(What::Attempt),
            _ => {}
        }
        Ok(())
    }

    /// The state and the effect of a row of control.
    fn fire_control(&mut self, alloc: Global, row: u8) -> Result<(), AllocError>
        ensures { OnOk result (self.new ≡ fire_control row self.old) }
    {
        self.control.fire(row);
        self.control_effect(alloc, row)
    }

    /// A row of communication fires, and makes its note. `AllocError`: memory ran out.
    #[inline(never)]
    pub fn comm_row(&mut self, alloc: Global, row: u8) -> Result<(), AllocError>
        ensures { OnOk result (self.new ≡ fire self.old (firing 1 0 row)) }
    {
        let online_before = self.is_online();
        self.fire_comm(alloc, row)?;
        self.note(
            alloc,
            RowFiring::unnamed(Table::Communication, row, online_before),
        )
    }

    /// A row of control fires, and makes its note. `AllocError`: memory ran out.
    #[inline(never)]
    pub fn control_row(&mut self, alloc: Global, row: u8) -> Result<(), AllocError>
        ensures { OnOk result (self.new ≡ fire self.old (firing 2 0 row)) }
    {
        let online_before = self.is_online();
        self.fire_control(alloc, row)?;
        self.note(
            alloc,
            RowFiring::unnamed(Table::Control, row, online_before),
        )
    }

    /// The session ends: the link is down, the frames that wait are gone, every transaction has failed, and the direct
    /// rows fire.
    pub fn end_session(&mut self, alloc: Global) -> Result<(), AllocError>
        ensures { OnOk result (self.new ≡ session_ended self.old) }
    {
        let rows = self.session_end_rows();
        self.drop_session();
        self.fire_listed(alloc, rows.as_slice())
    }

    /// The link is down, the frames that wait are gone, and every transaction has failed; no row has fired yet.
    fn drop_session(&mut self)
        ensures { self.new ≡ without_session self.old }
    {
        self.close_all();
        self.link.down();
        self.waiting.clear();
    }

    /// Whether communication is in WAIT DELAY, and the delay is over.
    pub fn delay_is_over(&self) -> bool
        ensures { result ≡ delay_is_over self.now.moment self.now.comm }
    {
        match self.comm {
            Comm::WaitDelay { until } => until <= self.moment.0,
            _ => false,
        }
    }

    /// Whether communication is in WAIT DELAY, and the delay has come to its end at this moment. An end past the last
    /// moment never comes.
    pub fn delay_has_come(&self, at: Moment) -> bool
        ensures { result ≡ delay_has_come at.0 self.now.comm }
    {
        match self.comm {
            Comm::WaitDelay { until } => until <= at.0 && until <= Moment::LAST.0,
            _ => false,
        }
    }
}
