//! The values of variables (SEMI E5, S1F3 and S2F13).
ghost use Rattle.std.specs.Prelude.{◌≡◌, ◌∷◌, ◌≤◌, [], length, IfOk, Some, option_map, is_some, unwrap_or};
ghost use Rattle.item_model.specs.Data.{ascii, u1, u4};
ghost use Rattle.item_model.specs.View.{view};
ghost use Rattle.gem_ids.specs.Texts.{IsText};
ghost use Rattle.event_reports.specs.Limits.{most_alarms};
ghost use Rattle.civil_time.specs.Civil.{time_digits};
ghost use Rattle.gem_ids.specs.declared.numbers.LocId.TheVariants.{Chamber};
ghost use Rattle.event_reports.specs.Alarms.{set_alids};
ghost use Rattle.gem_model.specs.State.{clock_now};
ghost use Rattle.load_port.specs.Ports.{port_numbered};
ghost use Rattle.substrate.specs.Locations.{is_location};
ghost use Rattle.plant_values.specs.Named.{AreNamed, AreCarriersNamed, AreChambersNamed};
ghost use Rattle.load_port.specs.Tables.{transfer_number, access_number};
ghost use Rattle.gem_model.specs.Values.{substrate_text, place_value, port_value, variable_value, status_value, constant_value, value_of};

use crate::seen::Seen;
use crate::shown::{
    carrier_text, count, load_number, name, prints, short_count, state_number, unload_number,
};
use civil_time::time16;
use data_variables::item_of;
use event_reports::Values;
use gem_ids::{LocId, Text80};
use gem_rows::{StatusVariable, status_variable};
use item_model::{Bytes, Item, NoMemory, U16s, U32s};
use load_port::Port;
use std::alloc::{AllocError, Global};

/// What the variables of a plant show on an occasion: in a firing, whose object and row they tell, or outside one. The row
/// is 100 times its table plus its number.
#[derive(Clone, Copy)]
pub struct Showing<'s, 'a> {
    seen: &'s Seen<'a>,
    object: Text80,
    row: u16,
}

impl Values for Showing<'_, '_> {
    ghost use Rattle.gem_model.specs.Values.{value_of as value};

    ghost value_of = { λ s vid. value (record { object = s.object; row = s.row }) s.seen.now vid };

    fn value(&self, alloc: Global, vid: u32) -> Result<Option<Item>, NoMemory> {
        if let Some(value) = self.seen.status_value(alloc, vid)? {
            return Ok(Some(value));
        }
        match vid {
            100 => name(alloc, self.object),
            101 => Ok(Some(Item::U2(U16s::from_vec(vec![in alloc; self.row]?)))),
            _ => self.seen.constant_value(alloc, vid),
        }
    }
}

impl<'a> Seen<'a> {
    /// What the variables show in a firing of this row at this object, or outside one: with an empty name and 0.
    pub fn showing(&self, object: Text80, row: u16) -> Showing<'_, 'a>
        ensures seen { result.seen.now ≡ self.now }
        ensures object { result.object ≡ object }
        ensures row { result.row ≡ row }
    {
        Showing {
            seen: self,
            object,
            row,
        }
    }

    /// The alarms of a tool are few: what is known of them, for proofs.
    pub fn few_alarms(&self)
        ensures { length self.now.alarms ≤ most_alarms }
    {
        self.alarms.lines();
    }

    /// The names that variables show are texts: what is known of them, for proofs.
    pub fn shown_names(&self)
        ensures { AreNamed self.now }
    {
        self.named_ports();
        self.named_chambers();
        prints(&self.substrate_text(LocId::Arm));
        prints(&self.substrate_text(LocId::Aligner));
    }

    // The names of the carriers that belong to ports.
    fn named_ports(&self)
        ensures { AreCarriersNamed self.now }
    {
        for place in 0..self.floor.shop().port_count() {
            if let Some(port) = self.floor.shop().port(place) {
                prints(&carrier_text(&port));
            }
        }
    }

    // The names of the substrates in the chambers.
    fn named_chambers(&self)
        ensures { AreChambersNamed self.now }
    {
        for place in 0..self.config.chambers {
            prints(&self.substrate_text(LocId::Chamber(place + 1)));
        }
    }

    /// The text of the time that the host's clock shows: 16 digits, YYYYMMDDhhmmsscc.
    pub fn time_text(&self, alloc: Global) -> Result<Bytes, AllocError>
        ensures digits { IfOk result (λ text. text ≡ time_digits (clock_now self.now)) }
        ensures text { IfOk result IsText }
    {
        let digits = time16(self.clock_now());
        Ok(Bytes::from_vec(Vec::from_slice(alloc, &digits)?))
    }

    // The numbers of the set alarms, rising.
    fn set_alids(&self, alloc: Global) -> Result<Vec<u32>, AllocError>
        ensures { IfOk result (λ alids. alids.items ≡ set_alids self.now.alarms) }
    {
        let mut alids = Vec::new(alloc);
        for alarm in self.alarms.lines() {
            if alarm.is_set {
                alids.push(alarm.alid)?;
            }
        }
        Ok(alids)
    }

    // What the variable of the set alarms shows.
    fn set_alarms(&self, alloc: Global) -> Result<Option<Item>, AllocError>
        ensures { IfOk result (λ value. option_map view value ≡ Some (u4 (set_alids self.now.alarms))) }
    {
        let alids = self.set_alids(alloc)?;
        Ok(Some(Item::U4(U32s::from_vec(alids))))
    }

    // What the variable of the clock shows.
    fn clock_value(&self, alloc: Global) -> Result<Option<Item>, AllocError>
        ensures { IfOk result (λ value. option_map view value ≡ Some (ascii (time_digits (clock_now self.now)))) }
    {
        let text = self.time_text(alloc)?;
        Ok(Some(Item::Ascii(text)))
    }

    /// The port of a number, counted from 1. `None`: the tool lacks it.
    fn port_numbered(&self, number: u8) -> Option<Port>
        ensures { result ≡ port_numbered number self.now.floor.shop.ports }
    {
        if number == 0 {
            return None;
        }
        self.floor.shop().port((number - 1) as usize)
    }

    // The name of the substrate at a location; empty where none is there.
    fn substrate_text(&self, place: LocId) -> Text80
        ensures { result ≡ substrate_text self.now place }
    {
        match self.floor.at(place) {
            Some(substrate) => substrate.text(),
            None => Text80::empty(),
        }
    }

    // Whether the tool has the chamber of a number, counted from 1.
    fn has_chamber(&self, number: u8) -> bool
        ensures { result ≡ is_location self.now.config.ports self.now.config.chambers (Chamber number) }
    {
        1 <= number && number <= self.config.chambers
    }

    // Which substrate is in the chamber of a number. `None`: the tool lacks it.
    fn chamber_substrate(&self, alloc: Global, number: u8) -> Result<Option<Item>, AllocError>
        ensures { IfOk result (λ value. option_map view value ≡ place_value self.now (Chamber number)) }
    {
        if !self.has_chamber(number) {
            return Ok(None);
        }
        name(alloc, self.substrate_text(LocId::Chamber(number)))
    }

    // How many process jobs are kept, at most 64.
    fn process_job_count(&self) -> u16
        ensures { result ≡ length self.now.floor.jobs.process.kept }
    {
        self.floor.jobs().process().len() as u16
    }

    // How many control jobs are kept, at most 32.
    fn control_job_count(&self) -> u16
        ensures { result ≡ length self.now.floor.jobs.control.jobs }
    {
        self.floor.jobs().control().len() as u16
    }

    // The state of the transfer of the port of a number. `None`: the tool lacks it.
    fn port_transfer(&self, alloc: Global, number: u8) -> Result<Option<Item>, AllocError>
        ensures { IfOk result (λ value. option_map view value ≡ port_value self.now number (λ p. u1 (transfer_number p.states.transfer ∷ []))) }
    {
        match self.port_numbered(number) {
            Some(port) => state_number(alloc, port.states.transfer.number()),
            None => Ok(None),
        }
    }

    // The access mode of the port of a number. `None`: the tool lacks it.
    fn port_access(&self, alloc: Global, number: u8) -> Result<Option<Item>, AllocError>
        ensures { IfOk result (λ value. option_map view value ≡ port_value self.now number (λ p. u1 (access_number p.states.access ∷ []))) }
    {
        match self.port_numbered(number) {
            Some(port) => state_number(alloc, port.states.access.number()),
            None => Ok(None),
        }
    }

    // The name of the carrier of the port of a number. `None`: the tool lacks the port.
    fn port_carrier(&self, alloc: Global, number: u8) -> Result<Option<Item>, AllocError>
        ensures { IfOk result (λ value. option_map view value ≡ port_value self.now number (λ p. ascii (unwrap_or p.carrier []))) }
    {
        match self.port_numbered(number) {
            Some(port) => name(alloc, carrier_text(&port)),
            None => Ok(None),
        }
    }

    /// The value of a status variable. `None`: the tool lacks its port or its chamber.
    fn variable_value(
        &self,
        alloc: Global,
        variable: StatusVariable,
    ) -> Result<Option<Item>, AllocError>
        ensures { IfOk result (λ value. option_map view value ≡ variable_value self.now variable) }
    {
        match variable {
            StatusVariable::Clock => self.clock_value(alloc),
            StatusVariable::CommState => state_number(alloc, self.comm.number()),
            StatusVariable::ControlState => state_number(alloc, self.control.number()),
            StatusVariable::SpoolCountActual => count(
                alloc,
                self.line.notes().spooled_len() as u32,
            ),
            StatusVariable::SpoolCountTotal => count(alloc, self.line.notes().spooled_total()),
            StatusVariable::SpoolLoad => state_number(alloc, load_number(self.line.notes().load())),
            StatusVariable::SpoolUnload => state_number(
                alloc,
                unload_number(self.line.notes().unload()),
            ),
            StatusVariable::AlarmsSet => self.set_alarms(alloc),
            StatusVariable::PortTransfer(number) => self.port_transfer(alloc, number),
            StatusVariable::PortAccess(number) => self.port_access(alloc, number),
            StatusVariable::PortCarrier(number) => self.port_carrier(alloc, number),
            StatusVariable::ArmSubstrate => name(alloc, self.substrate_text(LocId::Arm)),
            StatusVariable::AlignerSubstrate => name(alloc, self.substrate_text(LocId::Aligner)),
            StatusVariable::ChamberSubstrate(number) => self.chamber_substrate(alloc, number),
            StatusVariable::ProcessJobCount => short_count(alloc, self.process_job_count()),
            StatusVariable::ControlJobCount => short_count(alloc, self.control_job_count()),
        }
    }

    /// Whether a status variable is built, and the tool has its port or its chamber.
    #[tactic(auto, using(crate::proofs::PortValues::some_shown))]
    fn has_variable(&self, variable: StatusVariable) -> bool
        ensures { result ≡ is_some (variable_value self.now variable) }
    {
        match variable {
            StatusVariable::PortTransfer(number)
            | StatusVariable::PortAccess(number)
            | StatusVariable::PortCarrier(number) => self.port_numbered(number).is_some(),
            StatusVariable::ChamberSubstrate(number) => self.has_chamber(number),
            _ => true,
        }
    }

    /// The value of the status variable of a number. `None`: the number is none of a status variable that is built.
    pub fn status_value(&self, alloc: Global, vid: u32) -> Result<Option<Item>, AllocError>
        ensures { IfOk result (λ value. option_map view value ≡ status_value self.now vid) }
    {
        match status_variable(vid) {
            Some(variable) => self.variable_value(alloc, variable),
            None => Ok(None),
        }
    }

    /// Whether a number is that of a status variable that is built.
    pub fn is_status(&self, vid: u32) -> bool
        ensures { result ≡ is_some (status_value self.now vid) }
    {
        match status_variable(vid) {
            Some(variable) => self.has_variable(variable),
            None => false,
        }
    }

    /// The value of an equipment constant. `None`: the number is none of a constant.
    pub fn constant_value(&self, alloc: Global, ecid: u32) -> Result<Option<Item>, AllocError>
        ensures { IfOk result (λ value. option_map view value ≡ constant_value self.now ecid) }
    {
        match self.constants.get(ecid) {
            Some(val) => Ok(Some(item_of(alloc, val)?)),
            None => Ok(None),
        }
    }
}
