//! The carriers that the tool knows.

ghost use Rattle.std.specs.Prelude.{◌≡◌, ◌==◌, ◌≤◌, ◌<◌, ◌∷◌, ◌++◌, false, [], length, take, slice_get, option_map, option_copied, position, Some, None, Err, IsOk, IfOk, IfErr, IfSome};
ghost use Rattle.gem_tables.specs.Table.{update_at};
ghost use Rattle.load_port.specs.Caack.{caack_number};
ghost use Rattle.carrier.specs.Carriers.{has_name, carrier_named, carrier_numbered, is_known, place_of, change_named, change_numbered, without, with_created, fires_row, starts_row, came_to, directed_to, binds, told_map, read_map, marked_stopped, is_absent_at, absent_count, most_carriers, view_of, AreCarriers};
ghost use Rattle.carrier.specs.Creating.{create_fault};
ghost use Rattle.carrier.specs.Verdict.{is_carrier_name, view_numbered, bind_carrier_code, bind_code, cancel_bind_code, proceed_code, can_be_stopped, cancel_code, notify_code, cancel_notify_code, word_code, carrier_caack};
ghost use Rattle.carrier.specs.declared.fault.CarrierFault.{CarrierFault};
ghost use Rattle.carrier.specs.declared.fault.CarrierFault.TheVariants.{NoMemory};

use crate::action::{CarrierAction, CarrierWord};
use crate::carrier::{Carrier, CarrierView};
use crate::change::CarrierChange;
use crate::fault::CarrierFault;
use gem_ids::{CarrierId, PortNo, Text80};
use load_port::{Caack, PortView};
use records::Book;
use std::alloc::{AllocError, Global};
use std::marker::Model;

/// The most carriers that are known (this tool's profile, limits).
pub const MOST_CARRIERS: usize = 16;

/// The most of them that aren't present (this tool's profile, limits).
pub const MOST_ABSENT: usize = 12;

/// The carriers that the tool knows, which contracts see as the list of them in the order in which they were created. Each
/// name is that of one carrier, and there are at most 16. A carrier's place is counted from 0. Only `new` takes memory: it
/// takes room for all 16, which they keep.
#[derive(Drop)]
pub struct Carriers {
    book: Book<Carrier>,
}

impl Model for Carriers {
    ghost use Rattle.std.specs.Prelude.{List};
    ghost use Rattle.carrier.specs.declared.carrier.Carrier.{Carrier};

    ghost Value = { List Carrier };

    ghost use Rattle.carrier.specs.Kept.{AreKept};

    ghost view = { λ c. c.book.kept };

    ghost invariant = { λ c. AreKept c.book };
}

impl Carriers {
    /// No carrier is known. Takes room for 16. `AllocError` where there is none.
    pub fn new(alloc: Global) -> Result<Carriers, AllocError>
        ensures { IfOk result (λ carriers. carriers ≡ []) }
    {
        let book = Book::new(alloc, MOST_CARRIERS)?;
        Ok(Carriers { book })
    }

    // ---- what they say

    /// How many carriers are known, 0 to 16.
    pub fn len(&self) -> usize
        ensures len { result ≡ length self.now }
        ensures few { length self.now ≤ most_carriers }
    {
        self.book.len()
    }

    /// All of them.
    pub fn as_slice(&self) -> &[Carrier]
        ensures { result.now ≡ self.now }
    {
        self.book.as_slice()
    }

    /// The carrier at a place, counted from 0. `None` exactly where there is none.
    pub fn get(&self, place: usize) -> Option<&Carrier>
        ensures { option_copied result ≡ slice_get self.now place }
    {
        self.book.get(place)
    }

    /// The carrier of a name. `None` exactly where none of that name is known.
    pub fn named(&self, name: Text80) -> Option<&Carrier>
        ensures value { option_copied result ≡ carrier_named name self.now }
        ensures carriers { AreCarriers self.now }
    {
        self.book.named(name.as_bytes())
    }

    /// The carrier of a number of creation. `None` exactly where none of that number is known.
    pub fn numbered(&self, number: u64) -> Option<&Carrier>
        ensures value { option_copied result ≡ carrier_numbered number self.now }
        ensures carriers { AreCarriers self.now }
    {
        self.book.numbered(number)
    }

    /// The place of the carrier of a name, counted from 0. `None` exactly where none of that name is known.
    pub fn place_of(&self, name: Text80) -> Option<usize>
        ensures value { result ≡ place_of name self.now }
        ensures carriers { AreCarriers self.now }
    {
        self.book.place_named(name.as_bytes())
    }

    /// What is told of the carrier of a name. `None` exactly where none of that name is known.
    pub fn find(&self, id: CarrierId) -> Option<CarrierView>
        ensures { result ≡ option_map view_of (carrier_named id self.now) }
    {
        match self.named(id.text()) {
            Some(carrier) => Some(carrier.view()),
            None => None,
        }
    }

    /// Whether a carrier of this name is known.
    pub fn is_known(&self, name: Text80) -> bool
        ensures { result ≡ is_known name self.now }
    {
        self.book.is_named(name.as_bytes())
    }

    // ---- what is asked of them

    /// What the host is answered of an action on a carrier by the states before it, CAACK, by its number (SEMI E87, S3F18; this
    /// tool's profile, S3F17): that of `code`. Changes nothing and takes no memory.
    pub fn verdict(&self, ports: &[PortView], a: &CarrierAction, job_names_it: bool) -> u8
        ensures { result ≡ caack_number (carrier_caack self.now ports.now a.now job_names_it) }
    {
        self.code(ports, a, job_names_it).number()
    }

    /// What the host is answered of an action on a carrier by the states before it (SEMI E87, S3F18; this tool's profile,
    /// S3F17): that it is done where it can be, unknown for an unknown action, faulty for a faulty parameter, not now where it
    /// can't be done now, impossible where the states forbid it. An unknown action is told first, then a faulty attribute, a
    /// name that is none of a carrier, and a port that isn't there. It is handed what is told of the ports, in their order, and
    /// whether a process job names the carrier. Changes nothing and takes no memory.
    pub fn code(&self, ports: &[PortView], a: &CarrierAction, job_names_it: bool) -> Caack
        ensures { result ≡ carrier_caack self.now ports.now a.now job_names_it }
    {
        if matches!(a.word, CarrierWord::Unknown) {
            Caack::Unknown
        } else if a.bad_attr || !is_carrier_name(a.id) || ports.len() < a.port as usize {
            Caack::Faulty
        } else {
            self.word_code(ports, a, job_names_it)
        }
    }

    // What an action is answered whose parameters are well formed.
    fn word_code(&self, ports: &[PortView], a: &CarrierAction, job_names_it: bool) -> Caack
        ensures { result ≡ word_code self.now ports.now a.now job_names_it }
    {
        let known = self.named(a.id);
        match a.word {
            CarrierWord::Bind => self.bind_code(known, view_numbered(a.port, ports)),
            CarrierWord::CancelBind => cancel_bind_code(known, a.port),
            CarrierWord::Proceed => proceed_code(known),
            CarrierWord::Cancel => cancel_code(known, job_names_it),
            CarrierWord::Notify => self.notify_code(known),
            CarrierWord::CancelNotify => cancel_notify_code(known),
            CarrierWord::Unknown => Caack::Unknown,
        }
    }

    // What a Bind of this carrier, or of a new one, to this port is answered.
    fn bind_code(&self, known: Option<&Carrier>, port: Option<PortView>) -> Caack
        ensures { result ≡ bind_code (option_copied known.entry) self.now port }
    {
        match port {
            None => Caack::Faulty,
            Some(p) => {
                if !p.in_service {
                    Caack::NotNow
                } else if p.carrier.is_some() || p.present {
                    Caack::Impossible
                } else {
                    self.bind_carrier_code(known)
                }
            }
        }
    }

    // What a Bind to a port that can take a carrier is answered.
    fn bind_carrier_code(&self, known: Option<&Carrier>) -> Caack
        ensures { result ≡ bind_carrier_code (option_copied known.entry) self.now }
    {
        match known {
            None => self.room_code(),
            Some(carrier) => free_code(carrier),
        }
    }

    // What a CarrierNotification is answered.
    fn notify_code(&self, known: Option<&Carrier>) -> Caack
        ensures { result ≡ notify_code (option_copied known.entry) self.now }
    {
        match known {
            None => self.room_code(),
            Some(_) => Caack::Impossible,
        }
    }

    // What is answered that makes one more carrier known.
    fn room_code(&self) -> Caack
        ensures { result ≡ bind_carrier_code None self.now }
    {
        if self.absent_count() < MOST_ABSENT {
            Caack::Done
        } else {
            Caack::NotNow
        }
    }

    // How many carriers aren't present.
    fn absent_count(&self) -> usize
        ensures { result ≡ absent_count self.now }
    {
        let mut count = 0;
        for place in 0..self.len() {
            if self.is_absent_at(place) {
                count += 1;
            }
        }
        count
    }

    // Whether the carrier at a place isn't present.
    fn is_absent_at(&self, place: usize) -> bool
        ensures { result ≡ is_absent_at (slice_get self.now place) }
    {
        match self.get(place) {
            Some(carrier) => !carrier.present,
            None => false,
        }
    }

    // ---- what happens to them

    /// A carrier of this name is known from now on, behind the others, with its number of creation. That no other has the
    /// number is for the caller. `NameTaken` comes exactly where one of the name is known, and else `NoSpace(16)` exactly
    /// where 16 carriers are known; `NoMemory` never comes, since `new` took the room. A fault changes nothing.
    pub fn create(&mut self, number: u64, id: CarrierId) -> Result<(), CarrierFault>
        ensures created { IfOk result (λ _. self.new ≡ with_created number id self.old) }
        ensures unchanged { IfErr result (λ _. self.new ≡ self.old) }
        ensures refused { (fault : CarrierFault) → create_fault id self.old ≡ Some fault → result ≡ Err fault }
        ensures succeeds { create_fault id self.old ≡ None → IsOk result }
        ensures memory { create_fault id self.old ≡ None → IfErr result (λ fault. fault ≡ NoMemory) }
    {
        if self.is_known(id.text()) {
            return Err(CarrierFault::NameTaken);
        }
        if self.len() >= MOST_CARRIERS {
            return Err(CarrierFault::NoSpace(MOST_CARRIERS as u32));
        }
        self.add(Carrier::new(number, id));
        Ok(())
    }

    // A carrier of a name that isn't known comes behind the others, which are fewer than 16: there is room for it.
    fn add(&mut self, carrier: Carrier)
        requires unknown { is_known carrier.name self.old ≡ false }
        requires few { length self.old < most_carriers }
        ensures { self.new ≡ self.old ++ carrier ∷ [] }
    {
        self.book.push(carrier);
    }

    /// The carrier of a name isn't known any more; the others keep their order. Where none of the name is known, nothing
    /// changes.
    pub fn forget(&mut self, id: CarrierId)
        ensures { self.new ≡ without id self.old }
    {
        self.book.forget_named(id.as_bytes());
    }

    /// Fires a row of table 8, 9 or 10 at the carrier of a number of creation: true exactly where there is a carrier of that
    /// number at whose states the row starts. The carrier's state in the row's table is then the row's end, and all else
    /// stays; false changes nothing. What a row wants besides the states is for the caller.
    pub fn fire(&mut self, number: u64, table: u8, row: u8) -> bool
        ensures fires { result ≡ starts_row table row (carrier_numbered number self.old) }
        ensures after { self.new ≡ change_numbered number (fires_row table row) self.old }
    {
        let starts = self.starts(number, table, row);
        self.book
            .change_numbered(number, &CarrierChange::Row(table, row));
        starts
    }

    // Whether a row starts at the carrier of a number.
    fn starts(&self, number: u64, table: u8, row: u8) -> bool
        ensures { result ≡ starts_row table row (carrier_numbered number self.now) }
    {
        match self.numbered(number) {
            Some(carrier) => {
                let mut states = carrier.states;
                states.fire(table, row)
            }
            None => false,
        }
    }

    /// The map of the carrier of a name is this one: true exactly where one of the name is known; else nothing changes.
    pub fn map_read(&mut self, id: CarrierId, map: [u8; 25]) -> bool
        ensures known { result ≡ is_known id self.old }
        ensures after { self.new ≡ change_named id (read_map map) self.old }
    {
        self.book
            .change_named(id.as_bytes(), &CarrierChange::ReadMap(map))
    }

    /// The carrier of a name came to this port, with its map, and its id was read or not. It stays bound only where it was
    /// bound to this port. Where none of the name is known, nothing changes.
    pub fn come(&mut self, id: CarrierId, port: PortNo, is_read: bool, map: [u8; 25])
        ensures { self.new ≡ change_named id (came_to port.0 is_read map) self.old }
    {
        self.book
            .change_named(id.as_bytes(), &CarrierChange::Came(port, is_read, map));
    }

    /// This port is to be that of the carrier of a name, which isn't bound yet. Where none of the name is known, nothing
    /// changes.
    pub fn direct(&mut self, id: CarrierId, port: PortNo)
        ensures { self.new ≡ change_named id (directed_to port.0) self.old }
    {
        self.book
            .change_named(id.as_bytes(), &CarrierChange::Directed(port));
    }

    /// The carrier of a name is bound to its port. Where none of the name is known, nothing changes.
    pub fn bind(&mut self, id: CarrierId)
        ensures { self.new ≡ change_named id binds self.old }
    {
        self.book.change_named(id.as_bytes(), &CarrierChange::Bound);
    }

    /// The host gave this map for the carrier of a name. Where none of the name is known, nothing changes.
    pub fn tell_map(&mut self, id: CarrierId, map: [u8; 25])
        ensures { self.new ≡ change_named id (told_map map) self.old }
    {
        self.book
            .change_named(id.as_bytes(), &CarrierChange::ToldMap(map));
    }

    /// The carrier of a name is marked stopped from now on, until it is forgotten: a process job of it ended after a STOP or an
    /// ABORT (this tool's profile, tables 10 and 14). Where none of the name is known, nothing changes. Takes no memory.
    pub fn mark_stopped(&mut self, name: Text80)
        ensures { self.new ≡ marked_stopped name self.old }
    {
        self.book
            .change_named(name.as_bytes(), &CarrierChange::Stopped);
    }
}

// Whether a text is the name of a carrier.
fn is_carrier_name(name: Text80) -> bool
    ensures { result ≡ is_carrier_name name }
{
    1 <= name.len() && name.len() <= 64
}

// The port of a number, counted from 1.
fn view_numbered(number: u8, ports: &[PortView]) -> Option<PortView>
    ensures { result ≡ view_numbered number ports.now }
{
    if number == 0 {
        None
    } else {
        ports.get(number as usize - 1).copied()
    }
}

// What is answered that wants a carrier neither present nor bound.
fn free_code(carrier: &Carrier) -> Caack
    ensures { result ≡ cancel_notify_code (Some carrier.now) }
{
    if carrier.present || carrier.bound {
        Caack::Impossible
    } else {
        Caack::Done
    }
}

// What a CancelBind with this port is answered.
fn cancel_bind_code(known: Option<&Carrier>, port: u8) -> Caack
    ensures { result ≡ cancel_bind_code (option_copied known.entry) port }
{
    match known {
        None => Caack::Faulty,
        Some(carrier) => {
            if !carrier.bound || carrier.present {
                Caack::Impossible
            } else if port == 0 || carrier.is_at(PortNo(port)) {
                Caack::Done
            } else {
                Caack::Faulty
            }
        }
    }
}

// What a ProceedWithCarrier is answered.
fn proceed_code(known: Option<&Carrier>) -> Caack
    ensures { result ≡ proceed_code (option_copied known.entry) }
{
    match known {
        None => Caack::Faulty,
        Some(carrier) => {
            if carrier.states.id.is_waiting() {
                Caack::Done
            } else if carrier.states.map.is_waiting() {
                if carrier.is_usable() {
                    Caack::Done
                } else {
                    Caack::Faulty
                }
            } else {
                Caack::Impossible
            }
        }
    }
}

// What a CancelCarrier is answered.
fn cancel_code(known: Option<&Carrier>, job_names_it: bool) -> Caack
    ensures { result ≡ cancel_code (option_copied known.entry) job_names_it }
{
    match known {
        None => Caack::Faulty,
        Some(carrier) => {
            if carrier.states.id.is_waiting()
                || carrier.states.map.is_waiting()
                || can_be_stopped(carrier, job_names_it)
            {
                Caack::Done
            } else {
                Caack::Impossible
            }
        }
    }
}

// Whether the carrier can be stopped before it is accessed.
fn can_be_stopped(carrier: &Carrier, job_names_it: bool) -> bool
    ensures { result ≡ can_be_stopped carrier.now job_names_it }
{
    carrier.states.map.is_verified() && carrier.states.access.is_not_accessed() && !job_names_it
}

// What a CancelCarrierNotification is answered.
fn cancel_notify_code(known: Option<&Carrier>) -> Caack
    ensures { result ≡ cancel_notify_code (option_copied known.entry) }
{
    match known {
        None => Caack::Faulty,
        Some(carrier) => free_code(carrier),
    }
}
