//! The values of the equipment constants.

ghost use Rattle.std.specs.Prelude.{◌≡◌, ◌^◌, ◌<◌, true, length, IfOk};
ghost use Rattle.item_model.specs.Sendable.{IsSendable};
ghost use Rattle.item_model.specs.View.{view};
ghost use Rattle.data_variables.specs.Table.{is_allowed};
ghost use Rattle.data_variables.specs.Values.{AreConstants, value_of, number_in, truth_in};
ghost use Rattle.data_variables.specs.Setting.{pair_code, eac, with_value, with_said, set_all_after};
ghost use Rattle.data_variables.specs.Bodies.{namelist_of};

use crate::bodies::namelist_item;
use crate::constant::constant_of;
use crate::val::Val;
use gem_rows::ecids;
use indexmap::IndexMap;
use item_model::{Item, NoMemory};
use std::alloc::Global;
use std::marker::Model;

// The least ECID.
const FIRST: u32 = ecids::ESTABLISH_TIMEOUT;

/// The equipment constants with their values, which contracts see as pairs of ECID and value in the printed order. Each
/// value is of its constant's kind and in its range.
#[derive(Drop)]
pub struct Constants {
    values: IndexMap<u32, Val>,
}

impl Model for Constants {
    ghost use Rattle.std.specs.Prelude.{ℕ, List};
    ghost use Rattle.data_variables.specs.declared.val.Val.{Val};

    ghost Value = { List (ℕ × Val) };

    ghost view = { λ c. c.values.entries };

    ghost use Rattle.data_variables.specs.Values.{AreConstants};

    ghost invariant = { λ c. AreConstants c.values.entries };
}

impl Constants {
    /// The constants with their first values, which stand in the printed order and are each of its kind and in its range.
    /// No later call that changes a value takes memory. `NoMemory` where there is no room.
    pub fn new(alloc: Global, c: &[(u32, Val)]) -> Result<Constants, NoMemory>
        requires { AreConstants c.now }
        ensures { IfOk result (λ constants. constants ≡ c.now) }
    {
        let mut values = IndexMap::with_capacity(alloc, c.len())?;
        for &(ecid, value) in c {
            values.insert(ecid, value)?;
        }
        Ok(Constants { values })
    }

    /// The value of a constant (SEMI E5, ECV). `None` exactly where the ECID is unknown. Takes no memory.
    pub fn get(&self, ecid: u32) -> Option<Val>
        ensures value { result ≡ value_of ecid self.now }
        ensures constants { AreConstants self.now }
    {
        // The constants stand in the order of their ECIDs, so that each is found at its place.
        match self.values.get_index(ecid.saturating_sub(FIRST) as usize) {
            Some((key, value)) if *key == ecid => Some(*value),
            _ => self.search(ecid),
        }
    }

    // The value of a constant, by a search.
    fn search(&self, ecid: u32) -> Option<Val>
        ensures { result ≡ value_of ecid self.now }
    {
        self.values.get(&ecid).copied()
    }

    /// The number of a constant that is one, and 0 for any other ECID.
    pub fn number(&self, ecid: u32) -> u32
        ensures { result ≡ number_in ecid self.now }
    {
        match self.get(ecid) {
            Some(Val::Number(number)) => number,
            _ => 0,
        }
    }

    /// The truth value of a constant that is one, and false for any other ECID.
    pub fn truth(&self, ecid: u32) -> bool
        ensures { result ≡ truth_in ecid self.now }
    {
        match self.get(ecid) {
            Some(Val::Truth(truth)) => truth,
            _ => false,
        }
    }

    /// Sets constants (SEMI E5, S2F15), each by a pair of its ECID and the value that is said for it, which is `None`
    /// where that is of another kind. Gives EAC: for the first faulty pair 1 where its ECID is unknown, and 3 where its
    /// value is of another kind or out of range, and then nothing has changed; 0 where no pair is faulty. Of several
    /// pairs of one ECID the last counts. Takes no memory.
    pub fn set_all(&mut self, sets: &[(u32, Option<Val>)]) -> u8
        ensures code { result ≡ eac sets.now }
        ensures after { self.new ≡ set_all_after sets.now self.old }
    {
        let code = first_code(sets);
        if code == 0 {
            self.put_all(sets);
        }
        code
    }

    // Sets each constant of the pairs, of which none is faulty.
    fn put_all(&mut self, sets: &[(u32, Option<Val>)])
        requires { eac sets.now ≡ 0 }
        ensures { self.new ≡ with_said sets.now self.old }
    {
        for &(ecid, said) in sets {
            if let Some(value) = said {
                self.put(ecid, value);
            }
        }
    }

    // Sets one constant.
    fn put(&mut self, ecid: u32, value: Val)
        requires { is_allowed ecid value ≡ true }
        ensures { self.new ≡ with_value ecid value self.old }
    {
        if let Some(present) = self.values.get_mut(&ecid) {
            *present = value;
        }
    }

    /// The body of S2F30, equipment constant namelist (SEMI E5), for these ECIDs in their order, and for none of all
    /// constants in the printed order: of each its ECID, name, least value, most, default and units. The default is that
    /// of the table, whatever was set. Behind an unknown ECID stand five empty A. `NoMemory` where there is none.
    pub fn namelist(&self, alloc: Global, ids: &[u32]) -> Result<Item, NoMemory>
        ensures exact { IfOk result (λ item. view item ≡ namelist_of ids.now) }
        ensures sendable { length ids.now < 2 ^ 24 → IfOk result (λ item. IsSendable (view item)) }
    {
        namelist_item(alloc, ids)
    }
}

// The code of the first faulty pair, 0 where none is.
fn first_code(sets: &[(u32, Option<Val>)]) -> u8
    ensures { result ≡ eac sets.now }
{
    for &(ecid, said) in sets {
        let code = pair_code(ecid, said);
        if code != 0 {
            return code;
        }
    }
    0
}

// The code of one pair.
fn pair_code(ecid: u32, said: Option<Val>) -> u8
    ensures { result ≡ pair_code (ecid, said) }
{
    match constant_of(ecid) {
        None => 1,
        Some(constant) => match said {
            Some(value) if constant.takes(value) => 0,
            _ => 3,
        },
    }
}
