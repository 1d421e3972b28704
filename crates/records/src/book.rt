//! Records in the order in which they came, in room that is taken once, and more where it is wanted.

ghost use Rattle.std.specs.Prelude.{◌≡◌, ◌<◌, ◌++◌, [], ◌∷◌, true, not, length, map, position, slice_get, option_copied, IfOk, IfErr};
ghost use Rattle.std.specs.List.{filter};
ghost use Rattle.records.specs.Numbers.{has_number, record_numbered, is_numbered, change_numbered};
ghost use Rattle.records.specs.Names.{has_name, record_named, is_named, change_named, without_named, are_named_apart};

use crate::change::Change;
use crate::names::Named;
use crate::numbered::Numbered;
use crate::test::Test;
use std::alloc::{AllocError, Global};
use std::marker::Model;

/// Records in the order in which they came, which contracts see as the list of them with the number of those that there is room
/// for. Only `new` and `push_growing` take memory. Whose numbers and names may be the same is for the caller.
#[derive(Drop)]
pub struct Book<R: Drop> {
    list: Vec<R>,
    room: usize,
}

impl<R: Drop> Model for Book<R> {
    ghost use Rattle.std.specs.Prelude.{◌≤◌};
    ghost use Rattle.std.specs.Vec.{vec_capacity};
    ghost use Rattle.records.specs.Stock.{Stock};

    ghost Value = { Stock R };

    ghost view = { λ b. record { kept = b.list.items; room = b.room } };

    ghost invariant = { λ b. b.room ≤ vec_capacity b.list };
}

impl<R: Drop> Book<R> {
    /// No record, and room for so many. `AllocError` where there is no memory for it.
    pub fn new(alloc: Global, room: usize) -> Result<Book<R>, AllocError>
        ensures { IfOk result (λ book. book ≡ record { kept = []; room = room }) }
    {
        let list = Vec::with_capacity(alloc, room)?;
        Ok(Book { list, room })
    }

    // ---- what it says

    /// How many records there are.
    pub fn len(&self) -> usize
        ensures { result ≡ length self.now.kept }
    {
        self.list.len()
    }

    /// All of them.
    pub fn as_slice(&self) -> &[R]
        ensures { result.now ≡ self.now.kept }
    {
        self.list.as_slice()
    }

    /// The record at a place, counted from 0. `None` exactly where there is none.
    pub fn get(&self, place: usize) -> Option<&R>
        ensures { option_copied result ≡ slice_get self.now.kept place }
    {
        self.list.get(place)
    }

    // ---- what happens to it

    /// One more record comes behind the others, for which there is room.
    pub fn push(&mut self, one: R)
        requires { length self.old.kept < self.old.room }
        ensures { self.new ≡ record self.old { kept = self.old.kept ++ one ∷ [] } }
    {
        self.list.push_reserved(one);
    }

    /// One more record comes behind the others, and room is taken for it where there is none. `AllocError` for want of memory, and
    /// then nothing has changed.
    pub fn push_growing(&mut self, one: R) -> Result<(), AllocError>
        ensures added { IfOk result (λ _. self.new ≡ record self.old { kept = self.old.kept ++ one ∷ [] }) }
        ensures unchanged { IfErr result (λ _. self.new ≡ self.old) }
    {
        self.list.push(one)?;
        Ok(())
    }

    /// Each record changes.
    pub fn change_each<C: Change<R>>(&mut self, change: &C)
        ensures { self.new ≡ record self.old { kept = map (C.does change.now) self.old.kept } }
    {
        change_all(&mut self.list, change);
    }

    /// The records that pass a test aren't there any more; the others keep their order, and the room stays.
    pub fn forget_where<T: Test<R>>(&mut self, test: &T)
        ensures { self.new ≡ record self.old { kept = filter (λ r. not (T.passes test.now r)) self.old.kept } }
    {
        self.list.retain(|one| !test.passes(one));
    }
}

impl<R: Drop + Numbered> Book<R> {
    /// The first record of a number. `None` exactly where none has it.
    pub fn numbered(&self, number: u64) -> Option<&R>
        ensures { option_copied result ≡ record_numbered R.number number self.now.kept }
    {
        self.list
            .as_slice()
            .iter()
            .find(|one| one.number() == number)
    }

    // The place of the first record of a number, counted from 0.
    fn place_of(&self, number: u64) -> Option<usize>
        ensures { result ≡ position (has_number R.number number) self.now.kept }
    {
        self.list
            .as_slice()
            .iter()
            .position(|one| one.number() == number)
    }

    /// The first record of a number changes: true exactly where one has it; else nothing changes.
    pub fn change_numbered<C: Change<R>>(&mut self, number: u64, change: &C) -> bool
        ensures known { result ≡ is_numbered R.number number self.old.kept }
        ensures after { self.new ≡ record self.old { kept = change_numbered R.number number (C.does change.now) self.old.kept } }
    {
        match self.place_of(number) {
            Some(place) => {
                change.apply(&mut self.list[place]);
                true
            }
            None => false,
        }
    }

    /// The records of a number aren't there any more; the others keep their order, and the room stays.
    pub fn forget_numbered(&mut self, number: u64)
        ensures { self.new ≡ record self.old { kept = filter (λ r. not (has_number R.number number r)) self.old.kept } }
    {
        self.list.retain(|one| one.number() != number);
    }
}

impl<R: Drop + Named> Book<R> {
    /// The first record of a name. `None` exactly where none has it.
    pub fn named(&self, name: &[u8]) -> Option<&R>
        ensures { option_copied result ≡ record_named R.name name.now self.now.kept }
    {
        self.list
            .as_slice()
            .iter()
            .find(|one| one.name_bytes() == name)
    }

    /// Whether a record has this name.
    pub fn is_named(&self, name: &[u8]) -> bool
        ensures { result ≡ is_named R.name name.now self.now.kept }
    {
        self.list
            .as_slice()
            .iter()
            .any(|one| one.name_bytes() == name)
    }

    /// The place of the first record of a name, counted from 0. `None` exactly where none has it.
    pub fn place_named(&self, name: &[u8]) -> Option<usize>
        ensures { result ≡ position (has_name R.name name.now) self.now.kept }
    {
        self.list
            .as_slice()
            .iter()
            .position(|one| one.name_bytes() == name)
    }

    /// The record of a name changes, where each name is that of one: true exactly where one has it; else nothing changes.
    pub fn change_named<C: Change<R>>(&mut self, name: &[u8], change: &C) -> bool
        requires apart { are_named_apart R.name self.old.kept ≡ true }
        ensures known { result ≡ is_named R.name name.now self.old.kept }
        ensures after { self.new ≡ record self.old { kept = change_named R.name name.now (C.does change.now) self.old.kept } }
    {
        match self.place_named(name) {
            Some(place) => {
                change.apply(&mut self.list[place]);
                true
            }
            None => false,
        }
    }

    /// The records of a name aren't there any more; the others keep their order, and the room stays.
    pub fn forget_named(&mut self, name: &[u8])
        ensures { self.new ≡ record self.old { kept = without_named R.name name.now self.old.kept } }
    {
        self.list.retain(|one| one.name_bytes() != name);
    }
}

// Each of these changes.
fn change_all<R, C: Change<R>>(records: &mut [R], change: &C)
    ensures { records.new ≡ map (C.does change.now) records.old }
{
    for one in records {
        change.apply(one);
    }
}
