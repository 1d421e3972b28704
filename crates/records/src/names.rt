//! Records that are found by their names.

ghost use Rattle.std.specs.Prelude.{◌≡◌, ◌++◌, [], ◌∷◌, ℕ, List, true, false, length, slice_get, option_copied, position, remove, IfOk, IfErr};
ghost use Rattle.gem_tables.specs.Table.{update_at};
ghost use Rattle.records.specs.Names.{has_name, record_named, is_named, are_named_apart};

use crate::change::Change;
use crate::key::Key;
use gem_ids::Text80;
use indexmap::IndexMap;
use std::alloc::{AllocError, Global};
use std::marker::Model;

/// A record that has a name. Contracts see the name as the list of its bytes.
pub trait Named: Drop {
    ghost name: { Self → List ℕ };

    /// The name as a text.
    fn text(&self) -> Text80
        ensures { result ≡ name self.now };

    /// The bytes of the name.
    fn name_bytes(&self) -> &[u8]
        ensures { result.now ≡ name self.now };
}

/// Records of which each has its own name, found by it without going through the others. Contracts see the list of them in the order
/// in which they came. Only `new` and `push` take memory.
#[derive(Drop)]
pub struct Names<R: Named> {
    by_name: IndexMap<Key, R>,
}

impl<R: Named> Model for Names<R> {
    ghost use Rattle.std.specs.Prelude.{List};

    ghost Value = { List R };

    ghost use Rattle.records.specs.Kept.{records_of, AreKept};

    ghost view = { λ n. records_of n.by_name.entries };

    ghost invariant = { λ n. AreKept R.name n.by_name.entries };
}

impl<R: Named> Names<R> {
    /// No record. Takes room for so many. `AllocError` where there is none.
    pub fn new(alloc: Global, room: usize) -> Result<Names<R>, AllocError>
        ensures { IfOk result (λ names. names ≡ []) }
    {
        let by_name = IndexMap::with_capacity(alloc, room)?;
        Ok(Names { by_name })
    }

    // ---- what they say

    /// How many records there are.
    pub fn len(&self) -> usize
        ensures { result ≡ length self.now }
    {
        self.by_name.len()
    }

    /// All of them.
    pub fn as_slice(&self) -> &[R]
        ensures { result.now ≡ self.now }
    {
        self.by_name.values().as_slice()
    }

    /// The record at a place, counted from 0. `None` exactly where there is none.
    pub fn get(&self, place: usize) -> Option<&R>
        ensures { option_copied result ≡ slice_get self.now place }
    {
        match self.by_name.get_index(place) {
            Some((_, one)) => Some(one),
            None => None,
        }
    }

    /// The record of a name. `None` exactly where none has it.
    pub fn named(&self, name: Text80) -> Option<&R>
        ensures value { option_copied result ≡ record_named R.name name self.now }
        ensures apart { are_named_apart R.name self.now ≡ true }
    {
        self.by_name.get(&Key { name })
    }

    /// The place of the record of a name, counted from 0. `None` exactly where none has it.
    pub fn place_named(&self, name: Text80) -> Option<usize>
        ensures value { result ≡ position (has_name R.name name) self.now }
        ensures apart { are_named_apart R.name self.now ≡ true }
    {
        self.by_name.get_index_of(&Key { name })
    }

    // ---- what happens to them

    /// A record of a name that isn't there comes behind the others. `AllocError` for want of memory, and then nothing has changed.
    pub fn push(&mut self, one: R) -> Result<(), AllocError>
        requires { is_named R.name (R.name one) self.old ≡ false }
        ensures added { IfOk result (λ _. self.new ≡ self.old ++ one ∷ []) }
        ensures unchanged { IfErr result (λ _. self.new ≡ self.old) }
    {
        let key = Key { name: one.text() };
        match self.by_name.insert(key, one) {
            Ok(_) => Ok(()),
            Err(_) => Err(AllocError),
        }
    }

    /// The record at a place changes, but for its name. A place where there is none changes nothing.
    pub fn change_at<C: Change<R>>(&mut self, place: usize, change: &C)
        requires { (one : R) → R.name (C.does change.now one) ≡ R.name one }
        ensures { self.new ≡ update_at place (C.does change.now) self.old }
    {
        if place < self.by_name.len() {
            change.apply(&mut self.by_name[place]);
        }
    }

    /// The record at a place isn't there any more; the others keep their order. A place where there is none changes nothing.
    pub fn remove_at(&mut self, place: usize)
        ensures { self.new ≡ remove self.old place }
    {
        // the last one needs no other to be moved up
        if place < self.by_name.len() && place == self.by_name.len() - 1 {
            self.by_name.pop();
        } else {
            self.by_name.shift_remove_index(place);
        }
    }
}
