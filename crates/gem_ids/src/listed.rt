ghost use Rattle.std.specs.Prelude.{◌≡◌, ◌↔◌, [], ◌∷◌, ◌++◌, length, IsTrue, IfOk, IfErr};

use std::alloc::{AllocError, Global};
use std::marker::Model;

/// A list of elements, which contracts see as the list. It keeps the allocator of its constructor.
#[derive(Drop)]
pub struct Listed<T> {
    elements: Vec<T>,
}

impl<T> Model for Listed<T> {
    ghost use Rattle.std.specs.Prelude.{List};

    ghost Value = { List T };

    ghost view = { λ l. l.elements.items };
}

impl<T> Listed<T> {
    /// The list of no elements. Takes no memory.
    pub fn new(alloc: Global) -> Listed<T>
        ensures { result ≡ [] }
    {
        Listed {
            elements: Vec::new(alloc),
        }
    }

    /// No elements, as `new`: the name that reads well of notes and panels. Takes no memory.
    pub fn none(alloc: Global) -> Listed<T>
        ensures { result ≡ [] }
    {
        Listed::new(alloc)
    }

    /// The elements of a vector. Takes no memory.
    pub fn from_vec(elements: Vec<T>) -> Listed<T>
        ensures { result ≡ elements.items }
    {
        Listed { elements }
    }

    /// Gives the vector back. Takes no memory.
    pub fn into_vec(self) -> Vec<T>
        ensures { result.items ≡ self }
    {
        let Listed { elements } = self;
        elements
    }

    /// The elements as a slice.
    pub fn as_slice(&self) -> &[T]
        ensures { result.now ≡ self.now }
    {
        self.elements.as_slice()
    }

    /// How many elements the list has.
    pub fn len(&self) -> usize
        ensures { result ≡ length self.now }
    {
        self.elements.len()
    }

    /// Whether the list has no elements.
    pub fn is_empty(&self) -> bool
        ensures { IsTrue result ↔ (self.now ≡ []) }
    {
        self.elements.is_empty()
    }
}

impl<T: Drop> Listed<T> {
    /// Puts an element behind the others. On want of memory the list is as before.
    pub fn push(&mut self, element: T) -> Result<(), AllocError>
        ensures ok { IfOk result (λ _. self.new ≡ self.old ++ element ∷ []) }
        ensures err { IfErr result (λ _. self.new ≡ self.old) }
    {
        self.elements.push(element)?;
        Ok(())
    }
}

impl<T: Copy> Clone for Listed<T> {
    ghost is_clone = { λ x y. y ≡ x };

    fn clone(&self) -> Result<Listed<T>, AllocError> {
        let elements = Vec::from_slice(*self.elements.allocator(), self.elements.as_slice())?;
        Ok(Listed { elements })
    }
}

/// A list of ids, each a number of four bytes: of variables, reports, collection events, alarms or equipment constants
/// (SEMI E5, data items).
pub type Ids = Listed<u32>;
