ghost use Rattle.std.specs.Prelude.{◌≡◌, ◌<◌, ◌↔◌, [], ◌∷◌, ◌++◌, ◌+◌, ◌≤◌, length, take, drop, replicate, slice_get, slice_set, swap, IsTrue, MatchOption, MatchResult, option_copied};
ghost use Rattle.std.specs.Borrow.{Lends, sem};
ghost use Rattle.std.specs.Fn.{CalledAt};
ghost use Rattle.std.specs.List.Retain.{IsFiltered};
ghost use Rattle.lists.specs.contracts.list.List.{the_row};

use std::alloc::Global;
use std::marker::Model;

/// A list of items that keeps its allocator. Contracts see it as the list itself.
///
/// Only `push` allocates. A `Vec` becomes a list, and a list a `Vec`, without a copy.
#[derive(Drop)]
pub struct List<T> {
    pub(crate) items: Vec<T>,
}

impl<T> Model for List<T> {
    ghost use Rattle.std.specs.Prelude.{List as Items};

    ghost Value = { Items T };

    ghost view = { λ a. a.items.items };
}

impl<T> List<T> {
    /// The empty list.
    pub fn new(alloc: Global) -> List<T>
        ensures { result ≡ [] }
    {
        List {
            items: Vec::new(alloc),
        }
    }

    /// Makes a list of a `Vec`, without a copy.
    pub fn from_vec(items: Vec<T>) -> List<T>
        ensures { result ≡ items.items }
    {
        List { items }
    }

    /// Makes a `Vec` of the list, without a copy.
    pub fn into_vec(self) -> Vec<T>
        ensures { result.items ≡ self }
    {
        self.items
    }

    /// The number of items.
    pub fn len(&self) -> usize
        ensures { result ≡ length self.now }
    {
        self.items.len()
    }

    /// Whether there is no item.
    pub fn is_empty(&self) -> bool
        ensures { IsTrue result ↔ (self.now ≡ []) }
    {
        self.items.is_empty()
    }

    /// All items in order.
    pub fn as_slice(&self) -> &[T]
        ensures { result.now ≡ self.now }
    {
        self.items.as_slice()
    }

    /// The item at a place, counted from 0, or `None` exactly past the end.
    pub fn get(&self, place: usize) -> Option<&T>
        ensures { option_copied result ≡ slice_get self.now place }
    {
        self.items.as_slice().get(place)
    }

    /// Adds the item at the end. Where memory runs out it gives the item back and changes nothing.
    pub fn push(&mut self, item: T) -> Result<(), T>
        ensures pushed { MatchResult result (λ _. self.new ≡ self.old ++ item ∷ [])
            (λ back. (back ≡ item) × (self.new ≡ self.old)) }
    {
        match self.items.push(item) {
            Ok(()) => Ok(()),
            Err(refused) => Err(refused.value),
        }
    }

    /// Removes the last item and returns it, or `None` exactly where there is none.
    pub fn pop(&mut self) -> Option<T>
        ensures popped { MatchOption result ((self.old ≡ []) × (self.new ≡ []))
            (λ last. self.old ≡ self.new ++ last ∷ []) }
    {
        self.items.pop()
    }

    /// Replaces the item at a place, and returns the old one.
    pub fn set(&mut self, place: usize, item: T) -> T
        requires { place < length self.old }
        ensures old { slice_get self.old place ≡ Some result }
        ensures put { self.new ≡ slice_set self.old place item }
    {
        std::mem::replace(&mut self.items[place], item)
    }

    /// The item at a place, to be changed in place.
    pub fn item_mut(&mut self, place: usize) -> &mut T
        requires { place < length self.old }
        ensures* changes { sem 𝓛
            (Lends (the_row T.row) T.row self.entry result (slice_set self.old place)) }
        ensures item { slice_get self.old place ≡ Some result.now }
    {
        &mut self.items[place]
    }

    /// Exchanges the items at two places.
    pub fn swap(&mut self, a: usize, b: usize)
        requires a_in_range { a < length self.old }
        requires b_in_range { b < length self.old }
        ensures { self.new ≡ swap self.old a b }
    {
        self.items.as_mut_slice().swap(a, b)
    }
}

impl<T: Drop> List<T> {
    /// Keeps the items that pass the test, in their order, and drops the others. It allocates nothing.
    pub fn retain<F: FnMut(&T) -> bool>(&mut self, test: F)
        requires { F.IsAlwaysCallable test }
        ensures { IsFiltered (CalledAt F.FnMut) test self.old self.new }
    {
        self.items.retain(test)
    }
}
