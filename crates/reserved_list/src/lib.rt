//! One list type with reserved room, for every list of the repository.
//!
//! A call that must not run out of memory gets its room beforehand: `reserve` asks for it and may be
//! refused, `push` uses it and cannot be. A contract sees a list as its items and its spare room, the
//! number of pushes that can still be made without asking. "As before" never speaks of the room: a
//! `reserve` keeps the items, and a `push` lowers the room by one at the most.
//!
//! The list types of the crates above are aliases of this one, as `type PlaceList = ReservedList<u64>`,
//! so that what is proved here is proved of each.
#![tactic(auto)]

ghost use Rattle.std.specs.Prelude.{◌≡◌, ◌==◌, ◌+◌, ◌-◌, ◌<◌, ◌≤◌, [], ◌∷◌, ◌++◌, length, vec_len, vec_capacity, slice_get, if◌then◌else◌, is_some, IfNone, IfSome, IsOk, OnOk, OnErr};
ghost use Rattle.std.specs.Option.{option_copied};
ghost use Rattle.reserved_list.specs.Listed.{Listed};

use std::alloc::{AllocError, Global};
use std::marker::Model;

/// A list whose room can be reserved ahead of its use.
#[derive(Drop)]
pub struct ReservedList<T: Drop> {
    entries: Vec<T>,
}

impl<T: Drop> Model for ReservedList<T> {
    ghost use Rattle.std.specs.Prelude.{◌-◌, vec_len, vec_capacity};
    ghost use Rattle.reserved_list.specs.Listed.{Listed};

    ghost Value = { Listed T };

    ghost view = { λ list. record { items = list.entries.items; spare = vec_capacity list.entries - vec_len list.entries } };
}

impl<T: Drop> ReservedList<T> {
    /// The empty list. Takes no memory.
    pub fn new(alloc: Global) -> Self
        ensures items { result.items ≡ [] }
        ensures room { result.spare ≡ 0 }
    {
        ReservedList {
            entries: Vec::new(alloc),
        }
    }

    /// Makes room for `more` further items. The error is want of memory, and comes only where the
    /// room was missing.
    pub fn reserve(&mut self, more: u64) -> Result<(), AllocError>
        ensures items { self.new.items ≡ self.old.items }
        ensures room { OnOk result (more ≤ self.new.spare) }
        ensures keeps { self.old.spare ≤ self.new.spare }
        ensures enough { more ≤ self.old.spare → IsOk result }
        ensures refused { OnErr result (self.new.spare ≡ self.old.spare) }
    {
        self.entries.reserve(more as usize)
    }

    /// Appends an item in the room that is there. Takes no memory.
    pub fn push(&mut self, value: T)
        requires { 0 < self.old.spare }
        ensures items { self.new.items ≡ self.old.items ++ value ∷ [] }
        ensures room { self.old.spare ≡ self.new.spare + 1 }
    {
        self.entries.push_reserved(value);
    }

    /// Takes the last item off, or answers `None` for the empty list. The room of the item stays.
    pub fn pop(&mut self) -> Option<T>
        ensures last { IfSome result (λ value. self.old.items ≡ self.new.items ++ value ∷ []) }
        ensures empty { IfNone result ((self.old.items ≡ []) × (self.new.items ≡ [])) }
        ensures room { self.new.spare ≡ (if is_some result then self.old.spare + 1 else self.old.spare) }
    {
        self.entries.pop()
    }

    /// How many items there are.
    pub fn len(&self) -> u64
        ensures { result ≡ length self.now.items }
    {
        self.entries.len() as u64
    }

    /// Whether there is no item.
    pub fn is_empty(&self) -> bool
        ensures { result ≡ (length self.now.items == 0) }
    {
        self.entries.is_empty()
    }

    /// The item at an index, counted from 0, or `None` from the length on.
    pub fn get(&self, at: u64) -> Option<&T>
        ensures { option_copied result ≡ slice_get self.now.items at }
    {
        self.entries.get(at as usize)
    }

    /// All items in their order.
    pub fn as_slice(&self) -> &[T]
        ensures { result.now ≡ self.now.items }
    {
        self.entries.as_slice()
    }

    /// The list of a vector's items, with its room. Takes no memory.
    pub fn from_vec(entries: Vec<T>) -> Self
        ensures items { result.items ≡ entries.items }
        ensures room { result.spare ≡ vec_capacity entries - vec_len entries }
    {
        ReservedList { entries }
    }

    /// The items as a vector, with the room. Takes no memory.
    pub fn into_vec(self) -> Vec<T>
        ensures items { result.items ≡ self.items }
        ensures room { vec_capacity result - vec_len result ≡ self.spare }
    {
        self.entries
    }
}
