//! The slots of all lanes, as a map from lane and slot to the pointer that a slot holds.
//!
//! A contract sees the slots that hold a pointer as one list, in rising order of lane and slot
//! (`specs/Slots.antt`); a slot that isn't among them is empty. `set` takes what a slot held out of the list,
//! and puts what it holds now at its place.
//!
//! A `SlotMap` is the ordered map alone, as a pool in memory keeps its slots: a look-up or a change takes a time of
//! the logarithm of their number, and a list takes their number. A `SlotTable` has one, and no slot that there can't
//! be; no sector is read yet. Its calls take the disk and a reader of its pages all the same, since the slots will be
//! an object on pages. `get` then never fails, and `set` and `slots` fail for want of memory alone.
//!
//! Laws of `proofs/`: what a slot holds once one was set (`SlotLaws.{pointer_at-set}`), that the slots go on
//! rising (`SlotLaws.slots_set`), and how many there are then (`SlotLaws.length-set_slot`).
#![tactic(auto)]

mod map;
mod slot;
mod table;

pub use map::SlotMap;
pub use slot::{SlotList, SlotPlace, SlotRecord};
pub use table::SlotTable;
