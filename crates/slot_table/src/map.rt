ghost use Rattle.std.specs.Prelude.{◌≡◌, [], length, Option, None, IfOk, OnOk, OnErr};
ghost use Rattle.slot_table.specs.Slots.{AreRisingSlots, pointer_at, set_slot, all_held, plain_in, plain_of};
ghost use Rattle.slot_table.specs.Maps.{moved};

use crate::slot::{SlotPlace, SlotRecord};
use ddt_entry::{Pointer, SlotKind};
use pool_model::SlotChange;
use std::alloc::{AllocError, Global};
use std::collections::BTreeMap;
use std::marker::Model;

/// A map from places to pointers, which a contract sees as the list of its slots, in rising order.
#[derive(Drop)]
pub struct SlotMap {
    pointers: BTreeMap<SlotPlace, Pointer>,
    /// How many of the pointers are outside the table.
    plain: u64,
}

impl Model for SlotMap {
    ghost use Rattle.std.specs.Prelude.{List};
    ghost use Rattle.slot_table.specs.declared.slot.SlotRecord.{SlotRecord};

    ghost Value = { List SlotRecord };

    ghost use Rattle.slot_table.specs.Slots.{slots_of};
    ghost use Rattle.slot_table.specs.Maps.{IsSlotMap};

    ghost view = { λ map. slots_of map.pointers.entries };

    ghost invariant = { λ map. IsSlotMap (slots_of map.pointers.entries) map.plain };
}

/// One, where a slot holds a pointer that is outside the table.
fn plain_of(pointer: Option<Pointer>) -> u64
    ensures { result ≡ plain_of pointer }
{
    match pointer {
        Some(pointer) if pointer.kind == SlotKind::Plain => 1,
        _ => 0,
    }
}

/// A number without one part and with another, modulo 2^64.
fn moved(number: u64, gone: u64, come: u64) -> u64
    ensures { result ≡ moved number gone come }
{
    number.wrapping_sub(gone).wrapping_add(come)
}

impl SlotMap {
    /// The map in which no slot holds a pointer. Takes no memory.
    pub fn new(alloc: Global) -> SlotMap
        ensures { result ≡ [] }
    {
        SlotMap {
            pointers: BTreeMap::new(alloc),
            plain: 0,
        }
    }

    /// The map of these slots, in rising order. The error is want of memory.
    pub fn of_slots(alloc: Global, slots: &[SlotRecord]) -> Result<SlotMap, AllocError>
        ensures { AreRisingSlots slots.now → IfOk result (λ map. map ≡ slots.now) }
    {
        let mut map = SlotMap::new(alloc);
        map.hold_all(slots)?;
        Ok(map)
    }

    /// These slots hold their pointers from now on, one after another. The error is want of memory.
    fn hold_all(&mut self, slots: &[SlotRecord]) -> Result<(), AllocError>
        ensures { OnOk result (self.new ≡ all_held self.old slots.now) }
    {
        'slots: for held in slots {
            let place = SlotPlace {
                lane: held.lane,
                slot: held.slot,
            };
            self.hold(place, held.pointer)?;
        }
        Ok(())
    }

    /// How many slots hold a pointer. Takes no memory.
    pub fn len(&self) -> u64
        ensures { result ≡ length self.now }
    {
        self.pointers.len() as u64
    }

    /// How many slots hold a pointer that is outside the table. Takes no memory.
    pub fn plain(&self) -> u64
        ensures { result ≡ plain_in self.now }
    {
        let _bound = self.pointers.len();
        self.plain
    }

    /// What the slot at a place holds. Takes no memory.
    pub fn get(&self, place: SlotPlace) -> Option<Pointer>
        ensures { result ≡ pointer_at place.lane place.slot self.now }
    {
        self.pointers.get(&place).copied()
    }

    /// The slot of a change holds its pointer from now on, or nothing. The error is want of memory; all slots are
    /// then as before.
    pub fn set(&mut self, change: &SlotChange) -> Result<(), AllocError>
        ensures set { OnOk result (self.new ≡ set_slot self.old change.now) }
        ensures refused { OnErr result (self.new ≡ self.old) }
    {
        let place = SlotPlace {
            lane: change.lane,
            slot: change.slot,
        };
        match change.pointer {
            Some(pointer) => self.hold(place, pointer),
            None => {
                self.empty(place);
                Ok(())
            }
        }
    }

    /// The slot at a place holds this pointer from now on. The error is want of memory; all slots are then as
    /// before.
    fn hold(&mut self, place: SlotPlace, pointer: Pointer) -> Result<(), AllocError>
        ensures held { OnOk result
            (self.new ≡ set_slot self.old (record { lane = place.lane; slot = place.slot; pointer = Some pointer })) }
        ensures refused { OnErr result (self.new ≡ self.old) }
    {
        let gone = self.pointers.insert(place, pointer)?;
        self.plain = moved(self.plain, plain_of(gone), plain_of(Some(pointer)));
        Ok(())
    }

    /// The slot at a place holds nothing from now on.
    fn empty(&mut self, place: SlotPlace)
        ensures { self.new ≡ set_slot self.old (record { lane = place.lane; slot = place.slot; pointer = None }) }
    {
        let gone = self.pointers.remove(&place);
        self.plain = moved(self.plain, plain_of(gone), 0);
    }

    /// The list of the slots, in rising order. The error is want of memory.
    pub fn slots(&self, alloc: Global) -> Result<Vec<SlotRecord>, AllocError>
        ensures { IfOk result (λ list. list.items ≡ self.now) }
    {
        let mut list = Vec::new(alloc);
        list.reserve(self.pointers.len())?;
        'pointers: for (place, pointer) in &self.pointers {
            list.push(SlotRecord {
                lane: place.lane,
                slot: place.slot,
                pointer: *pointer,
            })?;
        }
        Ok(list)
    }
}
