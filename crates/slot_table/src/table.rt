ghost use Rattle.std.specs.Prelude.{◌≡◌, ◌<◌, ◌≤◌, [], true, length, Option, None, IfOk, OnOk, OnErr, IsOk, IfErr};
ghost use Rattle.std.specs.List.{AllByRecursion};
ghost use Rattle.page_tree.specs.declared.fault.PageFault.TheVariants.{Memory as OutOfMemory};
ghost use Rattle.slot_table.specs.Slots.{AreSlots, pointer_at, set_slot};

use crate::map::SlotMap;
use crate::slot::{SlotList, SlotPlace};
use ddt_entry::Pointer;
use disk_model::Disk;
use page_tree::{FindFault, PageFault, PagePtr, PageReader};
use pool_model::SlotChange;
use std::alloc::Global;
use std::marker::Model;

/// The slots of all lanes that hold a pointer, which a contract sees as a list in rising order.
#[derive(Drop)]
pub struct SlotTable {
    slots: SlotMap,
}

impl Model for SlotTable {
    ghost use Rattle.std.specs.Prelude.{List};
    ghost use Rattle.slot_table.specs.declared.slot.SlotRecord.{SlotRecord};

    ghost Value = { List SlotRecord };

    ghost use Rattle.slot_table.specs.Slots.{AreSlots};

    ghost view = { λ table. table.slots };

    ghost invariant = { λ table. AreSlots table.slots };
}

impl SlotTable {
    /// The slots of an object that has no page: none holds a pointer. Takes no memory.
    pub fn of_root(alloc: Global, root: Option<PagePtr>) -> SlotTable
        requires none { root ≡ None }
        ensures { result ≡ [] }
    {
        SlotTable {
            slots: SlotMap::new(alloc),
        }
    }

    /// The slots rise, and each is one that there can be. It does nothing.
    pub fn are_slots(&self)
        ensures { AreSlots self.now }
    {
        let _slots = &self.slots;
    }

    /// How many slots hold a pointer.
    pub fn len(&self) -> u64
        ensures { result ≡ length self.now }
    {
        self.slots.len()
    }

    /// What a slot holds. Takes no memory. Over lists in memory no sector is read, and there is no fault.
    pub fn get<D: Disk, P: PageReader<D>>(
        &self,
        disk: &D,
        reader: &mut P,
        lane: u32,
        slot: u32,
    ) -> Result<Option<Pointer>, FindFault>
        requires fits { P.fits reader.old disk.now }
        ensures found { IfOk result (λ pointer. pointer ≡ pointer_at lane slot self.now) }
        ensures told { IsOk result }
        ensures fits { P.fits reader.new disk.now }
        ensures count { P.faults reader.old ≤ P.faults reader.new }
    {
        Ok(self.slots.get(SlotPlace { lane, slot }))
    }

    /// A slot holds this pointer from now on, or nothing. The error is want of memory; all slots are then as
    /// before.
    pub fn set<D: Disk, P: PageReader<D>>(
        &mut self,
        disk: &D,
        reader: &mut P,
        lane: u32,
        slot: u32,
        pointer: Option<Pointer>,
    ) -> Result<(), PageFault>
        requires lane { lane < 16 }
        requires slot { slot < 65_536 }
        requires fits { P.fits reader.old disk.now }
        ensures set { OnOk result (self.new ≡ set_slot self.old (record { lane = lane; slot = slot; pointer = pointer })) }
        ensures refused { OnErr result (self.new ≡ self.old) }
        ensures fault { IfErr result (λ fault. fault ≡ OutOfMemory) }
        ensures fits { P.fits reader.new disk.now }
        ensures count { P.faults reader.old ≤ P.faults reader.new }
    {
        let change = SlotChange {
            lane,
            slot,
            pointer,
        };
        Ok(self.slots.set(&change)?)
    }

    /// All slots that hold a pointer, in rising order. The error is want of memory.
    pub fn slots<D: Disk, P: PageReader<D>>(
        &self,
        alloc: Global,
        disk: &D,
        reader: &mut P,
    ) -> Result<SlotList, PageFault>
        requires fits { P.fits reader.old disk.now }
        ensures slots { IfOk result (λ list. list.items ≡ self.now) }
        ensures fault { IfErr result (λ fault. fault ≡ OutOfMemory) }
        ensures fits { P.fits reader.new disk.now }
        ensures count { P.faults reader.old ≤ P.faults reader.new }
    {
        Ok(SlotList::from_vec(self.slots.slots(alloc)?))
    }
}
