//! Slots that are set, looked up and listed.

use crate::comparing::{assert_same, assert_same_at};
use crate::parts::{Reader, key, reader_of};
use ddt_entry::{Pointer, SlotKind};
use disk_model::MemDisk;
use page_tree::PageFault;
use slot_table::{SlotRecord, SlotTable};
use std::alloc::Global;
use std::process::Abort;
use std::test::Fail;

/// Which slot of which lane is set, and the place of the pointer that it holds then, or nothing.
const STEPS: [(u32, u32, Option<u64>); 7] = [
    (3, 65_535, Some(70)),
    (0, 2, Some(71)),
    (3, 7, Some(72)),
    (0, 2, None),
    (15, 0, Some(73)),
    (3, 7, Some(74)),
    (1, 1, None),
];

/// What slots hold after these steps.
const HELD: [(u32, u32, Option<u64>); 7] = [
    (0, 2, None),
    (1, 1, None),
    (3, 6, None),
    (3, 7, Some(74)),
    (3, 65_535, Some(70)),
    (4, 7, None),
    (15, 0, Some(73)),
];

/// A pointer to this place.
fn pointer(place: u64) -> Pointer {
    Pointer {
        kind: SlotKind::Flagged,
        key: key(5),
        place,
        birth: 3,
    }
}

/// A pointer to a place, where there is one.
fn pointer_at(place: Option<u64>) -> Option<Pointer> {
    match place {
        None => None,
        Some(place) => Some(pointer(place)),
    }
}

/// A slot that holds a pointer to this place.
fn record(lane: u32, slot: u32, place: u64) -> SlotRecord {
    SlotRecord {
        lane,
        slot,
        pointer: pointer(place),
    }
}

/// Sets a slot that there can be.
fn set_slot(
    rt: &impl Abort,
    table: &mut SlotTable,
    disk: &MemDisk,
    reader: &mut Reader,
    step: (u32, u32, Option<u64>),
) -> Result<(), PageFault> {
    let (lane, slot, place) = step;
    assert!(rt; lane < 16);
    assert!(rt; slot < 65_536);
    table.set(disk, reader, lane, slot, pointer_at(place))
}

/// Sets the slots by the steps.
fn set_all(
    rt: &impl Abort,
    table: &mut SlotTable,
    disk: &MemDisk,
    reader: &mut Reader,
) -> Result<(), PageFault> {
    for step in STEPS {
        set_slot(rt, table, disk, reader, step)?;
    }
    Ok(())
}

/// Sees what each slot holds.
fn assert_held(rt: &impl Abort, table: &SlotTable, disk: &MemDisk, reader: &mut Reader) {
    for (lane, slot, place) in HELD {
        let found = table.get(disk, reader, lane, slot);
        assert_same_at(
            rt,
            "what is held in slot",
            slot as u64,
            found,
            Ok(pointer_at(place)),
        );
    }
}

/// Sees which slots are listed.
fn assert_listed(
    rt: &impl Abort,
    alloc: Global,
    table: &SlotTable,
    disk: &MemDisk,
    reader: &mut Reader,
) -> Result<(), PageFault> {
    table.are_slots();
    let listed = table.slots(alloc, disk, reader)?;
    let wanted = [record(3, 7, 74), record(3, 65_535, 70), record(15, 0, 73)];
    assert_same(rt, "the slots", listed.as_slice(), wanted.as_slice());
    Ok(())
}

#[test]
fn a_slot_holds_what_was_set_last(rt: HostRuntime) -> Result<(), Fail> {
    let mut disk = MemDisk::new(rt.alloc(), 8)?;
    let mut reader = reader_of(&mut disk)?;
    let mut table = SlotTable::of_root(rt.alloc(), None);
    set_all(&rt, &mut table, &disk, &mut reader)?;
    assert_held(&rt, &table, &disk, &mut reader);
    assert_same(&rt, "how many hold a pointer", table.len(), 3);
    assert_listed(&rt, rt.alloc(), &table, &disk, &mut reader)?;
    Ok(())
}
