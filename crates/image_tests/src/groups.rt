use crate::comparing::assert_same_at;
use crate::sound_pool::SoundPool;
use ddt_entry::{Change, Entry, Home, Key, Pointer, SlotKind};
use pool_model::{Block, ChangeList, Closed, Contents, Mode, SlotChange, SlotChanges, StoredBlock};
use slot_table::SlotRecord;
use std::alloc::{AllocError, Global};
use std::process::Abort;
use std::test::Fail;

/// A key that differs from others in this byte.
pub(crate) fn key(number: u8) -> Key {
    Key {
        digest: [number; 32],
        len: 5,
    }
}

/// An entry that a group of this number made, for a block at this place with so many pointers.
pub(crate) fn entry(number: u8, place: u64, birth: u64, count: u64) -> Entry {
    Entry {
        key: key(number),
        home: Home {
            place,
            birth,
            since: 9,
            count,
        },
    }
}

/// The slot of this lane that holds a flagged pointer to an entry's block.
pub(crate) fn slot(lane: u32, slot: u32, shared: &Entry) -> SlotRecord {
    SlotRecord {
        lane,
        slot,
        pointer: Pointer {
            kind: SlotKind::Flagged,
            key: shared.key,
            place: shared.home.place,
            birth: shared.home.birth,
        },
    }
}

/// A block of five bytes of this value.
fn block_of(alloc: Global, value: u8) -> Result<Block, AllocError> {
    let mut bytes = Vec::new(alloc);
    bytes.resize(5, value)?;
    Ok(Block::from_vec(bytes))
}

/// The group that writes these entries' blocks, and puts pointers to them into these slots.
pub(crate) fn group_of(
    alloc: Global,
    slots: &[SlotRecord],
    entries: &[Entry],
) -> Result<Closed, AllocError> {
    let mut changes = Vec::new(alloc);
    let mut contents = Vec::new(alloc);
    for entry in entries {
        changes.push(Change::Entry(*entry))?;
        contents.push(StoredBlock {
            place: entry.home.place,
            block: block_of(alloc, entry.key.digest[0])?,
        })?;
    }
    let mut changed = Vec::new(alloc);
    for held in slots {
        changed.push(SlotChange {
            lane: held.lane,
            slot: held.slot,
            pointer: Some(held.pointer),
        })?;
    }
    Ok(Closed {
        changes: ChangeList::from_vec(changes),
        slots: SlotChanges::from_vec(changed),
        contents: Contents::from_vec(contents),
        quota: None,
        modes: [Mode::On; 16],
    })
}

/// Sees that a pool has this group's number, these slots, and these homes, sorted by key.
pub(crate) fn assert_holds(
    rt: &impl Abort,
    alloc: Global,
    sound: &SoundPool,
    group: u64,
    slots: &[SlotRecord],
    entries: &[Entry],
) -> Result<(), Fail> {
    let pool = &sound.pool;
    assert_same_at(rt, "the number of group", group, pool.sealed, group);
    let held = pool.slots.slots(alloc)?;
    assert_same_at(rt, "the slots of group", group, held.as_slice(), slots);
    let found = pool.table.homes(alloc)?;
    assert_same_at(rt, "the homes of group", group, found.as_slice(), entries);
    let counted = entries.iter().filter(|entry| entry.home.count > 0).count();
    assert_same_at(rt, "the keys of group", group, pool.keys, counted as u64);
    Ok(())
}
