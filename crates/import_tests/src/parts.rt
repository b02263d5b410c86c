use ddt_entry::{Change, Entry, Home, Key, Pointer, SlotKind, write_change};
use disk_model::{Disk, MemDisk};
use page_tree::{PagePtr, write_chain};
use slot_table::SlotRecord;
use std::alloc::{AllocError, Global};
use std::process::Abort;
use std::test::Fail;
use table_state::{new_seal, write_slot};
use uber_ring::Seal;

/// The 72 bytes of a slot or of a change.
pub(crate) type Record = [u8; 72];

/// The pointer to no page.
pub(crate) const NULL: PagePtr = PagePtr::NULL;

/// A blank disk of the fewest sectors that a pool may have.
pub(crate) fn small_disk(alloc: Global) -> Result<MemDisk, AllocError> {
    MemDisk::new(alloc, 2048)
}

/// A key that differs from others in this byte.
pub(crate) fn key(byte: u8) -> Key {
    Key {
        digest: [byte; 32],
        len: 5,
    }
}

/// An entry at this place with this count.
pub(crate) fn entry(byte: u8, place: u64, count: u64) -> Entry {
    Entry {
        key: key(byte),
        home: Home {
            place,
            birth: 1,
            since: 9,
            count,
        },
    }
}

/// The slot of lane 2 that has this number, and a flagged pointer to the block of a key at this place.
pub(crate) fn slot(number: u32, byte: u8, place: u64) -> SlotRecord {
    SlotRecord {
        lane: 2,
        slot: number,
        pointer: Pointer {
            kind: SlotKind::Flagged,
            key: key(byte),
            place,
            birth: 1,
        },
    }
}

/// The record of such a slot.
pub(crate) fn slot_record(number: u32, byte: u8, place: u64) -> Record {
    write_slot(&slot(number, byte, place))
}

/// The record of an entry.
pub(crate) fn entry_record(rt: &impl Abort, byte: u8, place: u64, count: u64) -> Record {
    spelled(rt, &Change::Entry(entry(byte, place, count)))
}

/// The record of a key that is gone.
pub(crate) fn gone_record(rt: &impl Abort, byte: u8) -> Record {
    spelled(rt, &Change::Gone(key(byte)))
}

/// The record of a change.
fn spelled(rt: &impl Abort, change: &Change) -> Record {
    let mut out = [0; 72];
    match change {
        Change::Entry(entry) => assert!(rt; entry.key.len == 5),
        Change::Gone(key) => assert!(rt; key.len == 5),
    }
    write_change(change, &mut out);
    out
}

/// Writes a chain of at most 56 records on one page.
pub(crate) fn put(
    rt: &impl Abort,
    disk: &mut MemDisk,
    records: &[Record],
    place: u64,
) -> Result<PagePtr, Fail> {
    assert!(rt; !records.is_empty());
    assert!(rt; records.len() <= 56);
    assert!(rt; place < disk.sectors());
    match write_chain(disk, records, &[place])? {
        Some(root) => Ok(root),
        None => Err("a chain with records has a root".into()),
    }
}

/// What a seal says of the homes, the sum of their counts, the pages, and the changes of its two logs.
#[derive(Clone, Copy)]
pub(crate) struct Sums {
    pub(crate) homes: u64,
    pub(crate) counts: u64,
    pub(crate) pages: u64,
    pub(crate) active: u64,
    pub(crate) flushing: u64,
}

/// The seal of group 1 over these chains, with these sums.
pub(crate) fn seal_of(pointers: [PagePtr; 6], sums: Sums) -> Seal {
    let mut seal = new_seal(1, 2048);
    seal.pointers = pointers;
    seal.homes = sums.homes;
    seal.counts = sums.counts;
    seal.pages = sums.pages;
    seal.active_changes = sums.active;
    seal.flushing_changes = sums.flushing;
    seal
}

/// The seal of a pool with one flagged pointer, whose parts are on pages 50 and 49.
pub(crate) fn of_one_pointer(rt: &impl Abort, disk: &mut MemDisk) -> Result<Seal, Fail> {
    let slots = put(rt, disk, &[slot_record(7, 1, 100)], 50)?;
    let unique = put(rt, disk, &[entry_record(rt, 1, 100, 1)], 49)?;
    let sums = Sums {
        homes: 1,
        counts: 1,
        pages: 2,
        active: 0,
        flushing: 0,
    };
    Ok(seal_of([slots, unique, NULL, NULL, NULL, NULL], sums))
}
