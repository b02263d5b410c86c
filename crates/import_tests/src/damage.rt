use crate::comparing::assert_same_at;
use crate::importing::fault_under;
use crate::parts::{
    NULL, Record, Sums, entry_record, of_one_pointer, put, seal_of, slot_record, small_disk,
};
use disk_model::MemDisk;
use page_tree::PagePtr;
use pool_model::SyncFault;
use std::alloc::Global;
use std::process::Abort;
use std::test::Fail;
use uber_ring::Seal;

/// A seal that lacks the form, or whose sums are one off, by its number.
pub(crate) fn spoiled(seal: &Seal, number: u32) -> Seal {
    let mut other = *seal;
    match number {
        0 => other.tag = 255,
        1 => other.sectors = 2047,
        2 => other.sectors = 2049,
        3 => other.quota_flag = 2,
        4 => other.modes[15] = 3,
        5 => other.checkpoint_flag = 1,
        6 => other.homes = 2,
        7 => other.homes = 0,
        8 => other.counts = 2,
        9 => other.pages = 3,
        10 => other.active_changes = 1,
        _ => other.flushing_changes = 1,
    }
    other
}

/// Sees that such a seal is damage, of which the body is in sector 3.
fn assert_spoiled(rt: &impl Abort, alloc: Global, number: u32) -> Result<(), Fail> {
    let mut disk = small_disk(alloc)?;
    let seal = of_one_pointer(rt, &mut disk)?;
    let told = fault_under(rt, alloc, &mut disk, &spoiled(&seal, number))?;
    let damage = Some(SyncFault::Damaged(3));
    assert_same_at(rt, "wrong in", number as u64, told, damage);
    Ok(())
}

#[test]
fn a_seal_that_is_wrong_is_damage(rt: HostRuntime) -> Result<(), Fail> {
    for number in 0..12 {
        assert_spoiled(&rt, rt.alloc(), number)?;
    }
    Ok(())
}

/// A slot of lane 2, with the key and the place of its pointer.
#[derive(Clone, Copy)]
struct Held {
    slot: u32,
    key: u8,
    place: u64,
}

/// A key's home, by its place and its count.
#[derive(Clone, Copy)]
struct Counted {
    key: u8,
    place: u64,
    count: u64,
}

/// Three slots, the one entry of each class, and the sum of the counts.
#[derive(Clone, Copy)]
struct Parts {
    slots: [Held; 3],
    unique: Counted,
    duplicate: Counted,
    counts: u64,
}

/// The slot that has the first key's block.
const FIRST: Held = Held {
    slot: 7,
    key: 1,
    place: 100,
};

/// The first of the two slots that share the second key's block.
const SECOND: Held = Held {
    slot: 8,
    key: 2,
    place: 101,
};

/// The second of them.
const THIRD: Held = Held {
    slot: 9,
    key: 2,
    place: 101,
};

/// The first key's home.
const ONCE: Counted = Counted {
    key: 1,
    place: 100,
    count: 1,
};

/// The second key's home.
const TWICE: Counted = Counted {
    key: 2,
    place: 101,
    count: 2,
};

/// These slots, with the homes that are right.
fn with_slots(slots: [Held; 3]) -> Parts {
    Parts {
        slots,
        unique: ONCE,
        duplicate: TWICE,
        counts: 3,
    }
}

/// These homes, with the slots that are right.
fn with_homes(unique: Counted, duplicate: Counted, counts: u64) -> Parts {
    Parts {
        slots: [FIRST, SECOND, THIRD],
        unique,
        duplicate,
        counts,
    }
}

/// The first key's home at this place.
fn once_at(place: u64) -> Counted {
    Counted { place, ..ONCE }
}

/// Parts of which the pointers and the homes of the first key lie at this place, and those of the second at this one.
fn at_places(first: u64, second: u64) -> Parts {
    Parts {
        slots: [
            Held {
                place: first,
                ..FIRST
            },
            Held {
                place: second,
                ..SECOND
            },
            Held {
                place: second,
                ..THIRD
            },
        ],
        unique: once_at(first),
        duplicate: Counted {
            place: second,
            ..TWICE
        },
        counts: 3,
    }
}

/// A key's home with this count, the key and the place being the first ones or the second ones.
fn with_count(home: Counted, count: u64) -> Counted {
    Counted { count, ..home }
}

/// Parts that break a rule, by their number.
fn wrong_parts(number: u64) -> Parts {
    match number {
        // Slots out of order, and one slot twice.
        1 => with_slots([SECOND, FIRST, THIRD]),
        2 => with_slots([FIRST, SECOND, SECOND]),
        // A home in the ring, one past the disk, and one on a page.
        3 => with_homes(once_at(31), TWICE, 3),
        4 => with_homes(once_at(2048), TWICE, 3),
        5 => at_places(50, 101),
        // A count that belongs in the other class, and a key in both.
        6 => with_homes(with_count(ONCE, 2), TWICE, 4),
        7 => with_homes(ONCE, with_count(TWICE, 1), 2),
        8 => with_homes(with_count(TWICE, 1), TWICE, 3),
        // More pointers counted than there are, and two keys with one block.
        9 => with_homes(ONCE, with_count(TWICE, 3), 4),
        _ => at_places(100, 100),
    }
}

/// The record of a slot.
fn record_of(held: Held) -> Record {
    slot_record(held.slot, held.key, held.place)
}

/// Writes the slots on page 50.
fn put_slots(rt: &impl Abort, disk: &mut MemDisk, slots: [Held; 3]) -> Result<PagePtr, Fail> {
    let [first, second, third] = slots;
    let records = [record_of(first), record_of(second), record_of(third)];
    put(rt, disk, &records, 50)
}

/// Writes a home on a page of its own.
fn put_home(
    rt: &impl Abort,
    disk: &mut MemDisk,
    home: Counted,
    page: u64,
) -> Result<PagePtr, Fail> {
    let record = entry_record(rt, home.key, home.place, home.count);
    put(rt, disk, &[record], page)
}

/// Writes all parts, and no logs, and gives the seal.
fn seal_over(rt: &impl Abort, disk: &mut MemDisk, parts: Parts) -> Result<Seal, Fail> {
    let slots = put_slots(rt, disk, parts.slots)?;
    let unique = put_home(rt, disk, parts.unique, 49)?;
    let duplicate = put_home(rt, disk, parts.duplicate, 48)?;
    let sums = Sums {
        homes: 2,
        counts: parts.counts,
        pages: 3,
        active: 0,
        flushing: 0,
    };
    Ok(seal_of([slots, unique, duplicate, NULL, NULL, NULL], sums))
}

/// Sees what the import of an image of these parts tells.
fn assert_tells(
    rt: &impl Abort,
    alloc: Global,
    number: u64,
    parts: Parts,
    wanted: Option<SyncFault>,
) -> Result<(), Fail> {
    let mut disk = small_disk(alloc)?;
    let seal = seal_over(rt, &mut disk, parts)?;
    let told = fault_under(rt, alloc, &mut disk, &seal)?;
    assert_same_at(rt, "parts", number, told, wanted);
    Ok(())
}

#[test]
fn parts_that_break_a_rule_are_damage(rt: HostRuntime) -> Result<(), Fail> {
    let right = with_slots([FIRST, SECOND, THIRD]);
    assert_tells(&rt, rt.alloc(), 0, right, None)?;
    let damage = Some(SyncFault::Damaged(3));
    for number in 1..11u64 {
        assert_tells(&rt, rt.alloc(), number, wrong_parts(number), damage)?;
    }
    Ok(())
}
