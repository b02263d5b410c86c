use crate::comparing::assert_same;
use crate::groups::{entry, group_of, slot};
use crate::silent_disk::{SilentDisk, small_disk};
use crate::sound_pool::{SoundPool, created};
use ddt_entry::{Entry, Pointer, SlotKind};
use pool_model::{Bucket, Closed, Stats};
use slot_table::SlotRecord;
use std::alloc::{AllocError, Global};
use std::process::Abort;
use std::test::Fail;

/// The statistics of a pool whose numbers are in their ranges.
fn counted(sound: &SoundPool) -> Stats {
    sound.pool.stats()
}

/// Keys, unique and duplicate ones; tracked, loose and plain pointers; bytes once, and once for each pointer.
fn numbers(stats: &Stats) -> [u64; 8] {
    [
        stats.keys,
        stats.unique,
        stats.duplicate,
        stats.refs,
        stats.loose,
        stats.plain,
        stats.allocated,
        stats.referenced,
    ]
}

/// The slot of this lane that holds a plain pointer to an entry's block.
fn plain_slot(lane: u32, slot: u32, held: &Entry) -> SlotRecord {
    SlotRecord {
        lane,
        slot,
        pointer: Pointer {
            kind: SlotKind::Plain,
            key: held.key,
            place: held.home.place,
            birth: held.home.birth,
        },
    }
}

/// A bucket's lowest count, and its keys and bytes.
fn sums(bucket: &Bucket) -> [u64; 4] {
    [bucket.low, bucket.keys, bucket.allocated, bucket.referenced]
}

/// The group of five slots: two pointers share a block of five bytes, and one has a block to itself. The key of the
/// fourth has no home, and the fifth is plain.
fn five_slots(alloc: Global) -> Result<Closed, AllocError> {
    let shared = entry(1, 1000, 2, 2);
    let own = entry(2, 1001, 2, 1);
    let slots = [
        slot(0, 0, &shared),
        slot(0, 9, &shared),
        slot(3, 7, &own),
        slot(5, 0, &entry(3, 1002, 2, 1)),
        plain_slot(15, 65_535, &entry(4, 1003, 2, 1)),
    ];
    group_of(alloc, slots.as_slice(), [shared, own].as_slice())
}

/// A disk with an empty pool, and that pool.
fn with_no_pointer(rt: &impl Abort, alloc: Global) -> Result<(SilentDisk, SoundPool), Fail> {
    let mut disk = small_disk(alloc)?;
    let sound = created(rt, alloc, &mut disk)?;
    Ok((disk, sound))
}

/// Sees that nothing is counted in a pool.
fn assert_counts_nothing(rt: &impl Abort, sound: &SoundPool) -> Result<(), Fail> {
    let stats = counted(sound);
    assert_same(rt, "the sums of an empty pool", numbers(&stats), [0; 8]);
    Ok(())
}

/// Sees what is counted in a pool behind the five slots.
fn assert_counts_five(rt: &impl Abort, sound: &SoundPool) -> Result<(), Fail> {
    let stats = counted(sound);
    let all = [2, 1, 1, 3, 1, 1, 10, 15];
    assert_same(rt, "the sums", numbers(&stats), all);
    let [first, second] = [stats.buckets[0], stats.buckets[1]];
    assert_same(rt, "the first bucket", sums(&first), [1, 1, 5, 5]);
    assert_same(rt, "the second bucket", sums(&second), [2, 1, 5, 10]);
    Ok(())
}

#[test]
fn a_synced_pool_is_counted_by_its_slots_and_its_table(rt: HostRuntime) -> Result<(), Fail> {
    let alloc = rt.alloc();
    let (mut disk, sound) = with_no_pointer(&rt, alloc)?;
    assert_counts_nothing(&rt, &sound)?;
    let closed = five_slots(alloc)?;
    let Ok(synced) = sound.synced(&rt, alloc, &mut disk, &closed) else {
        return Err("the group isn't synced".into());
    };
    assert_same(&rt, "the group", synced.pool.sealed, 2);
    assert_counts_five(&rt, &synced)
}
