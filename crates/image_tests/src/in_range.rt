//! Whether a group is in its ranges: the premise of a sync on the numbers of its group, as a test.

ghost use Rattle.std.specs.Prelude.{◌≡◌, ◌≤◌, ◌<◌, true, length, map, Some, None, is_some, IfOk};
ghost use Rattle.std.specs.List.{AllByRecursion};
ghost use Rattle.std.specs.Option.{option_copied};
ghost use Rattle.ddt_entry.specs.declared.entry.Home.{Home};
ghost use Rattle.ddt_entry.specs.declared.key.Key.{Key as AKey};
ghost use Rattle.pool_model.specs.Mirrors.{stored_of};
ghost use Rattle.pool_import.specs.Together.{follows, rises};
ghost use Rattle.pool_model.specs.Table.{IsTable, change_at, found, sync_table};
ghost use Rattle.slot_table.specs.Slots.{AreRisingSlots};
ghost use Rattle.table_state.specs.Flat.{IsWithin, IsChangeWithin};
ghost use Rattle.table_state.specs.Sealed.{ChangesSlotWithin};
ghost use Rattle.table_state.specs.SlotRecords.{is_slot};
ghost use Rattle.table_state.specs.Spelling.{FitsSlot};
ghost use Rattle.table_state.specs.Tables.{HasLength};
ghost use Rattle.table_state.specs.Closing.{closed_of, IsInRange};
ghost use Rattle.table_state.specs.Pools.{slots_after};
ghost use Rattle.table_state.specs.Sound.{IsSound};
ghost use Rattle.image_tests.specs.Counts.{LeavesAtMost, StaysAtMost, has_lower};

use ddt_entry::{Change, Entry, Key, MAX_BLOCK_BYTES, key_of};
use pool_model::{Closed, SlotChange, StoredBlock};
use slot_table::{SlotMap, SlotRecord};
use std::alloc::{AllocError, Global};
use table_state::{DedupTable, Pool, slot_fits};
use txg_sync::set_slots;

/// The first sector in which a block can lie.
const FIRST_PLACE: u64 = 32;

/// The moments that a home can be counted since are below this one.
const MOMENTS: u64 = 1 << 40;

/// How many pointers a home can have at the most.
const MOST_POINTERS: u64 = 1_048_576;

/// How many bytes a block has at the most.
const MOST_BYTES: u64 = 4096;

/// The highest number of a lane.
const LAST_LANE: u32 = 15;

/// The highest number of a slot.
const LAST_SLOT: u32 = 65_535;

/// Whether what a group leaves is in its ranges, for the next group of this pool. At the end of the numbers
/// of groups it isn't. The error is want of memory.
pub(crate) fn is_in_range(alloc: Global, pool: &Pool, closed: &Closed) -> Result<bool, AllocError>
    requires sound { IsSound pool.now }
    ensures { IfOk result (λ within. within ≡ true → IsInRange pool.now (closed_of closed.now)) }
{
    let sectors = pool.sectors;
    let Some(group) = pool.sealed.checked_add(1) else {
        return Ok(false);
    };
    if !counts_within(alloc, pool, closed)? {
        return Ok(false);
    }
    if !changes_within(closed.changes.as_slice(), sectors, group) {
        return Ok(false);
    }
    if !have_lengths(closed.changes.as_slice()) {
        return Ok(false);
    }
    if !slots_within(closed.slots.as_slice(), sectors, group) {
        return Ok(false);
    }
    Ok(blocks_within(closed.contents.as_slice(), sectors))
}

/// How many slots hold a pointer after a group. The error is want of memory.
fn slots_then(alloc: Global, slots: &SlotMap, changes: &[SlotChange]) -> Result<u64, AllocError>
    requires rising { AreRisingSlots slots.now }
    ensures { IfOk result (λ count. count ≡ length (slots_after changes.now slots.now)) }
{
    let listed = slots.slots(alloc)?;
    let mut after = SlotMap::of_slots(alloc, listed.as_slice())?;
    set_slots(&mut after, changes)?;
    Ok(after.len())
}

/// Whether no home that the table finds after a group counts more pointers than there are slots then. The
/// error is want of memory.
fn counts_within(alloc: Global, pool: &Pool, closed: &Closed) -> Result<bool, AllocError>
    requires slots { AreRisingSlots pool.now.slots }
    requires sorted { IsTable pool.now.table }
    ensures { IfOk result (λ within. within ≡ true → (key : AKey) (home : Home)
        → found (sync_table closed.now.changes.items pool.now.table) key ≡ Some home
        → home.count ≤ length (slots_after closed.now.slots.items pool.now.slots)) }
{
    let most = slots_then(alloc, &pool.slots, closed.slots.as_slice())?;
    let within = table_counts(alloc, &pool.table, closed.changes.as_slice(), most)?;
    Ok(within)
}

/// Whether each home of a table counts at most so many pointers after a group with these changes, which rise by key.
/// The error is want of memory.
fn table_counts(
    alloc: Global,
    table: &DedupTable,
    changes: &[Change],
    most: u64,
) -> Result<bool, AllocError>
    requires sorted { IsTable table.now.table }
    ensures { IfOk result (λ within. within ≡ true → (key : AKey) (home : Home)
        → found (sync_table changes.now table.now.table) key ≡ Some home → home.count ≤ most) }
{
    let homes = table.homes(alloc)?;
    if !are_rising(changes) {
        return Ok(false);
    }
    if !homes_count(homes.as_slice(), changes, most) {
        return Ok(false);
    }
    Ok(changes_count(changes, most))
}

/// Whether each change's key comes before the next one's.
fn are_rising(changes: &[Change]) -> bool
    ensures { result ≡ rises has_lower None changes.now }
{
    let mut last = None;
    'changes: for change in changes {
        if !comes_behind(&last, change) {
            return false;
        }
        last = Some(*change);
    }
    true
}

/// Whether a change's key comes behind that of the last one, where there is one.
fn comes_behind(last: &Option<Change>, change: &Change) -> bool
    ensures { result ≡ follows has_lower last.now change.now }
{
    match last {
        None => true,
        Some(last) => key_of(last).cmp(&key_of(change)).is_lt(),
    }
}

/// The change of a key.
fn change_of<'a>(changes: &'a [Change], key: &Key) -> Option<&'a Change>
    ensures { option_copied result ≡ change_at key.now changes.now }
{
    changes.iter().find(|change| key_of(change) == *key)
}

/// Whether a change names a key.
fn is_changed(changes: &[Change], key: &Key) -> bool
    ensures { result ≡ is_some (change_at key.now changes.now) }
{
    change_of(changes, key).is_some()
}

/// Whether a home counts at most so many pointers, where no change names it.
fn stays_within(home: &Entry, changes: &[Change], most: u64) -> bool
    ensures { result ≡ true → StaysAtMost most changes.now home.now }
{
    if home.home.count <= most {
        return true;
    }
    is_changed(changes, &home.key)
}

/// Whether each home that no change names counts at most so many pointers.
fn homes_count(homes: &[Entry], changes: &[Change], most: u64) -> bool
    ensures { result ≡ true → AllByRecursion (StaysAtMost most changes.now) homes.now }
{
    'homes: for entry in homes {
        if !stays_within(entry, changes, most) {
            return false;
        }
    }
    true
}

/// Whether each change leaves its key at most so many pointers.
fn changes_count(log: &[Change], most: u64) -> bool
    ensures { result ≡ true → AllByRecursion (LeavesAtMost most) log.now }
{
    'changes: for change in log {
        if !change_counts(change, most) {
            return false;
        }
    }
    true
}

/// Whether a change leaves its key at most so many pointers.
fn change_counts(change: &Change, most: u64) -> bool
    ensures { result ≡ true → LeavesAtMost most change.now }
{
    match change {
        Change::Entry(entry) => entry.home.count <= most,
        Change::Gone(_) => true,
    }
}

/// Whether the numbers of each change are in their ranges.
fn changes_within(log: &[Change], sectors: u64, group: u64) -> bool
    ensures { result ≡ true → AllByRecursion (IsChangeWithin sectors group) log.now }
{
    'changes: for change in log {
        if !is_change_within(change, sectors, group) {
            return false;
        }
    }
    true
}

/// Whether the numbers of a change are in their ranges. A key that is gone has none.
fn is_change_within(change: &Change, sectors: u64, group: u64) -> bool
    ensures { result ≡ true → IsChangeWithin sectors group change.now }
{
    match change {
        Change::Entry(entry) => is_within(entry, sectors, group),
        Change::Gone(_) => true,
    }
}

/// Whether the numbers of an entry are in their ranges.
fn is_within(entry: &Entry, sectors: u64, group: u64) -> bool
    ensures { result ≡ true → IsWithin sectors group entry.now }
{
    entry.home.place >= FIRST_PLACE
        && entry.home.place < sectors
        && entry.home.birth >= 1
        && entry.home.birth <= group
        && entry.home.since < MOMENTS
        && entry.home.count <= MOST_POINTERS
}

/// Whether the key of each change has a length that a key can have.
fn have_lengths(log: &[Change]) -> bool
    ensures { result ≡ true → AllByRecursion HasLength log.now }
{
    'changes: for change in log {
        if !has_length(change) {
            return false;
        }
    }
    true
}

/// Whether the key of a change has a length that a key can have.
fn has_length(change: &Change) -> bool
    ensures { result ≡ true → HasLength change.now }
{
    let key = key_of(change);
    key.len >= 1 && key.len <= MAX_BLOCK_BYTES
}

/// Whether each change of a slot is in its ranges.
fn slots_within(changes: &[SlotChange], sectors: u64, group: u64) -> bool
    ensures { result ≡ true → AllByRecursion (ChangesSlotWithin sectors group) changes.now }
{
    'slots: for change in changes {
        if !is_slot_within(change, sectors, group) {
            return false;
        }
    }
    true
}

/// Whether a change of a slot is in its ranges.
fn is_slot_within(change: &SlotChange, sectors: u64, group: u64) -> bool
    ensures { result ≡ true → ChangesSlotWithin sectors group change.now }
{
    if change.lane > LAST_LANE {
        return false;
    }
    if change.slot > LAST_SLOT {
        return false;
    }
    let Some(pointer) = change.pointer else {
        return true;
    };
    let held = SlotRecord {
        lane: change.lane,
        slot: change.slot,
        pointer,
    };
    slot_fits(held);
    is_slot(&held, sectors, group)
}

/// Whether the numbers of a slot are in their ranges.
fn is_slot(held: &SlotRecord, sectors: u64, group: u64) -> bool
    ensures { result ≡ is_slot sectors group held.now }
{
    held.lane <= LAST_LANE
        && held.slot <= LAST_SLOT
        && (held.pointer.key.len >= 1 && held.pointer.key.len <= MAX_BLOCK_BYTES)
        && held.pointer.place >= FIRST_PLACE
        && held.pointer.place < sectors
        && held.pointer.birth >= 1
        && held.pointer.birth <= group
}

/// Whether each block lies behind the ring, in the pool's sectors, and fits a sector.
fn blocks_within(blocks: &[StoredBlock], sectors: u64) -> bool
    ensures behind { result ≡ true → AllByRecursion (λ stored. 32 ≤ stored.place) (map stored_of blocks.now) }
    ensures on_disk { result ≡ true → AllByRecursion (λ stored. stored.place < sectors) (map stored_of blocks.now) }
    ensures lengths { result ≡ true → AllByRecursion (λ stored. length stored.bytes ≤ 4096) (map stored_of blocks.now) }
{
    each_within(blocks, sectors)
}

/// The same of the blocks as code has them.
fn each_within(blocks: &[StoredBlock], sectors: u64) -> bool
    ensures behind { result ≡ true → AllByRecursion (λ stored. 32 ≤ stored.place) blocks.now }
    ensures on_disk { result ≡ true → AllByRecursion (λ stored. stored.place < sectors) blocks.now }
    ensures lengths { result ≡ true → AllByRecursion (λ stored. length stored.block.items ≤ 4096) blocks.now }
{
    'each: for stored in blocks {
        if !is_block_within(stored, sectors) {
            return false;
        }
    }
    true
}

/// Whether a block lies behind the ring, in the pool's sectors, and fits a sector.
fn is_block_within(stored: &StoredBlock, sectors: u64) -> bool
    ensures { result ≡ true → (32 ≤ stored.now.place) × (stored.now.place < sectors) × (length stored.now.block.items ≤ 4096) }
{
    stored.place >= FIRST_PLACE && stored.place < sectors && stored.block.len() <= MOST_BYTES
}
