ghost use Rattle.std.specs.Prelude.{◌≡◌, ◌<◌, ◌==◌, None, length, nat_lt};
ghost use Rattle.std.specs.List.{list_all};
ghost use Rattle.std.specs.Bool.{Decides};
ghost use Rattle.pool_model.specs.Table.{AreRising};
ghost use Rattle.slot_table.specs.Slots.{stands_before};
ghost use Rattle.table_state.specs.Flat.{HoldTogether};
ghost use Rattle.pool_import.specs.Together.{is_within, is_change_within, follows, rises, has_lower_key, is_elsewhere, are_within, are_sorted, are_classes, are_counted, hold_together};

use crate::flat::FlatImage;
use crate::judge_keys::home_at;
use ddt_entry::{Change, Entry};
use slot_table::SlotRecord;
use uber_ring::Seal;

/// The first sector in which a block can lie.
const FIRST_PLACE: u64 = 32;

/// The moments that a home can be counted since are below this one.
const MOMENTS: u64 = 1 << 40;

/// How many pointers a home can have at the most.
const MOST_POINTERS: u64 = 1_048_576;

/// Whether the parts of an image keep the rules that they keep together. Takes no memory.
pub fn hold_together(seal: &Seal, flat: &FlatImage) -> bool
    ensures { Decides result (HoldTogether seal.now flat.now) }
{
    keep_rules(seal, flat)
}

/// Whether all tests of the rules are met. The classes are compared only once they are known to be sorted.
fn keep_rules(seal: &Seal, flat: &FlatImage) -> bool
    ensures { result ≡ hold_together seal.now flat.now }
{
    if !are_within(seal, flat) {
        return false;
    }
    if !are_sorted(flat) {
        return false;
    }
    are_classes(flat) && are_counted(seal, flat)
}

/// Whether all numbers are in their ranges, in a pool of these sectors under a seal of this group.
fn are_within(seal: &Seal, flat: &FlatImage) -> bool
    ensures { result ≡ are_within seal.now flat.now }
{
    let sectors = seal.sectors;
    let group = seal.group;
    pages_within(flat.named.as_slice(), sectors)
        && entries_within(flat.unique.as_slice(), sectors, group)
        && entries_within(flat.duplicate.as_slice(), sectors, group)
        && changes_within(flat.active.as_slice(), sectors, group)
        && changes_within(flat.flushing.as_slice(), sectors, group)
}

/// Whether these sectors are a pool's.
fn pages_within(named: &[u64], sectors: u64) -> bool
    ensures { result ≡ list_all (λ sector. nat_lt sector sectors) named.now }
{
    named.iter().all(|sector| *sector < sectors)
}

/// Whether the numbers of each entry are in their ranges.
fn entries_within(entries: &[Entry], sectors: u64, group: u64) -> bool
    ensures { result ≡ list_all (is_within sectors group) entries.now }
{
    entries.iter().all(|entry| is_within(entry, sectors, group))
}

/// Whether the numbers of each change are in their ranges.
fn changes_within(log: &[Change], sectors: u64, group: u64) -> bool
    ensures { result ≡ list_all (is_change_within sectors group) log.now }
{
    log.iter()
        .all(|change| is_change_within(change, sectors, group))
}

/// Whether the numbers of an entry are in their ranges.
fn is_within(entry: &Entry, sectors: u64, group: u64) -> bool
    ensures { result ≡ is_within sectors group entry.now }
{
    entry.home.place >= FIRST_PLACE
        && entry.home.place < sectors
        && entry.home.birth >= 1
        && entry.home.birth <= group
        && entry.home.since < MOMENTS
        && entry.home.count <= MOST_POINTERS
}

/// Whether the numbers of a change are in their ranges. A key that is gone has none.
fn is_change_within(change: &Change, sectors: u64, group: u64) -> bool
    ensures { result ≡ is_change_within sectors group change.now }
{
    match change {
        Change::Entry(entry) => is_within(entry, sectors, group),
        Change::Gone(_) => true,
    }
}

/// Whether the slots and both classes of the stored table are sorted, each item once.
fn are_sorted(flat: &FlatImage) -> bool
    ensures { result ≡ are_sorted flat.now }
{
    slots_rise(flat.slots.as_slice())
        && keys_rise(flat.unique.as_slice())
        && keys_rise(flat.duplicate.as_slice())
}

/// Whether each slot stands before the next one.
fn slots_rise(slots: &[SlotRecord]) -> bool
    ensures { result ≡ rises stands_before None slots.now }
{
    let mut last = None;
    'slots: for slot in slots {
        if !slot_follows(&last, slot) {
            return false;
        }
        last = Some(*slot);
    }
    true
}

/// Whether each key comes before the next one.
fn keys_rise(entries: &[Entry]) -> bool
    ensures { result ≡ rises has_lower_key None entries.now }
{
    let mut last = None;
    'entries: for entry in entries {
        if !entry_follows(&last, entry) {
            return false;
        }
        last = Some(*entry);
    }
    true
}

/// Whether a slot stands behind the last one, where there is one.
fn slot_follows(last: &Option<SlotRecord>, slot: &SlotRecord) -> bool
    ensures { result ≡ follows stands_before last.now slot.now }
{
    match last {
        None => true,
        Some(last) => stands_before(last, slot),
    }
}

/// Whether one slot stands before another.
fn stands_before(a: &SlotRecord, b: &SlotRecord) -> bool
    ensures { result ≡ stands_before a.now b.now }
{
    a.lane < b.lane || (a.lane == b.lane && a.slot < b.slot)
}

/// Whether an entry's key comes behind the last one, where there is one.
fn entry_follows(last: &Option<Entry>, entry: &Entry) -> bool
    ensures { result ≡ follows has_lower_key last.now entry.now }
{
    match last {
        None => true,
        Some(last) => last.key.cmp(&entry.key).is_lt(),
    }
}

/// Whether each class of the stored table has its own entries: in one those that are counted once, in the
/// other those that are counted more often, and no key is in both.
fn are_classes(flat: &FlatImage) -> bool
    requires { AreRising flat.now.duplicate }
    ensures { result ≡ are_classes flat.now }
{
    let unique = flat.unique.as_slice();
    let duplicate = flat.duplicate.as_slice();
    counted_once(unique) && counted_more(duplicate) && all_elsewhere(unique, duplicate)
}

/// Whether each entry has a count of 1.
fn counted_once(unique: &[Entry]) -> bool
    ensures { result ≡ list_all (λ entry. entry.home.count == 1) unique.now }
{
    unique.iter().all(|entry| entry.home.count == 1)
}

/// Whether each entry has a higher count.
fn counted_more(duplicate: &[Entry]) -> bool
    ensures { result ≡ list_all (λ entry. nat_lt 1 entry.home.count) duplicate.now }
{
    duplicate.iter().all(|entry| entry.home.count > 1)
}

/// Whether no key of the one class is in the other, which rises by key.
fn all_elsewhere(unique: &[Entry], duplicate: &[Entry]) -> bool
    requires { AreRising duplicate.now }
    ensures { result ≡ list_all (is_elsewhere duplicate.now) unique.now }
{
    'entries: for entry in unique {
        if !is_elsewhere(duplicate, entry) {
            return false;
        }
    }
    true
}

/// Whether no entry of this key is among these, which rise by key.
fn is_elsewhere(entries: &[Entry], entry: &Entry) -> bool
    requires { AreRising entries.now }
    ensures { result ≡ is_elsewhere entries.now entry.now }
{
    home_at(entries, &entry.key).is_none()
}

/// Whether the logs have as many changes as the seal says.
fn are_counted(seal: &Seal, flat: &FlatImage) -> bool
    ensures { result ≡ are_counted seal.now flat.now }
{
    seal.active_changes == flat.active.len() && seal.flushing_changes == flat.flushing.len()
}
