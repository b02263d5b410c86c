ghost use Rattle.std.specs.Prelude.{◌≡◌, All, IfOk, OnOk, map};
ghost use Rattle.std.specs.List.{AllByRecursion};
ghost use Rattle.ddt_entry.specs.Changes.{key_in};
ghost use Rattle.ddt_entry.specs.Spelling.{record_bytes, Fits, IsKeyLength};
ghost use Rattle.ddt_entry.specs.declared.entry.Change.TheVariants.{Entry as AnEntry};
ghost use Rattle.table_state.specs.Sealed.{entry_bytes, records_in};
ghost use Rattle.table_state.specs.Spelling.{slot_bytes};
ghost use Rattle.table_state.specs.Tables.{unique_in, duplicate_in};

use crate::fits::entries_fit;
use ddt_entry::{Change, Entry, RECORD_BYTES, write_change};
use page_tree::RecordList;
use slot_table::SlotRecord;
use std::alloc::{AllocError, Global};
use table_state::{DedupTable, write_slot};

/// The records of the five chains of a group: of its slots, of the unique and the duplicate entries of the
/// stored table, of all changes of the active and of the flushing log. The stored homes are listed for it, which
/// shows that they fit. The error is want of memory.
pub fn records_of(
    alloc: Global,
    slots: &[SlotRecord],
    table: &DedupTable,
) -> Result<Vec<RecordList>, AllocError>
    requires zap { All (λ entry. IsKeyLength entry.key.len) table.now.table.zap }
    requires active { All (λ change. IsKeyLength (key_in change).len) table.now.logs.active }
    requires flushing { All (λ change. IsKeyLength (key_in change).len) table.now.logs.flushing }
    ensures records { IfOk result (λ lists. map (λ list. list.items) lists.items ≡ records_in slots.now table.now) }
    ensures fit { OnOk result (AllByRecursion (λ entry. Fits (AnEntry entry)) table.now.table.zap) }
{
    let logs = &table.logs;
    let stored = table.classes.listed(alloc)?;
    entries_fit(stored.as_slice());
    let duplicate = duplicate_in(Vec::from_slice(alloc, stored.as_slice())?);
    let unique = unique_in(stored);
    let mut lists = Vec::new(alloc);
    lists.push(slot_records(alloc, slots)?)?;
    lists.push(entry_records(alloc, unique.as_slice())?)?;
    lists.push(entry_records(alloc, duplicate.as_slice())?)?;
    lists.push(change_records(alloc, logs.kept(0))?)?;
    lists.push(change_records(alloc, logs.kept(1))?)?;
    Ok(lists)
}

/// The entries that are counted once.
fn unique_in(mut entries: Vec<Entry>) -> Vec<Entry>
    ensures { result.items ≡ unique_in entries.items }
{
    entries.retain(|entry| entry.home.count == 1);
    entries
}

/// The entries that are counted more than once.
fn duplicate_in(mut entries: Vec<Entry>) -> Vec<Entry>
    ensures { result.items ≡ duplicate_in entries.items }
{
    entries.retain(|entry| entry.home.count > 1);
    entries
}

/// The records of these slots.
fn slot_records(alloc: Global, slots: &[SlotRecord]) -> Result<RecordList, AllocError>
    ensures { IfOk result (λ records. records.items ≡ map slot_bytes slots.now) }
{
    let mut records = RecordList::new(alloc);
    records.reserve(slots.len() as u64)?;
    'slots: for held in slots {
        records.push(write_slot(held));
    }
    Ok(records)
}

/// The records of these entries.
fn entry_records(alloc: Global, entries: &[Entry]) -> Result<RecordList, AllocError>
    requires { All (λ entry. IsKeyLength entry.key.len) entries.now }
    ensures { IfOk result (λ records. records.items ≡ map entry_bytes entries.now) }
{
    let mut records = RecordList::new(alloc);
    records.reserve(entries.len() as u64)?;
    'entries: for entry in entries {
        records.push(change_bytes(&Change::Entry(*entry)));
    }
    Ok(records)
}

/// The records of these changes.
fn change_records(alloc: Global, changes: &[Change]) -> Result<RecordList, AllocError>
    requires { All (λ change. IsKeyLength (key_in change).len) changes.now }
    ensures { IfOk result (λ records. records.items ≡ map record_bytes changes.now) }
{
    let mut records = RecordList::new(alloc);
    records.reserve(changes.len() as u64)?;
    'changes: for change in changes {
        records.push(change_bytes(change));
    }
    Ok(records)
}

/// The record of a change.
fn change_bytes(change: &Change) -> [u8; RECORD_BYTES]
    requires { IsKeyLength (key_in change.now).len }
    ensures { result ≡ record_bytes change.now }
{
    let mut out = [0; RECORD_BYTES];
    write_change(change, &mut out);
    out
}
