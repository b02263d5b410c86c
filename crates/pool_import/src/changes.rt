ghost use Rattle.std.specs.Prelude.{◌≡◌, ℕ, true, map, Ok, IfOk, IsErrOf};
ghost use Rattle.std.specs.List.{AllByRecursion, list_any};
ghost use Rattle.ddt_entry.specs.Records.{change_in};
ghost use Rattle.ddt_entry.specs.Spelling.{IsKeyLength};
ghost use Rattle.ddt_entry.specs.declared.entry.Change.TheVariants.{Entry as AnEntry};
ghost use Rattle.page_tree.specs.declared.fault.PageFault.TheVariants.{Damaged, ReadFault};
ghost use Rattle.table_state.specs.Tables.{HasLength};
ghost use Rattle.pool_import.specs.Spelled.{spells_no_change, spells_no_entry};

use ddt_entry::{Change, read_change};
use page_tree::{PageFault, RecordList};
use pool_model::{ChangeList, EntryList};
use std::alloc::Global;

/// The changes that records spell. `Damaged`, with the sector `at`, comes only where one of them spells no
/// change; the error `Memory` is want of memory for the list.
pub fn changes_of(alloc: Global, records: &RecordList, at: u64) -> Result<ChangeList, PageFault>
    ensures read { IfOk result (λ changes. map change_in records.now.items ≡ map Ok changes.items) }
    ensures lengths { IfOk result (λ changes. AllByRecursion HasLength changes.items) }
    ensures damaged { (sector : ℕ) → IsErrOf result (Damaged sector) → (sector ≡ at) × (list_any spells_no_change records.now.items ≡ true) }
    ensures reads { IsErrOf result ReadFault → ⊥ }
{
    let mut changes = ChangeList::new(alloc);
    changes.reserve(records.len())?;
    'records: for record in records.as_slice() {
        let Ok(change) = read_change(record) else {
            return Err(PageFault::Damaged(at));
        };
        changes.push(change);
    }
    Ok(changes)
}

/// The entries that records spell. `Damaged`, with the sector `at`, comes only where one of them spells no
/// entry; the error `Memory` is want of memory for the list.
pub fn entries_of(alloc: Global, records: &RecordList, at: u64) -> Result<EntryList, PageFault>
    ensures read { IfOk result (λ entries. map change_in records.now.items ≡ map (λ entry. Ok (AnEntry entry)) entries.items) }
    ensures lengths { IfOk result (λ entries. AllByRecursion (λ entry. IsKeyLength entry.key.len) entries.items) }
    ensures damaged { (sector : ℕ) → IsErrOf result (Damaged sector) → (sector ≡ at) × (list_any spells_no_entry records.now.items ≡ true) }
    ensures reads { IsErrOf result ReadFault → ⊥ }
{
    let mut entries = EntryList::new(alloc);
    entries.reserve(records.len())?;
    'records: for record in records.as_slice() {
        let Ok(Change::Entry(entry)) = read_change(record) else {
            return Err(PageFault::Damaged(at));
        };
        entries.push(entry);
    }
    Ok(entries)
}
