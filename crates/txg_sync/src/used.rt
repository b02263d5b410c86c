ghost use Rattle.std.specs.Prelude.{◌≡◌, ◌≤◌, ◌==◌, IfOk, filter, map};
ghost use Rattle.std.specs.List.{AllByRecursion};
ghost use Rattle.ddt_entry.specs.Spelling.{IsKeyLength};
ghost use Rattle.grant_book.specs.Sectors.{marked};
ghost use Rattle.pool_model.specs.Table.{TableState, entries_found};
ghost use Rattle.table_state.specs.Sound.{HasKeyLengths};
ghost use Rattle.txg_sync.specs.Placing.{AreUsed};

use ddt_entry::Entry;
use grant_book::SectorSet;
use slot_table::SlotRecord;
use std::alloc::{AllocError, Global};

/// The places of these slots are used from now on.
fn mark_slots(used: &mut SectorSet, slots: &[SlotRecord])
    ensures { used.new ≡ marked used.old (map (λ slot. slot.pointer.place) slots.now) }
{
    'slots: for slot in slots {
        used.mark(slot.pointer.place);
    }
}

/// The places of those of these homes that aren't counted are used from now on.
fn mark_waiting(used: &mut SectorSet, entries: &[Entry])
    ensures { used.new ≡ marked used.old (map (λ entry. entry.home.place) (filter (λ entry. entry.home.count == 0) entries.now)) }
{
    'entries: for entry in entries {
        if entry.home.count == 0 {
            used.mark(entry.home.place);
        }
    }
}

/// The sectors that a pool uses whose image has these pages, which has these slots, and whose table finds these
/// homes: those of the ring, of the pages, of the slots' blocks, and of the homes that wait. The error is want of memory.
pub fn used_after(
    alloc: Global,
    sectors: u64,
    pages: &[u64],
    slots: &[SlotRecord],
    found: &[Entry],
) -> Result<SectorSet, AllocError>
    requires enough { 32 ≤ sectors }
    requires slots { AllByRecursion (λ slot. IsKeyLength slot.pointer.key.len) slots.now }
    ensures { IfOk result (λ used. (table : TableState) → found.now ≡ entries_found table → HasKeyLengths table
        → AreUsed sectors pages.now slots.now table used) }
{
    let mut used = SectorSet::with_ring(alloc, sectors)?;
    used.mark_all(pages);
    mark_slots(&mut used, slots);
    mark_waiting(&mut used, found);
    Ok(used)
}
