ghost use Rattle.std.specs.Prelude.{◌≡◌, ℕ, true, map, Some, IfOk, IsErrOf};
ghost use Rattle.std.specs.List.{AllByRecursion, list_any};
ghost use Rattle.page_tree.specs.declared.fault.PageFault.TheVariants.{Damaged, ReadFault};
ghost use Rattle.table_state.specs.SlotRecords.{is_slot, slot_in};
ghost use Rattle.pool_import.specs.Spelled.{spells_no_slot};

use page_tree::{PageFault, RecordList};
use slot_table::SlotList;
use std::alloc::Global;
use table_state::read_slot;

/// The slots that records spell, in a pool of these sectors under a seal of this group. `Damaged`, with the
/// sector `at`, comes only where one of them spells no slot; the error `Memory` is want of memory for the
/// list.
pub fn slots_of(
    alloc: Global,
    records: &RecordList,
    at: u64,
    sectors: u64,
    group: u64,
) -> Result<SlotList, PageFault>
    ensures read { IfOk result (λ slots. map (slot_in sectors group) records.now.items ≡ map Some slots.items) }
    ensures within { IfOk result (λ slots. AllByRecursion (λ slot. is_slot sectors group slot ≡ true) slots.items) }
    ensures damaged { (sector : ℕ) → IsErrOf result (Damaged sector) → (sector ≡ at) × (list_any (spells_no_slot sectors group) records.now.items ≡ true) }
    ensures reads { IsErrOf result ReadFault → ⊥ }
{
    let mut slots = SlotList::new(alloc);
    slots.reserve(records.len())?;
    'records: for record in records.as_slice() {
        let Some(slot) = read_slot(record, sectors, group) else {
            return Err(PageFault::Damaged(at));
        };
        slots.push(slot);
    }
    Ok(slots)
}
