ghost use Rattle.std.specs.Prelude.{◌≡◌, ◌≤◌, ℕ, true, List, IfOk, IfSome, IsErrOf};
ghost use Rattle.std.specs.List.{AllByRecursion};
ghost use Rattle.disk_model.specs.Faults.{Rose};
ghost use Rattle.ddt_entry.specs.Spelling.{IsKeyLength};
ghost use Rattle.ddt_entry.specs.declared.entry.Entry.{Entry as AnEntry};
ghost use Rattle.ddt_entry.specs.declared.entry.Change.{Change as AChange};
ghost use Rattle.page_tree.specs.declared.fault.PageFault.TheVariants.{Damaged, ReadFault};
ghost use Rattle.slot_table.specs.declared.slot.SlotRecord.{SlotRecord};
ghost use Rattle.table_state.specs.SlotRecords.{is_slot};
ghost use Rattle.table_state.specs.Tables.{HasLength};
ghost use Rattle.pool_import.specs.Parts.{ReadsSlots, ReadsEntries, ReadsChanges, first_sector};

use crate::changes::{changes_of, entries_of};
use crate::records::read_records;
use crate::slots::slots_of;
use disk_model::Disk;
use page_tree::{PageFault, PagePtr, SectorList};
use pool_model::{ChangeList, EntryList};
use slot_table::SlotList;
use std::alloc::Global;

/// The sector of a chain's first page, and 0 where it has none.
fn first_sector(root: &Option<PagePtr>) -> u64
    ensures { result ≡ first_sector root.now }
{
    match root {
        None => 0,
        Some(pointer) => pointer.sector,
    }
}

/// The slots of a chain, in a pool of these sectors under a seal of this group. Its sectors are appended to
/// those that are named. `Damaged` comes only where the chain spells no list of slots.
pub fn read_slots<D: Disk>(
    alloc: Global,
    disk: &D,
    meter: &mut D::Meter,
    root: &Option<PagePtr>,
    named: &mut SectorList,
    sectors: u64,
    group: u64,
) -> Result<SlotList, PageFault>
    ensures read { IfOk result (λ slots. IfSome (D.state disk.now).seen (λ image.
        ReadsSlots sectors group image named.old.items root.now named.new.items slots.items)) }
    ensures within { IfOk result (λ slots. AllByRecursion (λ slot. is_slot sectors group slot ≡ true) slots.items) }
    ensures damaged { (sector : ℕ) → IsErrOf result (Damaged sector) → IfSome (D.state disk.now).seen (λ image.
        (after : List ℕ) (slots : List SlotRecord) → ReadsSlots sectors group image named.old.items root.now after slots → ⊥) }
    ensures count { D.meter_faults meter.old ≤ D.meter_faults meter.new }
    ensures cause { IsErrOf result ReadFault → Rose (D.meter_faults meter.old) (D.meter_faults meter.new) }
{
    let records = read_records(alloc, disk, meter, root, named)?;
    slots_of(alloc, &records, first_sector(root), sectors, group)
}

/// The entries of a chain, whose sectors are appended to those that are named. `Damaged` comes only where
/// the chain spells no list of entries.
pub fn read_entries<D: Disk>(
    alloc: Global,
    disk: &D,
    meter: &mut D::Meter,
    root: &Option<PagePtr>,
    named: &mut SectorList,
) -> Result<EntryList, PageFault>
    ensures read { IfOk result (λ entries. IfSome (D.state disk.now).seen (λ image.
        ReadsEntries image named.old.items root.now named.new.items entries.items)) }
    ensures lengths { IfOk result (λ entries. AllByRecursion (λ entry. IsKeyLength entry.key.len) entries.items) }
    ensures damaged { (sector : ℕ) → IsErrOf result (Damaged sector) → IfSome (D.state disk.now).seen (λ image.
        (after : List ℕ) (entries : List AnEntry) → ReadsEntries image named.old.items root.now after entries → ⊥) }
    ensures count { D.meter_faults meter.old ≤ D.meter_faults meter.new }
    ensures cause { IsErrOf result ReadFault → Rose (D.meter_faults meter.old) (D.meter_faults meter.new) }
{
    let records = read_records(alloc, disk, meter, root, named)?;
    entries_of(alloc, &records, first_sector(root))
}

/// The changes of a chain, whose sectors are appended to those that are named. `Damaged` comes only where
/// the chain spells no list of changes.
pub fn read_changes<D: Disk>(
    alloc: Global,
    disk: &D,
    meter: &mut D::Meter,
    root: &Option<PagePtr>,
    named: &mut SectorList,
) -> Result<ChangeList, PageFault>
    ensures read { IfOk result (λ log. IfSome (D.state disk.now).seen (λ image.
        ReadsChanges image named.old.items root.now named.new.items log.items)) }
    ensures lengths { IfOk result (λ log. AllByRecursion HasLength log.items) }
    ensures damaged { (sector : ℕ) → IsErrOf result (Damaged sector) → IfSome (D.state disk.now).seen (λ image.
        (after : List ℕ) (log : List AChange) → ReadsChanges image named.old.items root.now after log → ⊥) }
    ensures count { D.meter_faults meter.old ≤ D.meter_faults meter.new }
    ensures cause { IsErrOf result ReadFault → Rose (D.meter_faults meter.old) (D.meter_faults meter.new) }
{
    let records = read_records(alloc, disk, meter, root, named)?;
    changes_of(alloc, &records, first_sector(root))
}
