ghost use Rattle.std.specs.Prelude.{◌≡◌, ◌≤◌, true, length, map, IfOk, IfSome, IfNone};
ghost use Rattle.std.specs.List.{AllByRecursion};
ghost use Rattle.disk_model.specs.Images.{Image};
ghost use Rattle.pool_model.specs.Table.{counted_homes};
ghost use Rattle.pool_stats.specs.Totals.{totals_in};
ghost use Rattle.slot_table.specs.Slots.{AreRisingSlots};
ghost use Rattle.table_state.specs.SealForms.{modes_in, quota_in};
ghost use Rattle.table_state.specs.Flat.{HoldTogether, table_in, logs_in};
ghost use Rattle.table_state.specs.SlotRecords.{is_slot};
ghost use Rattle.pool_import.specs.Lengths.{HasLengths};
ghost use Rattle.pool_import.specs.Whole.{IsWhole};
ghost use Rattle.pool_import.specs.Imports.{IsMade, held_of};

use crate::flat::FlatImage;
use crate::judge::judge;
use crate::tables::table_of;
use crate::whole::hold_together;
use disk_model::Disk;
use grant_book::{GrantBook, SectorSet};
use plain_table::counted;
use pool_model::Mode;
use pool_stats::RunningTotals;
use slot_table::SlotMap;
use std::alloc::{AllocError, Global};
use table_state::{DedupTable, Pool, mode_of};
use uber_ring::{Seal, seal_fits};

/// The pool that a seal and its parts make, and `None` where they break a rule. No sector is read. The error is
/// want of memory.
pub fn pool_of<D: Disk>(
    alloc: Global,
    disk: &D,
    seal: &Seal,
    tag: u8,
    flat: FlatImage,
) -> Result<Option<Pool>, AllocError>
    requires few { seal.now.sectors ≤ 1000000 }
    requires enough { 2048 ≤ seal.now.sectors }
    requires slots { AllByRecursion (λ slot. is_slot seal.now.sectors seal.now.group slot ≡ true) flat.slots }
    requires lengths { HasLengths flat }
    ensures made { IfOk result (λ found. IfSome found (IsMade tag seal.now flat)) }
    ensures broken { IfOk result (λ found. IfNone found (HoldTogether seal.now flat → (image : Image) → IsWhole image seal.now flat → ⊥)) }
{
    if !hold_together(seal, &flat) {
        return Ok(None);
    }
    let table = table_of(alloc, disk, seal, &flat)?;
    let Some(used) = judge(alloc, seal, &flat, &table)? else {
        return Ok(None);
    };
    Ok(Some(assembled(alloc, seal, tag, flat, table, used)?))
}

/// The pool of these parts with this table and these used sectors. The error is want of memory.
fn assembled(
    alloc: Global,
    seal: &Seal,
    tag: u8,
    flat: FlatImage,
    table: DedupTable,
    used: SectorSet,
) -> Result<Pool, AllocError>
    requires table { table ≡ record { table = table_in seal.now flat; logs = logs_in flat } }
    requires sectors { length used ≡ seal.now.sectors }
    requires slots { AreRisingSlots flat.slots }
    ensures { IfOk result (λ pool. pool ≡ held_of tag seal.now flat used) }
{
    let slots = SlotMap::of_slots(alloc, flat.slots.as_slice())?;
    let totals = totals_of(alloc, &table)?;
    Ok(Pool {
        slots,
        table,
        keys: seal.homes,
        totals,
        pages: flat.named,
        book: GrantBook::of_used(used),
        modes: modes_of(seal),
        limit: quota_of(seal),
        tag,
        sealed: seal.group,
        sectors: seal.sectors,
    })
}

/// The sums over the homes that the table counts. The error is want of memory.
fn totals_of(alloc: Global, table: &DedupTable) -> Result<RunningTotals, AllocError>
    ensures { IfOk result (λ totals. totals ≡ totals_in (counted_homes table.now.table)) }
{
    let homes = counted(table.homes(alloc)?);
    Ok(RunningTotals::over(homes.as_slice()))
}

/// The modes of the lanes.
fn modes_of(seal: &Seal) -> [Mode; 16]
    ensures { result ≡ modes_in seal.now }
{
    seal_fits(*seal);
    seal.modes.map(|byte| mode_of(byte))
}

/// The quota, where there is one.
fn quota_of(seal: &Seal) -> Option<u64>
    ensures { result ≡ quota_in seal.now }
{
    if seal.quota_flag == 1 {
        Some(seal.quota)
    } else {
        None
    }
}
