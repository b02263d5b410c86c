//! Whether the whole of an image keeps its rules.
//!
//! Each part of an image is well-formed by itself once it was read. Here the parts are held against each
//! other: the seal's sums, the count of each home, and that no two blocks and no page share a sector,
//! unless the table counts both under one key. No rule looks at a content, so that what is found holds of
//! any image with these parts.

ghost use Rattle.std.specs.Prelude.{◌≡◌, ◌==◌, ◌<◌, ◌≤◌, ◌^◌, filter, IfOk, IfSome, IfNone, true};
ghost use Rattle.std.specs.List.{AllByRecursion};
ghost use Rattle.disk_model.specs.Images.{Image};
ghost use Rattle.pool_model.specs.Space.{used_sectors};
ghost use Rattle.pool_model.specs.Table.{AreRising, IsTable};
ghost use Rattle.table_state.specs.Flat.{HoldTogether, table_in, pool_in};
ghost use Rattle.table_state.specs.SlotRecords.{is_slot};
ghost use Rattle.table_state.specs.Tables.{IsTableWithin};
ghost use Rattle.pool_import.specs.Judged.{counts_hold, sectors_taken, judged};
ghost use Rattle.pool_import.specs.Lengths.{HasLengths};
ghost use Rattle.pool_import.specs.Whole.{IsWhole};

use crate::flat::FlatImage;
use crate::judge_counts::{are_counted, sums_agree};
use crate::judge_places::{are_clear, are_owned, mark_spots, take_waiting};
use crate::marks::{Spot, spots_of};
use ddt_entry::Entry;
use grant_book::SectorSet;
use plain_table::counted;
use std::alloc::{AllocError, Global};
use table_state::DedupTable;
use uber_ring::{Seal, seal_fits};

/// Whether the whole keeps its rules; where it does, which sectors are used. The error is want of memory.
pub fn judge(
    alloc: Global,
    seal: &Seal,
    flat: &FlatImage,
    table: &DedupTable,
) -> Result<Option<SectorSet>, AllocError>
    requires ring { 32 ≤ seal.now.sectors }
    requires together { HoldTogether seal.now flat.now }
    requires slots { AllByRecursion (λ slot. is_slot seal.now.sectors seal.now.group slot ≡ true) flat.now.slots }
    requires lengths { HasLengths flat.now }
    requires sorted { IsTable (table_in seal.now flat.now) }
    requires within { IsTableWithin seal.now.sectors seal.now.group (table_in seal.now flat.now) }
    requires table { table.now.table ≡ table_in seal.now flat.now }
    ensures whole { IfOk result (λ found. IfSome found (λ used. (image : Image) → IsWhole image seal.now flat.now
        × (used ≡ used_sectors seal.now.sectors flat.now.named (pool_in image seal.now flat.now) (table_in seal.now flat.now)))) }
    ensures few { IfOk result (λ found. IfSome found (λ used. seal.now.homes < 2 ^ 62)) }
    ensures broken { IfOk result (λ found. IfNone found ((image : Image) → IsWhole image seal.now flat.now → ⊥)) }
{
    seal_fits(*seal);
    judged(alloc, seal, flat, table)
}

/// The answer of all tests, one after another.
fn judged(
    alloc: Global,
    seal: &Seal,
    flat: &FlatImage,
    table: &DedupTable,
) -> Result<Option<SectorSet>, AllocError>
    requires ring { 32 ≤ seal.now.sectors }
    requires sorted { IsTable table.now.table }
    ensures judged { IfOk result (λ found. found ≡ judged seal.now flat.now table.now.table) }
    ensures few { IfOk result (λ found. IfSome found (λ used. seal.now.homes < 2 ^ 62)) }
{
    let found = table.homes(alloc)?;
    let known = spots_of(alloc, found.as_slice(), flat.slots.as_slice())?;
    let spots = known.as_slice();
    let named = flat.named.as_slice();
    let taken = sectors_taken(alloc, seal.sectors, named, spots, found.as_slice())?;
    let homes = counted(found);
    if !counts_hold(alloc, seal, homes.as_slice(), spots, flat.named.len())? {
        return Ok(None);
    }
    Ok(taken)
}

/// Whether the seal's sums and the homes' counts are right. The error is want of memory.
fn counts_hold(
    alloc: Global,
    seal: &Seal,
    homes: &[Entry],
    spots: &[Spot],
    pages: u64,
) -> Result<bool, AllocError>
    requires { AreRising homes.now }
    ensures holds { IfOk result (λ holds. holds ≡ counts_hold seal.now homes.now spots.now pages) }
    ensures few { IfOk result (λ holds. holds ≡ true → seal.now.homes < 2 ^ 62) }
{
    if !sums_agree(seal, homes, pages) {
        return Ok(false);
    }
    are_counted(alloc, homes, spots)
}

/// The sectors that are used, where no page, no two blocks and none of these homes that waits share one. The
/// error is want of memory.
fn sectors_taken(
    alloc: Global,
    sectors: u64,
    named: &[u64],
    spots: &[Spot],
    homes: &[Entry],
) -> Result<Option<SectorSet>, AllocError>
    requires { 32 ≤ sectors }
    ensures { IfOk result (λ found. found ≡ sectors_taken sectors named.now spots.now
        (filter (λ entry. entry.home.count == 0) homes.now)) }
{
    let mut used = SectorSet::with_ring(alloc, sectors)?;
    used.mark_all(named);
    if !are_clear(&used, spots) {
        return Ok(None);
    }
    if !are_owned(alloc, sectors, spots)? {
        return Ok(None);
    }
    mark_spots(&mut used, spots);
    if !take_waiting(&mut used, homes) {
        return Ok(None);
    }
    Ok(Some(used))
}
