ghost use Rattle.std.specs.Prelude.{◌≡◌, ◌≤◌, ◌<◌, ◌+◌, ℕ, true, map, slice_index_or, IfOk, IfNone, IfSome, OnOk};
ghost use Rattle.std.specs.List.{AllByRecursion};
ghost use Rattle.ddt_entry.specs.Spelling.{Fits};
ghost use Rattle.ddt_entry.specs.declared.entry.Change.TheVariants.{Entry as AnEntry};
ghost use Rattle.pool_model.specs.Mirrors.{stored_of};
ghost use Rattle.table_state.specs.SealForms.{last_group};
ghost use Rattle.table_state.specs.Sealed.{places_in, records_in};
ghost use Rattle.table_state.specs.Tables.{HaveKeyLengths};
ghost use Rattle.table_state.specs.Sound.{IsSound, HasKeyLengths};
ghost use Rattle.table_state.specs.Closing.{closed_of, IsInRange, records_after};
ghost use Rattle.txg_sync.specs.Planning.{IsPlan};
ghost use Rattle.txg_sync.specs.Placing.{ArePlaced, LacksRoom};

use crate::chain_records::records_of;
use crate::fits::slots_fit;
use crate::group_seal::seal_of;
use crate::next_slots::set_slots;
use crate::part::ChainPages;
use crate::places::place_chains;
use crate::table_step::sync_table;
use crate::used::used_after;
use disk_model::Disk;
use grant_book::GrantBook;
use page_tree::SectorList;
use pool_model::{Closed, StoredBlock};
use slot_table::SlotRecord;
use std::alloc::{AllocError, Global};
use table_state::{DedupTable, Pool};
use uber_ring::Seal;

/// What a sync is going to write.
#[derive(Drop)]
pub struct Plan {
    /// Its five chains: slots, unique, duplicate, active, flushing.
    pub parts: Vec<ChainPages>,
    /// Its seal, with null pointers in place of the chains' roots.
    pub seal: Seal,
}

/// The sectors of all pages, chain by chain. The error is want of memory.
fn pages_of(alloc: Global, parts: &[ChainPages]) -> Result<SectorList, AllocError>
    ensures { IfOk result (λ pages. pages.items ≡ places_in parts.now) }
{
    let mut pages = Vec::new(alloc);
    'parts: for part in parts {
        pages.extend_from_slice(part.places.as_slice())?;
    }
    Ok(SectorList::from_vec(pages))
}

/// The chains of these slots and this table with its logs, at places that nothing uses; `None` where fewer sectors are
/// free than their pages need. The error is want of memory.
fn chains_of(
    alloc: Global,
    book: &GrantBook,
    contents: &[StoredBlock],
    slots: &[SlotRecord],
    table: &DedupTable,
) -> Result<Option<Vec<ChainPages>>, AllocError>
    requires ring { (sector : ℕ) → sector < 32 → slice_index_or book.now.used sector true ≡ true }
    requires lengths { HasKeyLengths table.now.table }
    requires log_lengths { HaveKeyLengths table.now.logs }
    ensures placed { IfOk result (λ found. IfSome found (λ parts.
        ArePlaced book.now.used (map stored_of contents.now) (records_in slots.now table.now) parts.items)) }
    ensures room { IfOk result (λ found. IfNone found
        (LacksRoom book.now.used (map stored_of contents.now) (records_in slots.now table.now))) }
    ensures fit { OnOk result (AllByRecursion (λ entry. Fits (AnEntry entry)) table.now.table.zap) }
{
    let lists = records_of(alloc, slots, table)?;
    place_chains(alloc, book.used(alloc)?, contents, lists)
}

/// Plans the sync of a group: takes all memory and chooses all places, and makes the pool the one after the group.
/// `None` where fewer sectors are free than its pages need. The error is want of memory. After either the pool is given
/// up.
pub fn plan_group<D: Disk>(
    alloc: Global,
    pool: &mut Pool,
    disk: &D,
    closed: &Closed,
) -> Result<Option<Plan>, AllocError>
    requires sound { IsSound pool.old }
    requires range { IsInRange pool.old (closed_of closed.now) }
    requires last { pool.old.group + 1 ≤ last_group }
    ensures planned { IfOk result (λ found. IfSome found (λ plan.
        IsPlan pool.old (closed_of closed.now) pool.new plan.parts.items plan.seal)) }
    ensures room { IfOk result (λ found. IfNone found
        (LacksRoom pool.old.used (closed_of closed.now).contents (records_after pool.old (closed_of closed.now)))) }
{
    set_slots(&mut pool.slots, closed.slots.as_slice())?;
    sync_table(
        alloc,
        &mut pool.table,
        &mut pool.totals,
        disk,
        closed.changes.as_slice(),
    )?;
    let listed = pool.slots.slots(alloc)?;
    let slots = listed.as_slice();
    slots_fit(slots);
    let contents = closed.contents.as_slice();
    let Some(parts) = chains_of(alloc, &pool.book, contents, slots, &pool.table)? else {
        return Ok(None);
    };
    let pages = pages_of(alloc, parts.as_slice())?;
    let homes = pool.table.homes(alloc)?;
    let seal = seal_of(
        pool.tag,
        pool.sectors,
        pool.sealed + 1,
        &closed.modes,
        closed.quota,
        &pool.table,
        homes.as_slice(),
        pages.len(),
    );
    let used = used_after(
        alloc,
        pool.sectors,
        pages.as_slice(),
        slots,
        homes.as_slice(),
    )?;
    pool.keys = seal.homes;
    pool.pages = pages;
    pool.book = GrantBook::of_used(used);
    pool.modes = closed.modes;
    pool.limit = closed.quota;
    pool.sealed += 1;
    Ok(Some(Plan { parts, seal }))
}
