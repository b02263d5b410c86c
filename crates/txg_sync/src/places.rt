ghost use Rattle.std.specs.Prelude.{◌≡◌, ◌<◌, ◌≤◌, ◌+◌, ℕ, true, length, map, take, drop, slice_index_or, IfOk, IfSome, IfNone};
ghost use Rattle.page_tree.specs.ChainWrites.{pages_for};
ghost use Rattle.pool_model.specs.Mirrors.{stored_of};
ghost use Rattle.grant_book.specs.Sectors.{marked};
ghost use Rattle.table_state.specs.Closing.{pages_of, block_places};
ghost use Rattle.txg_sync.specs.Placing.{parts_of, ArePlaced, LacksRoom};

use crate::part::ChainPages;
use grant_book::SectorSet;
use page_tree::{PAGE_RECORDS, RecordList};
use pool_model::{PlaceList, StoredBlock};
use std::alloc::{AllocError, Global};

/// How many pages so many records take.
fn pages_for(records: u64) -> u64
    ensures { result ≡ pages_for records }
{
    records.div_ceil(PAGE_RECORDS as u64)
}

/// How many pages the chains of these records take, or nothing where they are more than `free`.
fn pages_within(lists: &[RecordList], free: u64) -> Option<u64>
    ensures counted { IfSome result (λ pages. (pages ≡ pages_of (map (λ records. records.items) lists.now)) × (pages ≤ free)) }
    ensures lacking { IfNone result (free < pages_of (map (λ records. records.items) lists.now)) }
{
    let mut pages = 0;
    'lists: for records in lists {
        let more = pages_for(records.len());
        if more > free - pages {
            return None;
        }
        pages += more;
    }
    Some(pages)
}

/// So many of the places, from one on. The error is want of memory.
fn piece(alloc: Global, places: &[u64], from: u64, count: u64) -> Result<PlaceList, AllocError>
    requires { from + count ≤ length places.now }
    ensures { IfOk result (λ own. own.items ≡ take count (drop from places.now)) }
{
    let behind = places.split_at(from as usize).1;
    let own = behind.split_at(count as usize).0;
    Ok(PlaceList::from_vec(Vec::from_slice(alloc, own)?))
}

/// Gives each chain the places of its pages, one chain after another.
fn share_out(
    alloc: Global,
    lists: Vec<RecordList>,
    places: &[u64],
) -> Result<Vec<ChainPages>, AllocError>
    requires { length places.now ≡ pages_of (map (λ records. records.items) lists.items) }
    ensures { IfOk result (λ parts. parts.items ≡ parts_of (map (λ records. records.items) lists.items) places.now) }
{
    let mut parts = Vec::new(alloc);
    let mut from = 0;
    'lists: for records in lists {
        let count = pages_for(records.len());
        let own = piece(alloc, places, from, count)?;
        parts.push(ChainPages {
            places: own,
            records,
        })?;
        from += count;
    }
    Ok(parts)
}

/// The places of these blocks are used from now on.
fn mark_blocks(used: &mut SectorSet, contents: &[StoredBlock])
    ensures { used.new ≡ marked used.old (block_places (map stored_of contents.now)) }
{
    'contents: for stored in contents {
        used.mark(stored.place);
    }
}

/// Places the pages of the chains of these records, one chain after another, in the first sectors that
/// aren't used, and where none of the group's blocks goes; `None` where such sectors are fewer than the
/// pages. The error is want of memory.
pub fn place_chains(
    alloc: Global,
    mut used: SectorSet,
    contents: &[StoredBlock],
    lists: Vec<RecordList>,
) -> Result<Option<Vec<ChainPages>>, AllocError>
    requires ring { (sector : ℕ) → sector < 32 → slice_index_or used sector true ≡ true }
    ensures placed { IfOk result (λ found. IfSome found (λ parts.
        ArePlaced used (map stored_of contents.now) (map (λ records. records.items) lists.items) parts.items)) }
    ensures room { IfOk result (λ found. IfNone found
        (LacksRoom used (map stored_of contents.now) (map (λ records. records.items) lists.items))) }
{
    mark_blocks(&mut used, contents);
    let Some(pages) = pages_within(lists.as_slice(), used.free()) else {
        return Ok(None);
    };
    let Some(places) = used.free_places(alloc, pages)? else {
        return Ok(None);
    };
    let parts = share_out(alloc, lists, places.as_slice())?;
    Ok(Some(parts))
}
