ghost use Rattle.std.specs.Prelude.{◌≤◌};

use crate::comparing::{assert_same, assert_same_at};
use ddt_entry::{Key, Pointer, SlotKind};
use grant_book::SectorSet;
use page_tree::RecordList;
use pool_model::{Block, StoredBlock};
use slot_table::SlotRecord;
use std::alloc::{AllocError, Global};
use std::process::Abort;
use std::test::Fail;
use table_state::DedupTable;
use txg_sync::{ChainPages, place_chains, used_after};

/// A list of so many records.
fn records_of(alloc: Global, count: u64) -> Result<RecordList, AllocError> {
    let mut records = Vec::new(alloc);
    records.resize(count as usize, [7; 72])?;
    Ok(RecordList::from_vec(records))
}

/// Lists of one record, of none, and of one more than a page has.
fn three_lists(alloc: Global) -> Result<Vec<RecordList>, AllocError> {
    let mut lists = Vec::new(alloc);
    for count in [1, 0, 57] {
        lists.push(records_of(alloc, count)?)?;
    }
    Ok(lists)
}

/// A block in sector 33.
fn a_block(alloc: Global) -> Result<Vec<StoredBlock>, AllocError> {
    let mut contents = Vec::new(alloc);
    contents.push(StoredBlock {
        place: 33,
        block: Block::new(alloc),
    })?;
    Ok(contents)
}

/// The places of the chains of three lists in a pool that uses nothing but the ring, beside a block in
/// sector 33.
fn placed(alloc: Global, sectors: u64) -> Result<Option<Vec<ChainPages>>, AllocError>
    requires { 32 ≤ sectors }
{
    let used = SectorSet::with_ring(alloc, sectors)?;
    let contents = a_block(alloc)?;
    let lists = three_lists(alloc)?;
    place_chains(alloc, used, contents.as_slice(), lists)
}

/// Sees how many records a chain has, and its places.
fn assert_part(
    rt: &impl Abort,
    parts: &[ChainPages],
    at: usize,
    records: u64,
    places: &[u64],
) -> Result<(), Fail> {
    let part = parts.get(at).ok_or("there are three chains")?;
    assert_same_at(
        rt,
        "the records of chain",
        at as u64,
        part.records.len(),
        records,
    );
    let own = part.places.as_slice();
    assert_same_at(rt, "the places of chain", at as u64, own, places);
    Ok(())
}

#[test]
fn chains_get_the_first_sectors_that_are_free(rt: HostRuntime) -> Result<(), Fail> {
    let placed = placed(rt.alloc(), 36)?.ok_or("three sectors are free")?;
    let parts = placed.as_slice();
    assert_same(&rt, "the chains", parts.len(), 3);
    assert_part(&rt, parts, 0, 1, &[32])?;
    assert_part(&rt, parts, 1, 0, &[])?;
    assert_part(&rt, parts, 2, 57, &[34, 35])
}

#[test]
fn chains_that_do_not_fit_get_nothing(rt: HostRuntime) -> Result<(), Fail> {
    let found = placed(rt.alloc(), 35)?;
    assert_same(&rt, "whether chains are placed", found.is_some(), false);
    Ok(())
}

/// Slot 3 of lane 0, which isn't flagged, with a block of five bytes in sector 36.
const SLOT: SlotRecord = SlotRecord {
    lane: 0,
    slot: 3,
    pointer: Pointer {
        key: Key {
            digest: [1; 32],
            len: 5,
        },
        place: 36,
        birth: 1,
        kind: SlotKind::Plain,
    },
};

#[test]
fn the_ring_the_pages_and_the_slots_are_used(rt: HostRuntime) -> Result<(), Fail> {
    let table = DedupTable::new(rt.alloc());
    let found = table.homes(rt.alloc())?;
    let used = used_after(
        rt.alloc(),
        40,
        [34, 33].as_slice(),
        [SLOT].as_slice(),
        found.as_slice(),
    )?;
    assert_same(&rt, "free sectors", used.free(), 5);
    let free = used.free_places(rt.alloc(), 5)?.ok_or("five are free")?;
    assert_same(
        &rt,
        "the free places",
        free.as_slice(),
        [32, 35, 37, 38, 39].as_slice(),
    );
    Ok(())
}
