use crate::comparing::{assert_same, assert_same_at};
use grant_book::SectorSet;
use std::alloc::{AllocError, Global};
use std::process::Abort;
use std::test::Fail;

/// Marks a sector that the set has as used or free.
fn mark(rt: &impl Abort, set: &mut SectorSet, sector: u64, used: bool) {
    assert!(rt; sector < set.len());
    set.set(sector, used);
}

/// Whether a sector that the set has is used.
fn is_used(rt: &impl Abort, set: &SectorSet, sector: u64) -> bool {
    assert!(rt; sector < set.len());
    set.has(sector)
}

/// Sees which sectors are used.
fn assert_used(rt: &impl Abort, set: &SectorSet, what: &str, rows: &[(u64, bool)]) {
    for (sector, used) in rows {
        let found = is_used(rt, set, *sector);
        assert_same_at(rt, what, *sector, found, *used);
    }
}

/// Sees which places are found, where so many are wanted.
fn assert_places(
    rt: &impl Abort,
    alloc: Global,
    set: &SectorSet,
    wanted: u64,
    places: &[u64],
) -> Result<(), Fail> {
    let found = set.free_places(alloc, wanted)?;
    let found = found.ok_or("so many are free")?;
    let found = found.as_slice();
    assert_same_at(rt, "the places, wanted", wanted, found, places);
    Ok(())
}

/// Sees that so many places are not found.
fn assert_too_many(
    rt: &impl Abort,
    alloc: Global,
    set: &SectorSet,
    wanted: u64,
) -> Result<(), AllocError> {
    let found = set.free_places(alloc, wanted)?.is_some();
    assert_same_at(rt, "whether there are, wanted", wanted, found, false);
    Ok(())
}

/// Marks three sectors of six, and one of them as free again.
fn mark_some(rt: &impl Abort, set: &mut SectorSet) {
    for (sector, used) in [(0, true), (2, true), (3, true), (2, false)] {
        mark(rt, set, sector, used);
    }
}

#[test]
fn free_places_are_the_first_that_are_not_used(rt: HostRuntime) -> Result<(), Fail> {
    let mut set = SectorSet::new(rt.alloc(), 6)?;
    assert_same(&rt, "the sectors", set.len(), 6);
    assert_same(&rt, "the free ones", set.free(), 6);
    mark_some(&rt, &mut set);
    let rows = [(0, true), (1, false), (2, false), (3, true), (4, false)];
    assert_used(&rt, &set, "sector", &rows);
    assert_same(&rt, "the free ones then", set.free(), 4);
    assert_places(&rt, rt.alloc(), &set, 3, &[1, 2, 4])?;
    assert_same(&rt, "the free ones at the end", set.free(), 4);
    Ok(())
}

/// Takes both sectors of a set one after the other.
fn take_both(rt: &impl Abort, alloc: Global, set: &mut SectorSet) -> Result<(), Fail> {
    assert_places(rt, alloc, set, 0, &[])?;
    assert_places(rt, alloc, set, 2, &[0, 1])?;
    mark(rt, set, 0, true);
    assert_places(rt, alloc, set, 1, &[1])?;
    mark(rt, set, 1, true);
    assert_places(rt, alloc, set, 0, &[])
}

#[test]
fn the_whole_pool_and_nothing_of_it_are_given(rt: HostRuntime) -> Result<(), Fail> {
    let mut set = SectorSet::new(rt.alloc(), 2)?;
    take_both(&rt, rt.alloc(), &mut set)
}

/// Sees how many places are found in a set of which two are free.
fn want_more(rt: &impl Abort, alloc: Global, set: &SectorSet) -> Result<(), Fail> {
    assert_places(rt, alloc, set, 2, &[0, 2])?;
    assert_too_many(rt, alloc, set, 3)?;
    assert_too_many(rt, alloc, set, u64::MAX)?;
    Ok(())
}

#[test]
fn fewer_free_places_than_are_wanted_are_none(rt: HostRuntime) -> Result<(), Fail> {
    let mut set = SectorSet::new(rt.alloc(), 3)?;
    mark(&rt, &mut set, 1, true);
    want_more(&rt, rt.alloc(), &set)
}

#[test]
fn a_set_without_sectors_has_no_places(rt: HostRuntime) -> Result<(), Fail> {
    let empty = SectorSet::new(rt.alloc(), 0)?;
    assert_same(&rt, "the free ones", empty.free(), 0);
    assert_too_many(&rt, rt.alloc(), &empty, 1)?;
    Ok(())
}

/// Sees that of a set with the ring nothing else is used.
fn assert_ring(rt: &impl Abort, set: &SectorSet) {
    assert_same(rt, "the sectors", set.len(), 36);
    assert_same(rt, "the free ones", set.free(), 4);
    let rows = [
        (0, true),
        (31, true),
        (32, false),
        (33, false),
        (34, false),
        (35, false),
    ];
    assert_used(rt, set, "before sector", &rows);
}

/// Marks two sectors more, and some that are used already or that the set hasn't.
fn assert_marks(rt: &impl Abort, set: &mut SectorSet) {
    set.mark(33);
    set.mark(36);
    set.mark_all([35, 0, 40, 35].as_slice());
    let rows = [
        (0, true),
        (31, true),
        (32, false),
        (33, true),
        (34, false),
        (35, true),
    ];
    assert_used(rt, set, "then sector", &rows);
    assert_same(rt, "the sectors then", set.len(), 36);
    assert_same(rt, "the free ones then", set.free(), 2);
}

#[test]
fn the_ring_and_what_is_marked_are_used(rt: HostRuntime) -> Result<(), Fail> {
    let mut set = SectorSet::with_ring(rt.alloc(), 36)?;
    assert_ring(&rt, &set);
    assert_marks(&rt, &mut set);
    Ok(())
}
