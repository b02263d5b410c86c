//! Places that are given out of a book, given back, released and settled, and slots that a lane names.

use crate::comparing::{assert_same, assert_same_at};
use crate::parts::key;
use grant_book::{Grant, GrantBook, LaneSlots, Pointer, SectorSet, SlotKind, SlotView};
use std::alloc::{AllocError, Global};
use std::process::Abort;
use std::test::Fail;

/// A book of eight sectors, of which 0, 2 and 5 are used.
fn new_book(alloc: Global) -> Result<GrantBook, AllocError> {
    let mut used = SectorSet::new(alloc, 8)?;
    used.mark_all(&[0, 2, 5]);
    Ok(GrantBook::of_used(used))
}

/// Gives out so many places, which are free.
fn given_out(
    rt: &impl Abort,
    alloc: Global,
    book: &mut GrantBook,
    wanted: u64,
) -> Result<Grant, AllocError> {
    assert!(rt; wanted <= book.free());
    book.grant(alloc, wanted)
}

/// Sees which places are given out, in their order, and none behind them.
fn assert_granted(
    rt: &impl Abort,
    alloc: Global,
    book: &mut GrantBook,
    places: &[u64],
) -> Result<(), AllocError> {
    let mut grant = given_out(rt, alloc, book, places.len() as u64)?;
    for place in places {
        assert_same(rt, "the place that comes next", grant.peek(), Some(*place));
        assert_same(rt, "the place that is taken", grant.take(), Some(*place));
    }
    assert_same(rt, "the place behind the last", grant.take(), None);
    Ok(())
}

/// Sees of each sector of a book whether it is used.
fn assert_used(rt: &impl Abort, book: &GrantBook, used: [bool; 8]) {
    for (sector, wanted) in used.iter().enumerate() {
        let sector = sector as u64;
        assert!(rt; sector < book.len());
        assert_same_at(rt, "the use of sector", sector, book.has(sector), *wanted);
    }
}

/// Releases a place that is used.
fn release(rt: &impl Abort, book: &mut GrantBook, place: u64) {
    assert!(rt; place < book.len());
    assert!(rt; book.has(place));
    book.release(place);
}

#[test]
fn the_first_free_places_are_given_out_once(rt: HostRuntime) -> Result<(), Fail> {
    let mut book = new_book(rt.alloc())?;
    assert_same(&rt, "the free ones", book.free(), 5);
    assert_granted(&rt, rt.alloc(), &mut book, &[1, 3, 4])?;
    assert_same(&rt, "the free ones", book.free(), 2);
    assert_granted(&rt, rt.alloc(), &mut book, &[6, 7])?;
    assert_granted(&rt, rt.alloc(), &mut book, &[])?;
    assert_same(&rt, "the free ones", book.free(), 0);
    assert_used(&rt, &book, [true; 8]);
    Ok(())
}

#[test]
fn a_released_place_is_given_out_once_the_book_is_settled(rt: HostRuntime) -> Result<(), Fail> {
    let mut book = new_book(rt.alloc())?;
    release(&rt, &mut book, 2);
    assert_granted(&rt, rt.alloc(), &mut book, &[1, 3])?;
    book.settle();
    assert_same(&rt, "the free ones", book.free(), 4);
    assert_used(
        &rt,
        &book,
        [true, true, false, true, false, true, false, false],
    );
    assert_granted(&rt, rt.alloc(), &mut book, &[2, 4, 6])?;
    Ok(())
}

/// Sees of each sector whether it is used once what is pending is let go.
fn assert_used_after(
    rt: &impl Abort,
    alloc: Global,
    book: &GrantBook,
    used: [bool; 8],
) -> Result<(), AllocError> {
    let mut after = SectorSet::new(alloc, 8)?;
    assert!(rt; after.len() == book.len());
    book.used_after(&mut after);
    for (sector, wanted) in used.iter().enumerate() {
        let sector = sector as u64;
        assert!(rt; sector < after.len());
        let found = after.has(sector);
        assert_same_at(rt, "the use then of sector", sector, found, *wanted);
    }
    Ok(())
}

#[test]
fn what_is_pending_is_used_until_the_book_is_settled(rt: HostRuntime) -> Result<(), Fail> {
    let mut book = new_book(rt.alloc())?;
    release(&rt, &mut book, 5);
    assert_granted(&rt, rt.alloc(), &mut book, &[1])?;
    assert_used(
        &rt,
        &book,
        [true, true, true, false, false, true, false, false],
    );
    assert_same(&rt, "the free ones", book.free(), 4);
    let after = [true, true, true, false, false, false, false, false];
    assert_used_after(&rt, rt.alloc(), &book, after)?;
    book.is_book();
    Ok(())
}

/// Gives out so many places, which are free, takes the first, and gives the others back.
fn give_back(
    rt: &impl Abort,
    alloc: Global,
    book: &mut GrantBook,
    wanted: u64,
    first: u64,
) -> Result<(), Fail> {
    assert!(rt; wanted <= book.free());
    let mut grant = book.grant(alloc, wanted)?;
    let Some(place) = grant.take() else {
        return Err("no place is given out".into());
    };
    book.give_back(grant);
    assert_same(rt, "the one that is kept", place, first);
    Ok(())
}

#[test]
fn places_that_are_given_back_are_free(rt: HostRuntime) -> Result<(), Fail> {
    let mut book = new_book(rt.alloc())?;
    give_back(&rt, rt.alloc(), &mut book, 4, 1)?;
    assert_same(&rt, "the free ones", book.free(), 4);
    assert_used(
        &rt,
        &book,
        [true, true, true, false, false, true, false, false],
    );
    assert_granted(&rt, rt.alloc(), &mut book, &[3, 4, 6])?;
    Ok(())
}

/// What a slot holds that a command with this index wrote, at this place.
fn view(place: u64, written: u32) -> SlotView {
    SlotView {
        pointer: Pointer {
            kind: SlotKind::Plain,
            key: key(6),
            place,
            birth: 3,
        },
        written: Some(written),
    }
}

/// Sees what slots hold.
fn assert_held(rt: &impl Abort, lane: &LaneSlots, wanted: &[(u32, Option<SlotView>)]) {
    for (slot, view) in wanted {
        let found = lane.get(*slot);
        assert_same_at(rt, "what is held in slot", *slot as u64, found, *view);
    }
}

/// Sees that slots 9 and 4 of a lane are named, and what they hold as they are set.
fn assert_set(rt: &impl Abort, alloc: Global) -> Result<(), AllocError> {
    let mut lane = LaneSlots::new(alloc, &[9, 4, 9])?;
    assert_held(rt, &lane, &[(9, None), (4, None), (5, None)]);
    lane.set(9, Some(view(60, 4)));
    assert_held(rt, &lane, &[(9, Some(view(60, 4))), (4, None), (5, None)]);
    lane.set(4, Some(view(61, 7)));
    lane.set(9, None);
    assert_held(rt, &lane, &[(9, None), (4, Some(view(61, 7))), (5, None)]);
    Ok(())
}

#[test]
fn a_named_slot_holds_what_was_set(rt: HostRuntime) -> Result<(), Fail> {
    assert_set(&rt, rt.alloc())?;
    Ok(())
}
