use crate::comparing::{assert_same, assert_same_at};
use reserved_list::ReservedList;
use std::alloc::{AllocError, Global};
use std::process::Abort;
use std::test::Fail;

/// Sees that a list has nothing.
fn assert_empty(rt: &impl Abort, list: &mut ReservedList<u64>) {
    assert_same(rt, "whether it is empty", list.is_empty(), true);
    assert_same(rt, "what is taken of it", list.pop(), None);
}

/// Puts 7, 8 and 9 into a list.
fn push_three(list: &mut ReservedList<u64>) -> Result<(), AllocError> {
    list.reserve(3)?;
    list.push(7);
    list.push(8);
    list.push(9);
    Ok(())
}

/// What a list of 7, 8 and 9 has at each index.
const ITEMS: [(u64, Option<u64>); 5] = [
    (0, Some(7)),
    (1, Some(8)),
    (2, Some(9)),
    (3, None),
    (u64::MAX, None),
];

/// Sees that a list has 7, 8 and 9.
fn assert_three(rt: &impl Abort, list: &ReservedList<u64>) {
    assert_same(rt, "whether it is empty", list.is_empty(), false);
    assert_same(rt, "its length", list.len(), 3);
    for (at, item) in ITEMS {
        assert_same_at(rt, "its item at", at, list.get(at).copied(), item);
    }
}

/// A list of 7, 8 and 9, of which no more is seen.
fn three(alloc: Global) -> Result<ReservedList<u64>, AllocError> {
    let mut list = ReservedList::<u64>::new(alloc);
    push_three(&mut list)?;
    Ok(list)
}

#[test]
fn a_list_has_what_was_pushed(rt: HostRuntime) -> Result<(), Fail> {
    let mut list = ReservedList::<u64>::new(rt.alloc());
    assert_empty(&rt, &mut list);
    push_three(&mut list)?;
    assert_three(&rt, &list);
    Ok(())
}

/// Takes the last item, and sees that what is left stays where no more room can be had.
fn take_last(rt: &impl Abort, list: &mut ReservedList<u64>) {
    assert_same(rt, "the last item", list.pop(), Some(9));
    let refused = list.reserve(u64::MAX).is_err();
    assert_same(rt, "whether too much room is refused", refused, true);
    assert_same(rt, "the others", list.as_slice(), [7, 8].as_slice());
}

/// Sees that a list has 7 and 8, and then nothing.
fn take_two(rt: &impl Abort, list: &mut ReservedList<u64>) {
    assert_same(rt, "the last item", list.pop(), Some(8));
    assert_same(rt, "the first item", list.pop(), Some(7));
    assert_same(rt, "what is taken then", list.pop(), None);
}

#[test]
fn a_list_gives_back_what_was_pushed(rt: HostRuntime) -> Result<(), Fail> {
    let mut list = three(rt.alloc())?;
    take_last(&rt, &mut list);
    let vector = list.into_vec();
    let kept = vector.as_slice();
    assert_same(&rt, "the vector", kept, [7, 8].as_slice());
    let has_room = vector.capacity() >= 3;
    assert_same(&rt, "whether the room is kept", has_room, true);
    let mut again = ReservedList::from_vec(vector);
    take_two(&rt, &mut again);
    Ok(())
}

#[test]
fn a_list_holds_lists(rt: HostRuntime) -> Result<(), Fail> {
    let mut inner = ReservedList::<u8>::new(rt.alloc());
    inner.reserve(1)?;
    inner.push(5);
    let mut outer = ReservedList::<ReservedList<u8>>::new(rt.alloc());
    outer.reserve(1)?;
    outer.push(inner);
    let found = outer.get(0).ok_or("the list has an item")?;
    assert_same(&rt, "the list in it", found.as_slice(), [5].as_slice());
    Ok(())
}
