use crate::comparing::assert_same;
use arrayvec::ArrayVec;
use page_tree::front::{full_array, pad_to, put};
use page_tree::{FindFault, PageFault, PagePtr};
use std::alloc::AllocError;

/// A pointer to a sector whose bytes all differ, with a digest that begins with 1 and ends with 2.
fn sample() -> PagePtr {
    let mut digest = [7u8; 32];
    digest[0] = 1;
    digest[31] = 2;
    PagePtr {
        sector: 0x0102_0304_0506_0708,
        digest,
    }
}

#[test]
fn a_pointer_is_its_sector_and_then_its_digest(rt: HostRuntime) {
    let bytes = sample().to_bytes();
    let (front, rest) = bytes.split_at(9);
    let sector = [8, 7, 6, 5, 4, 3, 2, 1, 1];
    assert_same(&rt, "the sector", front, sector.as_slice());
    assert_same(&rt, "the digest's second byte", rest[0], 7);
    assert_same(&rt, "the digest's last byte", bytes[39], 2);
    assert_same(&rt, "the pointer", PagePtr::from_bytes(&bytes), sample());
}

#[test]
fn the_null_pointer_is_forty_zeros(rt: HostRuntime) {
    assert_same(&rt, "its bytes", PagePtr::NULL.to_bytes(), [0; 40]);
    let read = PagePtr::from_bytes(&[0; 41]);
    assert_same(&rt, "the pointer of zeros", read, PagePtr::NULL);
}

#[test]
fn a_front_is_its_parts_and_zeros(rt: HostRuntime) {
    let mut front = ArrayVec::<u8, 16>::new();
    put(&mut front, &[1, 2, 3]);
    pad_to(&mut front, 5);
    put(&mut front, &0xa1b2_c3d4_u32.to_le_bytes());
    pad_to(&mut front, 16);
    let bytes = full_array(front);
    let expected = [1, 2, 3, 0, 0, 0xd4, 0xc3, 0xb2, 0xa1, 0, 0, 0, 0, 0, 0, 0];
    assert_same(&rt, "the front", bytes, expected);
}

#[test]
fn a_fault_stays_the_same_where_memory_is_needed_too(rt: HostRuntime) {
    let unread = PageFault::from(FindFault::ReadFault);
    assert_same(&rt, "the failed read", unread, PageFault::ReadFault);
    let damage = PageFault::from(FindFault::Damaged(9));
    assert_same(&rt, "the damage", damage, PageFault::Damaged(9));
    let starved = PageFault::from(AllocError);
    assert_same(&rt, "the want of memory", starved, PageFault::Memory);
}
