use crate::comparing::{assert_same, assert_same_at};
use ddt_entry::{Key, Pointer, SlotKind};
use slot_table::SlotRecord;
use std::process::Abort;
use table_state::{SLOT_RECORD_BYTES, read_slot, write_slot};

/// The bytes 1 to 32.
const DIGEST: [u8; 32] = [
    1, 2, 3, 4, 5, 6, 7, 8, 9, 10, 11, 12, 13, 14, 15, 16, 17, 18, 19, 20, 21, 22, 23, 24, 25, 26,
    27, 28, 29, 30, 31, 32,
];

/// Lane 3 and slot 258, flagged, length 4,096, digest, place 0x0807060504030201, birth 2^64 - 1, and zeros.
const FLAGGED_RECORD: [u8; SLOT_RECORD_BYTES] = [
    3, 0, 0, 0, 2, 1, 0, 0, 2, 0, 0, 0, 0, 16, 0, 0, 1, 2, 3, 4, 5, 6, 7, 8, 9, 10, 11, 12, 13, 14,
    15, 16, 17, 18, 19, 20, 21, 22, 23, 24, 25, 26, 27, 28, 29, 30, 31, 32, 1, 2, 3, 4, 5, 6, 7, 8,
    255, 255, 255, 255, 255, 255, 255, 255, 0, 0, 0, 0, 0, 0, 0, 0,
];

/// Lane 0 and slot 0, plain, length 1, digest, place 32, birth 1, and zeros.
const PLAIN_RECORD: [u8; SLOT_RECORD_BYTES] = [
    0, 0, 0, 0, 0, 0, 0, 0, 1, 0, 0, 0, 1, 0, 0, 0, 1, 2, 3, 4, 5, 6, 7, 8, 9, 10, 11, 12, 13, 14,
    15, 16, 17, 18, 19, 20, 21, 22, 23, 24, 25, 26, 27, 28, 29, 30, 31, 32, 32, 0, 0, 0, 0, 0, 0,
    0, 1, 0, 0, 0, 0, 0, 0, 0, 0, 0, 0, 0, 0, 0, 0, 0,
];

/// The slot of the flagged record.
const FLAGGED: SlotRecord = SlotRecord {
    lane: 3,
    slot: 258,
    pointer: Pointer {
        kind: SlotKind::Flagged,
        key: Key {
            digest: DIGEST,
            len: 4_096,
        },
        place: 0x0807_0605_0403_0201,
        birth: u64::MAX,
    },
};

/// The slot of the plain record.
const PLAIN: SlotRecord = SlotRecord {
    lane: 0,
    slot: 0,
    pointer: Pointer {
        kind: SlotKind::Plain,
        key: Key {
            digest: DIGEST,
            len: 1,
        },
        place: 32,
        birth: 1,
    },
};

/// Sees that a slot has this record, and the record this slot.
fn assert_record(rt: &impl Abort, what: &str, held: SlotRecord, bytes: [u8; SLOT_RECORD_BYTES]) {
    assert_same(rt, what, write_slot(&held), bytes);
    let read = read_slot(&bytes, u64::MAX, u64::MAX);
    assert_same(rt, what, read, Some(held));
}

#[test]
fn slots_are_these_72_bytes(rt: HostRuntime) {
    assert_record(&rt, "the flagged slot", FLAGGED, FLAGGED_RECORD);
    assert_record(&rt, "the plain slot", PLAIN, PLAIN_RECORD);
}

/// The plain record with another number in the 4 bytes at an offset.
fn plain_with(rt: &impl Abort, offset: usize, number: u32) -> [u8; SLOT_RECORD_BYTES] {
    assert!(rt; offset <= 68);
    let mut bytes = PLAIN_RECORD;
    bytes[offset..offset + 4].copy_from_slice(&number.to_le_bytes());
    bytes
}

/// Numbers in the 4 bytes at an offset, and whether the record is a slot's on a disk of 64 sectors, under group 5.
const FIELDS: [(&str, usize, u32, bool); 18] = [
    ("lane 15", 0, 15, true),
    ("lane 16", 0, 16, false),
    ("slot 65,535", 4, 65_535, true),
    ("slot 65,536", 4, 65_536, false),
    ("kind 0", 8, 0, false),
    ("kind 2", 8, 2, true),
    ("kind 3", 8, 3, false),
    ("length 0", 12, 0, false),
    ("length 4,096", 12, 4_096, true),
    ("length 4,097", 12, 4_097, false),
    ("place 31", 48, 31, false),
    ("place 63 of 64 sectors", 48, 63, true),
    ("place 64 of 64 sectors", 48, 64, false),
    ("place 2^32 and 32", 52, 1, false),
    ("birth 0", 56, 0, false),
    ("birth 5 under group 5", 56, 5, true),
    ("birth 6 under group 5", 56, 6, false),
    ("birth 2^32 and 1", 60, 1, false),
];

/// Sees whether such a record is read.
fn assert_reads(rt: &impl Abort, case: &str, offset: usize, number: u32, is_read: bool) {
    let bytes = plain_with(rt, offset, number);
    let read = read_slot(&bytes, 64, 5);
    assert_same(rt, case, read.is_some(), is_read);
}

#[test]
fn a_field_out_of_its_range_is_no_slot(rt: HostRuntime) {
    for (case, offset, number, is_read) in FIELDS {
        assert_reads(&rt, case, offset, number, is_read);
    }
}

/// Sees that the plain slot is read, with this number in the 4 bytes at an offset.
fn assert_ignored(rt: &impl Abort, offset: usize, number: u32) {
    let bytes = plain_with(rt, offset, number);
    let read = read_slot(&bytes, 33, 1);
    assert_same_at(rt, "with other bytes at", offset as u64, read, Some(PLAIN));
}

#[test]
fn the_last_8_bytes_are_ignored(rt: HostRuntime) {
    for (offset, number) in [(64usize, 1u32), (64, u32::MAX), (68, 1), (68, u32::MAX)] {
        assert_ignored(&rt, offset, number);
    }
}
