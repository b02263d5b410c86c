use crate::comparing::assert_same;
use ddt_entry::fields::{array_at, u32_at, u64_at};
use ddt_entry::{
    Change, Entry, Home, Key, KeyOf, MAX_BLOCK_BYTES, Malformed, RECORD_BYTES, Sha256Key, WeakKey,
    key_of, read_change, write_change,
};
use std::alloc::{AllocError, Global};
use std::process::Abort;
use std::test::Fail;

/// A content's key, by the trait's contract alone.
fn key_by<K: KeyOf>(rt: &impl Abort, keyer: &K, content: &[u8]) -> Key {
    assert!(rt; content.len() > 0);
    assert!(rt; content.len() < 100);
    keyer.key(content)
}

/// The number of a key's function, by the trait's contract alone.
fn tag_by<K: KeyOf>(keyer: &K) -> u8 {
    keyer.tag()
}

/// A digest as 64 hex digits.
fn hex_of(alloc: Global, digest: &[u8; 32]) -> Result<String, AllocError> {
    let mut text = String::new(alloc);
    for byte in digest {
        write!(text, "{byte:02x}")?;
    }
    Ok(text)
}

/// Contents, and their published digests.
const DIGESTS: [(&str, &str); 4] = [
    (
        "abc",
        "ba7816bf8f01cfea414140de5dae2223b00361a396177a9cb410ff61f20015ad",
    ),
    (
        "a",
        "ca978112ca1bbdcafac231b39a23dc4da786eff8147c4e72b9807785afee48bb",
    ),
    (
        "b",
        "3e23e8160039594a33894f6564e1b1348bbd7a0088d42c4acb73eeaed59c009d",
    ),
    (
        "c",
        "2e7d2c03a9507ae265ecf5b5356885a53393a2029d241394997265a1a25aefc6",
    ),
];

/// Sees the digest and the length of a content's key.
fn assert_digest(
    rt: &impl Abort,
    alloc: Global,
    content: &str,
    digest: &str,
) -> Result<(), AllocError> {
    let key = key_by(rt, &Sha256Key, content.as_bytes());
    let text = hex_of(alloc, &key.digest)?;
    assert_same(rt, content, text.as_str(), digest);
    assert_same(rt, content, key.len as usize, content.len());
    Ok(())
}

#[test]
fn a_sha256_key_has_the_published_digest(rt: HostRuntime) -> Result<(), Fail> {
    assert_same(&rt, "the function's number", tag_by(&Sha256Key), 1);
    for (content, digest) in DIGESTS {
        assert_digest(&rt, rt.alloc(), content, digest)?;
    }
    Ok(())
}

#[test]
fn contents_of_one_first_byte_and_length_share_a_weak_key(rt: HostRuntime) {
    assert_same(&rt, "the function's number", tag_by(&WeakKey), 255);
    let key = key_by(&rt, &WeakKey, b"ab");
    assert_same(&rt, "the digest's first byte", key.digest[0], 0x61);
    assert_same(&rt, "the digest's last byte", key.digest[31], 0);
    for (content, shares) in [("ac", true), ("bb", false), ("a", false), ("abb", false)] {
        let other = key_by(&rt, &WeakKey, content.as_bytes());
        assert_same(&rt, content, other == key, shares);
    }
}

#[test]
fn keys_are_ordered_by_digest_and_then_by_length(rt: HostRuntime) {
    let mut before = key_by(&rt, &WeakKey, b"a");
    for content in ["aa", "aaa", "b", "bbb", "c"] {
        let key = key_by(&rt, &WeakKey, content.as_bytes());
        assert_same(&rt, content, before < key, true);
        before = key;
    }
}

/// A home whose numbers are these, counted since the moment 1,700,000,000.
fn home_of(place: u64, birth: u64, count: u64) -> Home {
    Home {
        place,
        birth,
        since: 1_700_000_000,
        count,
    }
}

#[test]
fn a_change_is_of_its_key(rt: HostRuntime) {
    let key = key_by(&rt, &WeakKey, b"a");
    let other = key_by(&rt, &WeakKey, b"b");
    let home = home_of(8, 3, 2);
    let made = key_of(&Change::Entry(Entry { key, home }));
    assert_same(&rt, "the key of an entry", made, key);
    let gone = key_of(&Change::Gone(other));
    assert_same(&rt, "the key that is gone", gone, other);
}

/// The bytes 1 to 32.
const DIGEST: [u8; 32] = [
    1, 2, 3, 4, 5, 6, 7, 8, 9, 10, 11, 12, 13, 14, 15, 16, 17, 18, 19, 20, 21, 22, 23, 24, 25, 26,
    27, 28, 29, 30, 31, 32,
];

/// An entry's record: kind 1, length 4,096, digest, place, birth 3, since 1,700,000,000, count 2^64 - 1.
const ENTRY_RECORD: [u8; RECORD_BYTES] = [
    1, 0, 0, 0, 0, 16, 0, 0, 1, 2, 3, 4, 5, 6, 7, 8, 9, 10, 11, 12, 13, 14, 15, 16, 17, 18, 19, 20,
    21, 22, 23, 24, 25, 26, 27, 28, 29, 30, 31, 32, 8, 7, 6, 5, 4, 3, 2, 1, 3, 0, 0, 0, 0, 0, 0, 0,
    0x00, 0xf1, 0x53, 0x65, 0, 0, 0, 0, 255, 255, 255, 255, 255, 255, 255, 255,
];

/// The record of a key that has gone: kind 2, length 1, digest, and 32 zeros.
const GONE_RECORD: [u8; RECORD_BYTES] = [
    2, 0, 0, 0, 1, 0, 0, 0, 1, 2, 3, 4, 5, 6, 7, 8, 9, 10, 11, 12, 13, 14, 15, 16, 17, 18, 19, 20,
    21, 22, 23, 24, 25, 26, 27, 28, 29, 30, 31, 32, 0, 0, 0, 0, 0, 0, 0, 0, 0, 0, 0, 0, 0, 0, 0, 0,
    0, 0, 0, 0, 0, 0, 0, 0, 0, 0, 0, 0, 0, 0, 0, 0,
];

/// A change's record.
fn record_of(rt: &impl Abort, change: &Change) -> [u8; RECORD_BYTES] {
    let len = key_of(change).len;
    assert!(rt; len >= 1);
    assert!(rt; len <= MAX_BLOCK_BYTES);
    let mut bytes = [7; RECORD_BYTES];
    write_change(change, &mut bytes);
    bytes
}

/// The key of this length with the bytes 1 to 32.
fn key_with(len: u32) -> Key {
    Key {
        digest: DIGEST,
        len,
    }
}

/// Sees that a change has this record, and the record this change.
fn assert_record(rt: &impl Abort, what: &str, change: Change, bytes: [u8; RECORD_BYTES]) {
    assert_same(rt, what, record_of(rt, &change), bytes);
    assert_same(rt, what, read_change(&bytes), Ok(change));
}

#[test]
fn records_are_these_72_bytes(rt: HostRuntime) {
    let entry = Change::Entry(Entry {
        key: key_with(4_096),
        home: home_of(0x0102_0304_0506_0708, 3, u64::MAX),
    });
    assert_record(&rt, "the entry", entry, ENTRY_RECORD);
    let gone = Change::Gone(key_with(1));
    assert_record(&rt, "the key that is gone", gone, GONE_RECORD);
}

/// Records, of which the byte at this offset is to be another.
const MALFORMED: [(&str, [u8; RECORD_BYTES], usize, u8); 10] = [
    ("kind 0", ENTRY_RECORD, 0, 0),
    ("kind 3", ENTRY_RECORD, 0, 3),
    ("kind 257", ENTRY_RECORD, 1, 1),
    ("length 0", ENTRY_RECORD, 5, 0),
    ("length 4,097", ENTRY_RECORD, 4, 1),
    ("gone with length 0", GONE_RECORD, 4, 0),
    ("gone with a place", GONE_RECORD, 40, 1),
    ("gone with a birth", GONE_RECORD, 48, 1),
    ("gone with a since", GONE_RECORD, 56, 1),
    ("gone with a count", GONE_RECORD, 71, 1),
];

/// Sees that a record is read, and that it isn't with this byte at this offset.
fn assert_malformed(
    rt: &impl Abort,
    case: &str,
    record: [u8; RECORD_BYTES],
    offset: usize,
    byte: u8,
) {
    assert!(rt; offset < RECORD_BYTES);
    assert_same(rt, case, read_change(&record).is_ok(), true);
    let mut bytes = record;
    bytes[offset] = byte;
    assert_same(rt, case, read_change(&bytes), Err(Malformed));
}

#[test]
fn bytes_that_are_no_record_are_malformed(rt: HostRuntime) {
    for (case, record, offset, byte) in MALFORMED {
        assert_malformed(&rt, case, record, offset, byte);
    }
}

/// Sees that an entry with this length, and with this number as each other, is read back.
fn assert_numbers(rt: &impl Abort, what: &str, len: u32, number: u64) {
    let home = Home {
        place: number,
        birth: number,
        since: number,
        count: number,
    };
    let key = key_with(len);
    let entry = Change::Entry(Entry { key, home });
    let bytes = record_of(rt, &entry);
    assert_same(rt, what, read_change(&bytes), Ok(entry));
}

#[test]
fn an_entry_may_have_any_numbers(rt: HostRuntime) {
    assert_numbers(&rt, "length 1 and zeros", 1, 0);
    assert_numbers(&rt, "length 4,096 and zeros", 4_096, 0);
    assert_numbers(&rt, "the greatest numbers", 4_096, u64::MAX);
}

#[test]
fn numbers_are_read_lowest_byte_first_at_their_offsets(rt: HostRuntime) {
    let bytes = [1, 2, 3, 0, 0, 0xd4, 0xc3, 0xb2, 0xa1, 0, 0, 0, 0, 0, 0, 0];
    let long = 0xa1b2_c3d4_0000_0302;
    assert_same(&rt, "4 bytes at 5", u32_at(&bytes, 5), 0xa1b2_c3d4);
    assert_same(&rt, "8 bytes at 1", u64_at(&bytes, 1), long);
    assert_same(&rt, "8 bytes at 8", u64_at(&bytes, 8), 0xa1);
    assert_same(&rt, "3 bytes at 0", array_at::<3>(&bytes, 0), [1, 2, 3]);
    assert_same(&rt, "2 bytes at 5", array_at::<2>(&bytes, 5), [0xd4, 0xc3]);
}
