//! The disk and what its pages are read through, and the keys and homes that several tests use.

use ddt_entry::{Entry, Home, Key};
use disk_model::{Disk, Failed, MemDisk};
use page_tree::PlainReader;

/// What the pages of a disk in memory are read through.
pub(crate) type Reader = PlainReader<MemDisk>;

/// A reader of this disk's pages.
pub(crate) fn reader_of(disk: &mut MemDisk) -> Result<Reader, Failed> {
    Ok(PlainReader {
        meter: disk.meter()?,
    })
}

/// The key whose digest has this byte throughout. Keys rise with it.
pub(crate) fn key(byte: u8) -> Key {
    Key {
        digest: [byte; 32],
        len: 9,
    }
}

/// A home at this place, under which so many pointers are counted.
pub(crate) fn home(place: u64, count: u64) -> Home {
    Home {
        place,
        birth: 3,
        since: 1_000,
        count,
    }
}

/// A home of this place and count, where there is one.
pub(crate) fn home_in(row: Option<(u64, u64)>) -> Option<Home> {
    match row {
        None => None,
        Some((place, count)) => Some(home(place, count)),
    }
}

/// The entry of the key of this byte, with such a home.
pub(crate) fn entry(byte: u8, place: u64, count: u64) -> Entry {
    Entry {
        key: key(byte),
        home: home(place, count),
    }
}
