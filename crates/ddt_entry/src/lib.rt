//! The entries of a dedup table: keys, homes and changes, as plain data.
//!
//! A block that is written with dedup is stored once, under a key. The key is a digest of the block's
//! content together with its length, so it is a function of the content alone, and `KeyOf` says which.
//! The table maps a key to its home: the block's place, the group that made it, the moment at which its
//! count last became 1, and how many pointers share it. A home of count 0 is waiting: its place is kept
//! until the table's log has been flushed past it. A change is what a log keeps: a new home of a key,
//! or that the key has gone.
//!
//! In an image a change is a record of 72 bytes, all numbers little-endian. `write_change` writes the one
//! record of a change and `read_change` reads it, or answers `Malformed` exactly where the bytes are none.
//! The table of the fields stands in `specs/Records.antt`, and the one spelling in `specs/Spelling.antt`.
//! That a record is read back whatever follows it, and that what is read was spelled so, are the laws
//! `RecordLaws.{written, was_written, length-record, record-AreBytes, reads_first}` of `proofs/`; which
//! bytes are a record by the table, `RecordLaws.{right, wrong}`. A `Pointer` is what a slot holds in an image.
//!
//! That the code's order and test of keys are those of `specs/Keys.antt` are the laws
//! `KeyLaws.{derived_cmp, derived_eq}`: no contract would see two fields of a key change places.
//!
//! `fields` reads a number or a part at an offset of bytes. The words for these, in which each form of an
//! image is written down, stand in `specs/Bytes.antt`, and their laws in `proofs/Bytes.antt`.
//!
//! Every crate that speaks of blocks, or of the bytes of an image, stands on these. Nothing here allocates.
#![tactic(auto)]

mod entry;
pub mod fields;
mod key;
mod record;
mod sha256_key;
mod weak_key;

pub use entry::{Change, Entry, Home, Pointer, SlotKind, key_of};
pub use key::{Key, KeyOf};
pub use record::{MAX_BLOCK_BYTES, Malformed, RECORD_BYTES, read_change, write_change};
pub use sha256_key::Sha256Key;
pub use weak_key::WeakKey;
