//! The stored table in two classes, as one map from keys to homes.
//!
//! A home that one pointer counts stands in the unique class, one that more count in the duplicate class, and
//! no key stands in both. So who walks the homes that are counted once, as a prune does, meets no other. A
//! contract sees both classes as one list of entries, sorted by key; which class an entry stands in is its
//! count's affair alone (`specs/Classes.antt`). `put` moves a key where its count asks for it.
//!
//! Each class is a map of its own (`plain_table::HomeMap`), as each will be an object on pages of its own; over
//! maps in memory a look-up or a change takes a time of the logarithm of their sizes in both. The number of
//! entries, of those of each class, and of the pointers that the homes count together are kept, and told at
//! once. Calls take the disk and a reader of its pages, though no sector is read yet. `find` and `take_out` then never fail,
//! and `put` and `entries` fail for want of memory alone. `home_of` and `listed` are `find` and `entries` for
//! who has no disk at hand.
//!
//! Laws of `proofs/`: a sorted list comes back of the entries that pass a test and of those that don't
//! (`Splits.merged-split`), and each class of a table in which a home is set or a key is dropped is the old
//! one with that home set or that key dropped (`Classed.{unique_in-set, duplicate_in-set, unique_in-drop,
//! duplicate_in-drop}`). That a table's keys go on rising, and what is then found of a key, are laws of
//! `pool_model` (`Sorted.rising_put`, `Finding.{entry_at-set, entry_at-drop}`).
#![tactic(auto)]

mod classes;
mod merging;

pub use classes::Classes;
