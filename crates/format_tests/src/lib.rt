//! What stands on a disk, below the sync and the import: tests of the crates that write and read it.
//!
//! Nothing here is used by another crate. `records`, `pointers`, `chains`, `readers`, `seals`, `ring`, `seal_forms` and
//! `slot_records` have the forms of an image, byte by byte; `disks` has the disk in memory with its faults and crashes,
//! `reserved_lists` and `sector_sets` the lists and sets that the others stand on. They are one crate, apart from
//! what they test, since a crate with tests is proved a second time for them. Expected bytes are written out by hand
//! from docs/FORMAT.md, and published digests from the standard. What is compared goes through `comparing`; `bodies`
//! has the sectors and the slots of a ring that several of them use.
#![tactic(auto)]

#[cfg(test)]
mod bodies;
#[cfg(test)]
mod chains;
#[cfg(test)]
mod comparing;
#[cfg(test)]
mod disks;
#[cfg(test)]
mod pointers;
#[cfg(test)]
mod readers;
#[cfg(test)]
mod records;
#[cfg(test)]
mod reserved_lists;
#[cfg(test)]
mod ring;
#[cfg(test)]
mod seal_forms;
#[cfg(test)]
mod seals;
#[cfg(test)]
mod sector_sets;
#[cfg(test)]
mod slot_records;
