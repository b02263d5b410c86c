//! How a pool comes back from a disk.
//!
//! `import` (`reader`) makes all that was written before last, finds the newest seal that counts, and
//! answers by the pool that its image stands for: no pool where no seal counts, and `Damaged` only where
//! the image stands for none (`StandsFor` of `table_state`). The steps under a seal are those of `sealed`:
//!
//! - its form is looked at;
//! - `flat` reads the five chains of its pages, in the order of the seal's pointers, by `parts`, `records`,
//!   `slots` and `changes`. A chain is damaged where a page isn't one or names a sector again, or where a
//!   record spells nothing of what it should;
//! - `made` makes the pool in memory, where the parts keep the rules that they keep together (`whole`), with
//!   the table that they make (`tables`) and the logs as they were read, and where the whole keeps its own
//!   (`judge`).
//!
//! `judge` looks at no content. It compares the seal's sums and each home's count with the slots that the
//! table counts (`marks`, `judge_counts`, `judge_keys`), and sees that no page, no two blocks and no home
//! that waits share a sector, unless the table counts two blocks under one key (`judge_places`).
//! The pool that is found is sound whatever the disk tells: its numbers are in their ranges.
//!
//! An import takes the time of a sort of what the image names: keys are looked up in maps or by halves, and
//! sectors in lists by sector.
#![tactic(auto)]

mod changes;
mod flat;
mod judge;
mod judge_counts;
mod judge_keys;
mod judge_places;
mod made;
mod marks;
mod parts;
mod reader;
mod records;
mod sealed;
mod slots;
mod tables;
mod whole;

pub use changes::{changes_of, entries_of};
pub use flat::{FlatImage, read_flat};
pub use made::pool_of;
pub use parts::{read_changes, read_entries, read_slots};
pub use reader::import;
pub use records::read_records;
pub use sealed::{find_pool, sealed_pool};
pub use slots::slots_of;
pub use tables::table_of;
pub use whole::hold_together;
