//! What an image stands for: a pool of pointers, with the state of its table.
//!
//! `specs/Flat.antt` says it for version 0 of the image, in which five chains of pages keep the slots,
//! the two classes of the stored table and the two logs, as one record, `StandsFor`: the seal that
//! counts has the form, its chains are read in order, their records spell these slots, entries and
//! changes, these keep the rules together, and the pool and the table are made of them so. Where a
//! seal counts and the record can't be met, the image is damaged.
//!
//! Laws of `proofs/` say that an image stands for one pool at the most, `FlatLaws.{one_state}`, and that
//! this hangs on nothing but the seal, the pages that it names and the blocks of its pointers,
//! `Kept.{state_kept}`. So a sync that writes elsewhere leaves it, and needs no word about bytes. An image
//! in which the seal of a new pool counts stands for the empty pool, `Created.{stands_for_empty}`. And once
//! the seal of a group counts, over the chains and blocks that `specs/Sealed.antt` says, the image stands
//! for the pool of the group, by that seal, `Stands.{sealed_stands, sealed_by, sealed_keeps}`.
//!
//! `seal_form` judges a seal, `setting` has the byte of a mode, from which the mode is read back by
//! `SealBack.{mode_back}`, and `sector_of` is a block as a sector has it. `slot_record` is the record of a
//! slot: it is read back whatever follows, and what is read was spelled so up to the last 8 bytes, by the
//! laws `SlotLaws.{written, was_written, length-slot, slot-AreBytes, alike}`; which bytes are one by the
//! table of `specs/SlotRecords.antt`, `SlotLaws.{right, wrong}`.
//!
//! A `Pool` is a pool in memory, as the newest sealed group left it: its slots, its table (`DedupTable`, of the
//! classes, the two logs and an age), how many keys are counted, the sectors of its pages, the book of its
//! sectors, and the settings. A contract sees it as a `Held` (`specs/Pools.antt`). It tells what a group needs
//! and what is free by kept numbers.
//!
//! Lemmas in `proofs/` lead from a pool in memory that is held over an image to what a group needs of it:
//! `SoundOf`, `SlotsOf`, `UnusedOf`, `MarksOf`, `Refilled`, `BlocksOf`, `RoomLaws`.
#![tactic(auto)]

mod block;
mod pool;
mod room;
mod seal_form;
mod setting;
mod slot_record;
mod table;

pub use block::sector_of;
pub use pool::Pool;
pub use seal_form::{IMAGE_VERSION, LAST_GROUP, MOST_SECTORS, is_formed, new_seal};
pub use setting::{byte_of, mode_of};
pub use slot_record::{SLOT_RECORD_BYTES, key_fits, read_slot, slot_fits, write_slot};
pub use table::{DedupTable, found_in};
