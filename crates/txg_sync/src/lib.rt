//! How a pool comes to be on a disk, and how a group is synced, so that a crash at any moment leaves the pool
//! before or the one after it.
//!
//! `sync` plans first (`plan_group`): it takes all memory, changes the slots and the table of the pool in
//! memory in place (`set_slots`, `sync_table`), makes the records of the five chains and the seal, and
//! chooses a sector for each page that nothing in the newest sealed image names. Then it writes
//! (`seal_group`), which takes no memory. The seal goes into the slot of the ring that its group has. All
//! but the gate comes first (`fill_group`), and leaves the group before whatever happens: the slot is taken,
//! its gate closed where it reads open, and a barrier made; the blocks, the chains and the body are written,
//! and a barrier made. Then the gate is opened, and a barrier made. `create` does so for the empty pool of
//! group 1. After a fault the pool in memory is given up.
//!
//! `specs/Planning.antt` says what is going to be written, `specs/Writing.antt` and `specs/Stages.antt` what
//! each stage may leave, and `specs/Syncing.antt` and `specs/Creating.antt` what a sync and a creation come to.
//! A fault tells on which side of the gate's write it was: until then what stood stands.
#![tactic(auto)]

mod begin;
mod chain_records;
mod creating;
mod fault;
mod fill;
mod fits;
mod group;
mod group_seal;
mod next_slots;
mod part;
mod places;
mod planning;
mod store;
mod syncing;
mod table_step;
mod take;
mod used;

pub use begin::seal_new_pool;
pub use chain_records::records_of;
pub use creating::create;
pub use fault::SealFault;
pub use fill::fill_slot;
pub use fits::{entries_fit, logs_fit, slots_fit};
pub use group::{fill_group, seal_group};
pub use group_seal::seal_of;
pub use next_slots::set_slots;
pub use part::ChainPages;
pub use places::place_chains;
pub use planning::{Plan, plan_group};
pub use store::{store_group, write_blocks, write_parts};
pub use syncing::sync;
pub use table_step::sync_table;
pub use take::take_slot;
pub use used::used_after;
