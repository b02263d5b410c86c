//! The second step of a sync of the dedup table: the first records of the flushing log come to the stored
//! table.
//!
//! Records leave in key order, so many at the most as the sync asks for. A home that is counted is set in
//! the stored table; a home of no pointer, or a key that has gone, is taken out of it. A home of no pointer
//! kept its place until now, since a write of its content could have taken it up again: as its record
//! leaves, the place is released, and the caller gets the places of all such records. A record whose key the
//! active log has changed since isn't in the list any more, so no place is released that is in use again.
//!
//! The last key that left is the checkpoint, and the log keeps its records until the list is empty. Then it
//! is emptied here, and has no checkpoint.
//!
//! The sync of a pool's table in memory, `txg_sync::sync_table`, stands on this crate. It has no use for the places yet:
//! it finds anew which sectors are used.
#![tactic(auto)]

mod flushing;

pub use flushing::flush;
