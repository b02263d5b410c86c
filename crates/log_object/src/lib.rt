//! One log of the dedup table: the list of all changes that were appended to it since it was last empty.
//!
//! A log keeps each change in the order in which it came, also where its key was changed before: nothing
//! in it is overwritten, so that a sync only adds at its end. What counts of it, the last change of each
//! key, is made from the whole list when a pool comes back. A log that is being flushed has a checkpoint
//! besides, the last key that has left it: its list stays whole until nothing is left to flush, and only
//! then is it emptied. So the number of changes in a log is not the number of its keys.
//!
//! A contract sees a log as a record of its changes and its checkpoint. The list is held in memory for
//! now, and no call reads a sector: a pool that comes back makes an empty log and appends to it. The
//! calls already take the disk and what its pages are read through.
//!
//! `log_pair` stands on this crate.
#![tactic(auto)]

mod object;

pub use object::LogObject;
