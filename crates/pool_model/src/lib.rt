//! What a pool is, what its commands do, and what a report says: the definitions that every promise of
//! the repository is made in.
//!
//! A pool is a plain list of pointers, one for each slot of a lane that holds a block, and its settings.
//! A count is the length of a filter over these pointers, a statistic a sum, and a run a fold of one
//! command after another. The definitions stand in `specs/`, in the order in which they build on each
//! other: `Pool`, `Stats`, `Table`, `Logs`, `Replaying`, `Plain`, `Command`, `Group`, `Prune`, `Space`, `Run`, `Clash`, `Text`, `File`.
//! Nothing in them knows how pages are written, of locks or of threads; the crates above keep entries,
//! trees and counters instead, and are proved to give what is said here.
//!
//! The laws of these definitions are lemmas in `proofs/`, which the crates above cite: of runs (`Steps`,
//! `Settings`), of a group's turns (`Going`, `Writing`, `Counts`), of the table and its sync (`Synced`,
//! `Waiting`, `Matching`, `Keys`), of its logs (`Replays`), of the premise on clashes (`Clashes`, `Kept`), and of lists (`Lists`,
//! `Members`, `Sorted`).
//!
//! The types in `src/` are the plain data that all crates speak of: commands, answers, notes of what a
//! group did, and statistics. Those that hold a list are seen through a mirror without the list's spare
//! room: `specs/Plain.antt` has the plain values, and `specs/Mirrors.antt` says how commands, items and
//! blocks are seen so.
//!
//! The `Worked..` files beside them hold examples with their whole answers, which the functions of
//! `src/worked.rt` promise: a check computes each anew, so that no definition that breaks one passes it.
//! Nothing calls these functions, and none leaves the crate.
#![tactic(auto)]

mod answers;
mod closed;
mod commands;
mod faults;
mod notes;
mod stats;
mod worked;

pub use answers::{Answers, CommandAnswer, FreeAnswer, ReadAnswer, WriteAnswer};
pub use closed::{ChangeList, Closed, Contents, EntryList, SlotChange, SlotChanges, StoredBlock};
pub use commands::{
    Block, Command, CommandFile, CommandList, Item, ItemList, LanesGroup, Mode, Payload, PruneRule,
    Verb,
};
pub use faults::{GroupFault, SyncFault};
pub use notes::{
    BadKind, GroupNote, GroupNotes, Kind, LaneNote, LaneNotes, Outcome, PlaceList, Session,
};
pub use stats::{BUCKETS, Bucket, Stats};
