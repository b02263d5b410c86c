//! Maps from keys to homes and to changes, and the dedup table that a slow program makes of three of them.
//!
//! A `HomeMap` and a `ChangeMap` are ordered maps, which a contract sees as lists that rise by key. So a look-up or
//! a change takes a time of the logarithm of the size, and a list takes its length; a copy sets each key anew.
//! `last_changes` and `left_in` make such maps of what was appended to logs, `laid_over` lays a map of changes over
//! a list of homes in one walk, and `counted` keeps those homes that pointers are counted of. The stored table of a
//! pool in memory, its logs and a group that runs stand on these.
//!
//! A `PlainTable` is the table of the slow program. Its stored table has the homes that are counted, the active log
//! what the last groups changed, and the flushing log what is on its way from one to the other. A key's home is
//! looked up in the active log, then in the flushing log, then in the stored table. A sync logs a group's changes,
//! flushes some of the flushing log, and swaps the logs when the active one is due. Each function does what its
//! definition in `pool_model` says, and its contract is that very definition; a contract sees a `PlainTable` as a
//! `TableState`. Beside it stand its logs as they are kept (`KeptLogs`): every change in the order in which it was
//! appended, until the log is emptied. `sync_logged` is a sync of both.
#![tactic(auto)]

mod change_map;
mod counting;
mod home_map;
mod laying;
mod logged;
mod merging;
mod replaying;
mod sync;
mod table;

pub use change_map::ChangeMap;
pub use counting::{count_entries, counted};
pub use home_map::HomeMap;
pub use laying::laid_over;
pub use logged::{KeptLogs, LoggedPlainTable, sync_logged};
pub use merging::{push_all, push_below};
pub use replaying::{last_changes, left_in};
pub use sync::{SWAP_AGE, SWAP_KEYS};
pub use table::{PlainTable, found_over};
