//! Images across the crates that write and read them: what one sync leaves, an import gives back.
//!
//! Nothing here is used by another crate. `syncs` syncs groups and imports the pool after each, `crash_tables`
//! crashes the disk at each call of a sync, of groups of no pointer to 200, `statistics` counts a synced pool,
//! and `failures` has calls that fail; `crashes` has what the crash tables share with it. `new_pools` fails and crashes
//! the sealing of a new pool at each call, and `places` has the chains' places. What an import is to
//! give is written out from what was put in; none of it was taken from a run.
//!
//! The tests run over a disk in memory that tells nothing of its contents (`silent_disk`), as the program
//! runs over a file: a sync asks over told contents for what only a proof can give. What a sync asks of a group's
//! numbers is a test here (`in_range`). What is compared goes through `comparing`.
#![tactic(auto)]

#[cfg(test)]
mod comparing;
#[cfg(test)]
mod crash_tables;
#[cfg(test)]
mod crashes;
#[cfg(test)]
mod failures;
#[cfg(test)]
mod groups;
#[cfg(test)]
mod in_range;
#[cfg(test)]
mod new_pools;
#[cfg(test)]
mod places;
#[cfg(test)]
mod silent_disk;
#[cfg(test)]
mod sound_pool;
#[cfg(test)]
mod statistics;
#[cfg(test)]
mod syncs;
