//! How a group's commands are run over a pool in memory, up to what its sync needs.
//!
//! `run_group_plain` opens a group of writes, runs its lanes one after another, and closes it. While it runs
//! nothing is written: the pool in memory stays as the newest sealed group left it, and what the commands do
//! is kept beside it. What comes out is a note with an answer for each command, and a `Closed`: the table's
//! changes, the slots' changes, and the new blocks at places that were free, which `txg_sync` seals.
//!
//! `specs/Groups.antt` says what that comes to: the answers are those of the definitions' run from what the
//! image stands for, and so are the pool and the table once the group is sealed.
#![tactic(auto)]

mod beginning;
mod block;
mod choosing;
mod closing;
mod ending;
mod lane;
mod live;
mod metering;
mod run;
mod writing;

pub use run::run_group_plain;
