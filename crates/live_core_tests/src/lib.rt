//! The core of a group at work: every row of its table of steps, a long walk beside a slow machine, and a lock round a core.
//!
//! Nothing here is used by another crate. `group` is a core of eight keys that takes any step that is allowed; `rows` has the
//! table; `slow` answers a step by the history alone, and `walk` chooses steps for both. `behind_lock` has a core in a lock, and
//! `at_once` runs its lanes in threads; `trace` makes one number of what a lane was told.
#![tactic(auto)]

#[cfg(test)]
mod at_once;
#[cfg(test)]
mod behind_lock;
#[cfg(test)]
mod group;
#[cfg(test)]
mod rows;
#[cfg(test)]
mod slow;
#[cfg(test)]
mod trace;
#[cfg(test)]
mod walk;
