//! The parts of a pool, each by itself.
//!
//! Nothing here is used by another crate. `slots` has the slots of all lanes, `classes` the stored table in its two
//! classes, `log_lists` one log, `two_logs` the pair of logs, and `flushes` the records that leave a log for the stored
//! table. `places` has the book that places are given out of, and the slots that a lane names. Each call of theirs that
//! takes memory could give up each time, and its contract would hold: so each is made here with ample memory, and a
//! refusal fails the test. What is wanted is written out by hand from what was put in. `parts` has the disk, the keys
//! and the homes that several of them use, and what is compared goes through `comparing`.
#![tactic(auto)]

#[cfg(test)]
mod classes;
#[cfg(test)]
mod comparing;
#[cfg(test)]
mod flushes;
#[cfg(test)]
mod log_lists;
#[cfg(test)]
mod parts;
#[cfg(test)]
mod places;
#[cfg(test)]
mod slots;
#[cfg(test)]
mod two_logs;
