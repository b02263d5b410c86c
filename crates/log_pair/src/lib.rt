//! The two logs of the dedup table, each as the list that it was appended to and as a sorted list.
//!
//! A change goes to the active log. While that one grows, the flushing log is brought to the stored table
//! in pieces, in key order; once nothing is left of it, it is emptied, and the logs can swap. What the
//! table finds goes by the sorted lists: `active` has the last change of each key of the active log, and
//! `flush` what is left of the flushing log, the last change of each key that is above the checkpoint and
//! that the active log doesn't name. So a change that comes while its key is in the flushing log takes
//! the key's place there.
//!
//! The lists are not written. They are made again from the logs as they were appended (`replay`), and the
//! checkpoint tells which records left: a record that leaves sets it (`pop_flush`), and only a log that
//! is emptied or swapped loses it. At every moment the lists are what the logs are replayed to; this is
//! the type's invariant, and `replays` tells it.
//!
//! Each list is an ordered map (`plain_table::ChangeMap`), so that a key is looked up, set and dropped in
//! logarithmic time. `walk` goes over a list in key order in time that is its length; `change` finds the
//! change at an index, and steps over all that stand before it. `homes_found` lays both lists over sorted
//! homes, in time that is the length of all. `kept` shows a log as it was appended.
//!
//! A contract sees the pair as a `Paired` (`specs/Paired.antt`). Laws of `proofs/PairLaws.antt` lead from
//! the calls to the steps of the table's sync.
#![tactic(auto)]

mod pair;

pub use pair::LogPair;
