//! What `stat` prints of a pool, from its pointers' keys and standings alone.
//!
//! The keys that the table counts are sorted, so that equal keys stand side by side; one walk over them
//! makes a list of keys with their counts, and each number of the report is then a sum over that list or
//! over the pointers. With n pointers this takes n log n comparisons, and 21 steps a key for the buckets.
//!
//! Whoever keeps a table keeps `RunningTotals` beside it: the sums over its counted homes, each of which one
//! change of a home takes 21 steps to follow, for the buckets (`proofs/HomeSums.antt`), and which tell the
//! statistics at once (`proofs/HomeStats.antt`).
//!
//! No content is looked at, so whoever knows of each pointer its key and how the table knows it can ask:
//! a pool in memory as well as one whose blocks stay on a disk. The contract is the definition `stats_of`
//! of `pool_model`, of every pool whose pointers look so.
#![tactic(auto)]

mod counts;
mod reference;
mod running;
mod totals;

pub use reference::{Reference, Standing};
pub use running::{KeySum, RunningTotals};
pub use totals::stats;
