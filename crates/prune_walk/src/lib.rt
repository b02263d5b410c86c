//! Which homes a prune takes: of those that one pointer counts, the old ones, or the oldest share.
//!
//! A prune goes by what the table finds of a key: by the active log, then by the flushing log, then by the
//! stored table. So a home that the stored table counts once isn't taken where a log counts it twice or has
//! its key as gone, and one that a log alone has is taken too. All homes of count 1 are put in order of the
//! moment at which they were first counted, and of key where two are of one moment. `Age(d)` takes those that
//! were counted `d` days of 86,400 seconds ago or more, `Share(p)` the first `p` in a hundred, rounded down.
//!
//! The list says which records `Gone` a prune appends to the log. Where a table matches a pool, they are the
//! changes by which the pool's definition of a prune goes, in the same order (`proofs/Pruned.antt`).
#![tactic(auto)]

mod ages;
mod walk;

pub use walk::candidates;
