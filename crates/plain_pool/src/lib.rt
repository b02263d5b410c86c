//! A pool in memory, as a plain, slow program over a sorted list of pointers.
//!
//! Each function does what its definition in `pool_model` says, in the definition's own words and order,
//! and its contract is that very definition: the list is searched from the front, and nothing is kept
//! that can be counted afresh. A contract sees each type here as the definitions' own: a `PlainPointer`
//! as a `Pointer`, and a `PlainPool` as a `Pool`.
//!
//! `plain_run` runs whole groups over it, for tests that compare a faster body with the definitions.
#![tactic(auto)]

mod pointer;
mod pool;
mod prune;
mod stats;

pub use pointer::{Mark, PlainPointer, copied_block};
pub use pool::{LANES, PlainPool};
