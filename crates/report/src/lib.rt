//! The report: what a session prints of each item that ended.
//!
//! `write_item` writes the text of one item to a sink, once the item ended: of a group what its note
//! says, with a line for each command and its answer, and of any other item the numbers of the pool that
//! stands. The text is that of the definitions in `pool_model`, word for word. It is written line by line,
//! each in one piece, but for a line that has a block's bytes. Each function that writes promises the
//! same: the whole text was written, or after a failed write some front of it.
//!
//! Where the numbers handed to `write_item` are a pool's own, the text is that of the item and the pool: the law
//! `ItemLemmas.{text_of-pool}` of `proofs/`.
//!
//! A line is a short list of words, which are put together on the stack: nothing here takes memory, so a
//! group that was sealed is reported whatever memory there is. The session calls this crate after each
//! item, and nothing else prints a report.
#![tactic(auto)]

mod commands;
mod item;
mod lanes;
mod stat;
mod words;

pub use item::write_item;
pub use stat::NO_STATS;
