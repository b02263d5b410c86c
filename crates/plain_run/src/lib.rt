//! The definitions of `pool_model` as a plain, slow program: whole groups, and what stands after them.
//!
//! Each function does what its definition says, in the definition's own words and order, and its
//! contract is that very definition. A group is run one command after another, with the pools before
//! each kept as copies, since the definition looks a key's home up in them; its changes go to the table in
//! memory. Nothing here is meant to be fast: tests run it beside a faster body and compare the two, row by
//! row. A contract sees each type as the definitions' own, as a `PlainCourse` as a `Course`.
#![tactic(auto)]

mod answer;
mod changes;
mod course;
mod fresh;
mod group;
mod opening;
mod row;
mod standing;

pub use answer::PlainAnswer;
pub use course::PlainCourse;
pub use fresh::PlaceQueue;
pub use group::{after_lanes, writes_contents};
pub use opening::{PlacedBlock, PlainKnown, PlainOpening};
pub use standing::PlainStanding;
