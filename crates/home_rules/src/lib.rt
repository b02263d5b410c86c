//! The rules by which a group's commands use the homes of the table.
//!
//! A write finds at most one home of its key. By the mode of the lane, the quota, the home's count and, where
//! the lane verifies, the comparison of the home's block, it answers and puts its pointer somewhere: at the
//! home, at a fresh place, or nowhere (`row`). Once the group is over, the keys that it named are put in order,
//! each once (`keys`), the home that each has by then is compared with the one in the table, and what differs is
//! a change for the table's log (`changes`).
//!
//! The rules know nothing of pools, blocks or devices: they take a home, tests' values and counts, and each is
//! the definition of the same name. So the slow program of `plain_run` and the lanes of `lane_run` share
//! them, and differ only in how they find the home, count the keys and place the pointer.
#![tactic(auto)]

mod changes;
mod keys;
mod row;

pub use changes::{change_from, settled};
pub use keys::with_key;
pub use row::{
    Row, Spot, fault_row, home_row, new_row, off_row, table_row, taken_row, verified_row,
};
