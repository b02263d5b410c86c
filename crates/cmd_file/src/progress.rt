use pool_model::{Command, Item};
use std::alloc::Global;

/// A group of which `end` was not read yet, at a moment in seconds.
#[derive(Drop)]
pub struct OpenGroup {
    pub moment: u64,
    pub commands: Vec<Command>,
}

/// What was read of a file without the group that is open: how many lines, the items that ended, in order, and
/// how many reads there were.
#[derive(Drop)]
pub struct Done {
    pub lines: u64,
    pub items: Vec<Item>,
    pub reads: u64,
}

/// What was read of a file so far, with the group that is open, if one is.
#[derive(Drop)]
pub struct Progress {
    pub done: Done,
    pub group: Option<OpenGroup>,
}
