use crate::commands::{Block, Mode};
use ddt_entry::{Change, Entry, Pointer};
use reserved_list::ReservedList;

/// Entries of the table.
pub type EntryList = ReservedList<Entry>;

/// Changes of the table.
pub type ChangeList = ReservedList<Change>;

/// The slots that a group changed, each once or more: the last change of a slot counts.
pub type SlotChanges = ReservedList<SlotChange>;

/// The blocks that a group wrote.
pub type Contents = ReservedList<StoredBlock>;

/// What a slot of a lane holds from now on.
#[derive(Clone, Copy, Debug, PartialEq, Eq)]
pub struct SlotChange {
    /// The number of the lane, below 16.
    pub lane: u32,
    /// The number of the slot, below 65,536.
    pub slot: u32,
    /// What the slot holds, or nothing.
    pub pointer: Option<Pointer>,
}

/// A block with the place that it was given.
#[derive(Drop)]
pub struct StoredBlock {
    /// The number of the block's sector.
    pub place: u64,
    /// The bytes, 1 to 4,096 of them.
    pub block: Block,
}

/// What a group that was closed leaves to its sync.
#[derive(Drop)]
pub struct Closed {
    /// What changes in the table.
    pub changes: ChangeList,
    /// What changes in the slots, in the order of the changes.
    pub slots: SlotChanges,
    /// The blocks that have to be written.
    pub contents: Contents,
    /// The quota after the group, in bytes at 256 a key.
    pub quota: Option<u64>,
    /// The mode of each lane after the group.
    pub modes: [Mode; 16],
}
