use ddt_entry::Pointer;
use reserved_list::ReservedList;

/// Which slot of which lane. Places are ordered by lane, and then by slot.
#[derive(Clone, Copy, Debug, PartialEq, Eq, PartialOrd, Ord)]
pub struct SlotPlace {
    /// The number of the lane.
    pub lane: u32,
    /// The number of the slot in its lane.
    pub slot: u32,
}

/// A slot that holds a pointer.
#[derive(Clone, Copy, Debug, PartialEq, Eq)]
pub struct SlotRecord {
    /// The number of the lane.
    pub lane: u32,
    /// The number of the slot in its lane.
    pub slot: u32,
    /// What the slot holds.
    pub pointer: Pointer,
}

/// Slots that hold a pointer.
pub type SlotList = ReservedList<SlotRecord>;
