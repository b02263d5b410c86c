use crate::commands::Block;
use reserved_list::ReservedList;

/// A lane's answers in one group, in the order of its commands.
pub type Answers = ReservedList<CommandAnswer>;

/// What a write answers.
#[derive(Clone, Copy, Debug, PartialEq, Eq)]
pub enum WriteAnswer {
    /// The key got a home with this write.
    New,
    /// The key's home has one pointer more.
    Hit,
    /// A new entry would pass the quota: the block is stored without one.
    Quota,
    /// The key's home has other bytes: the block is stored beside it.
    Clash,
    /// The lane doesn't use the table.
    Off,
    /// The slot holds a pointer already, and nothing was done.
    Taken,
    /// A read of the device failed, and nothing was done.
    Fault,
    /// The block at this place lacks its key, and nothing was done.
    Damaged(u64),
}

/// What a free answers.
#[derive(Clone, Copy, Debug, PartialEq, Eq)]
pub enum FreeAnswer {
    /// The key's home has one pointer less.
    Counted,
    /// The table doesn't count this pointer any more: its place is released.
    Loose,
    /// The pointer was outside the table: its place is released.
    Freed,
    /// The slot holds nothing.
    Empty,
    /// A read of the device failed, and nothing was done.
    Fault,
    /// What was read at this sector lacks its digest or form, and nothing was done.
    Damaged(u64),
}

/// What a read answers.
#[derive(Drop)]
pub enum ReadAnswer {
    Bytes(Block),
    /// The slot holds nothing.
    Empty,
    /// A read of the device failed.
    Fault,
    /// The block at this place lacks its key.
    Damaged(u64),
}

/// What a command answers.
#[derive(Drop)]
pub enum CommandAnswer {
    Write(WriteAnswer),
    Free(FreeAnswer),
    Read(ReadAnswer),
}
