use reserved_list::ReservedList;

/// The bytes of a block, 1 to 4,096 of them.
pub type Block = ReservedList<u8>;

/// A group's commands, in the order of the command file.
pub type CommandList = ReservedList<Command>;

/// The items of a command file, in order.
pub type ItemList = ReservedList<Item>;

/// How a lane's writes use the dedup table.
#[derive(Clone, Copy, Debug, PartialEq, Eq)]
pub enum Mode {
    /// Not at all: each write takes a place of its own.
    Off,
    /// By the key alone.
    On,
    /// By the key, and only where the bytes are equal too.
    Verify,
}

/// What a write stores.
#[derive(Drop)]
pub enum Payload {
    Bytes(Block),
    /// One byte, so many times.
    Repeat { byte: u8, times: u32 },
}

/// What a command does.
#[derive(Drop)]
pub enum Verb {
    Write(Payload),
    Read,
    Free,
}

/// One command of a lane on one of its slots. There are 16 lanes of 65,536 slots.
#[derive(Drop)]
pub struct Command {
    pub lane: u32,
    pub slot: u32,
    pub verb: Verb,
}

/// The commands of one group, at a moment in seconds.
#[derive(Drop)]
pub struct LanesGroup {
    pub moment: u64,
    pub commands: CommandList,
}

/// Which unique homes a prune takes.
#[derive(Clone, Copy, Debug, PartialEq, Eq)]
pub enum PruneRule {
    /// Those that are at least so many days old.
    Age(u64),
    /// The oldest, so many in a hundred.
    Share(u64),
}

/// One item of a command file.
#[derive(Drop)]
pub enum Item {
    Create,
    Lanes(LanesGroup),
    Prune { moment: u64, rule: PruneRule },
    /// The most that the table may take, in bytes at 256 a key.
    Quota(Option<u64>),
    SetMode { lane: u32, mode: Mode },
    Stat,
    Import,
}

/// A whole command file.
#[derive(Drop)]
pub struct CommandFile {
    pub items: ItemList,
}
