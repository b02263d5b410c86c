ghost use Rattle.std.specs.Prelude.{◌≡◌};
ghost use Rattle.ddt_entry.specs.Changes.{key_in};

use crate::key::Key;

/// Where a key's block lies, and how many pointers share it.
#[derive(Clone, Copy, Debug, PartialEq, Eq)]
pub struct Home {
    /// The number of the block's sector.
    pub place: u64,
    /// The number of the group that wrote the block.
    pub birth: u64,
    /// The moment, in seconds, at which the count last became 1 from nothing or from 0.
    pub since: u64,
    /// The pointers that share the block; 0 while the home is waiting.
    pub count: u64,
}

/// A key with its home.
#[derive(Clone, Copy, Debug, PartialEq, Eq)]
pub struct Entry {
    pub key: Key,
    pub home: Home,
}

/// What a log of the table keeps of a key.
#[derive(Clone, Copy, Debug, PartialEq, Eq)]
pub enum Change {
    /// The key's home is this one from now on.
    Entry(Entry),
    /// The key has no home any more.
    Gone(Key),
}

/// How a slot's pointer was written.
#[derive(Clone, Copy, Debug, PartialEq, Eq)]
pub enum SlotKind {
    /// Outside the table: the block is this pointer's alone.
    Plain,
    /// The table counted the pointer when it was written.
    Flagged,
}

/// What a slot of a lane holds in an image.
#[derive(Clone, Copy, Debug, PartialEq, Eq)]
pub struct Pointer {
    /// How the pointer was written.
    pub kind: SlotKind,
    /// The key of the block's content.
    pub key: Key,
    /// The number of the block's sector.
    pub place: u64,
    /// The number of the group that wrote the block.
    pub birth: u64,
}

/// The key that a change is of.
pub fn key_of(change: &Change) -> Key
    ensures { result ≡ key_in change.now }
{
    match change {
        Change::Entry(entry) => entry.key,
        Change::Gone(key) => *key,
    }
}
