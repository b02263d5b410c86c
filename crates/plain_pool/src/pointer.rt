ghost use Rattle.std.specs.Prelude.{◌≡◌, IfOk};
ghost use Rattle.pool_model.specs.Pool.{is_tracked, is_plain, is_loose, since_of, is_at, tracks, comes_before};

use ddt_entry::Key;
use pool_model::Block;
use reserved_list::ReservedList;
use std::alloc::{AllocError, Global};
use std::marker::Model;

/// How the dedup table knows a pointer.
#[derive(Clone, Copy, Debug, PartialEq, Eq)]
pub enum Mark {
    /// Not at all.
    Plain,
    /// As one that it counts; the moment, in seconds, is that at which the key's count became 1.
    Tracked { since: u64 },
    /// No more.
    Loose,
}

/// What a lane's slot holds: a content of at least one byte, and where and how it is kept.
#[derive(Drop)]
pub struct PlainPointer {
    pub lane: u32,
    pub slot: u32,
    pub key: Key,
    pub content: Block,
    pub place: u64,
    pub birth: u64,
    pub mark: Mark,
}

impl Model for PlainPointer {
    ghost use Rattle.pool_model.specs.Pool.{Pointer};

    ghost Value = { Pointer };

    ghost use Rattle.std.specs.Prelude.{◌<◌, length};
    ghost use Rattle.plain_pool.specs.Pointers.{pointer_of};

    ghost view = { pointer_of };

    ghost invariant = { λ pointer. 0 < length pointer.content.items };
}

impl PlainPointer {
    /// Whether it stands in this slot.
    pub fn is_at(&self, lane: u32, slot: u32) -> bool
        ensures { result ≡ is_at lane slot self.now }
    {
        self.lane == lane && self.slot == slot
    }

    /// Whether the table counts it.
    pub fn is_tracked(&self) -> bool
        ensures { result ≡ is_tracked self.now.mark }
    {
        match self.mark {
            Mark::Plain => false,
            Mark::Tracked { .. } => true,
            Mark::Loose => false,
        }
    }

    /// Whether it is outside the table.
    pub fn is_plain(&self) -> bool
        ensures { result ≡ is_plain self.now.mark }
    {
        match self.mark {
            Mark::Plain => true,
            Mark::Tracked { .. } => false,
            Mark::Loose => false,
        }
    }

    /// Whether the table counts it no more.
    pub fn is_loose(&self) -> bool
        ensures { result ≡ is_loose self.now.mark }
    {
        match self.mark {
            Mark::Plain => false,
            Mark::Tracked { .. } => false,
            Mark::Loose => true,
        }
    }

    /// The moment, in seconds, at which its key's count became 1; 0 where the table doesn't count it.
    pub fn since(&self) -> u64
        ensures { result ≡ since_of self.now.mark }
    {
        match self.mark {
            Mark::Plain => 0,
            Mark::Tracked { since } => since,
            Mark::Loose => 0,
        }
    }

    /// Whether the table counts it under this key.
    pub fn tracks(&self, key: &Key) -> bool
        ensures { result ≡ tracks key.now self.now }
    {
        self.is_tracked() && self.key == *key
    }

    /// Whether its slot comes before the other's, by lane and then by slot.
    pub fn comes_before(&self, other: &PlainPointer) -> bool
        ensures { result ≡ comes_before self.now other.now }
    {
        self.lane < other.lane || (self.lane == other.lane && self.slot < other.slot)
    }

    /// Another pointer that says the same.
    pub fn copied(&self, alloc: Global) -> Result<PlainPointer, AllocError>
        ensures { IfOk result (λ copy. copy ≡ self.now) }
    {
        Ok(PlainPointer {
            lane: self.lane,
            slot: self.slot,
            key: self.key,
            content: copied_block(alloc, &self.content)?,
            place: self.place,
            birth: self.birth,
            mark: self.mark,
        })
    }
}

/// Another block of the same bytes.
pub fn copied_block(alloc: Global, block: &Block) -> Result<Block, AllocError>
    ensures { IfOk result (λ copy. copy.items ≡ block.now.items) }
{
    Ok(ReservedList::from_vec(Vec::from_slice(alloc, block.as_slice())?))
}
