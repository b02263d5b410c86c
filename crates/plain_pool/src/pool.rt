ghost use Rattle.std.specs.Prelude.{◌≡◌, IfOk, position, find, filter, not, slice_set};
ghost use Rattle.std.specs.Option.{option_copied};
ghost use Rattle.pool_model.specs.Pool.{empty_pool, held, mode_of, count_at, keys_in, insert_pointer, with_pointer, without_pointer, comes_before, is_at, tracks};

use crate::pointer::PlainPointer;
use ddt_entry::Key;
use home_rules::with_key;
use pool_model::Mode;
use std::alloc::{AllocError, Global};
use std::marker::Model;

/// How many lanes there are.
pub const LANES: usize = 16;

/// The pointers of a pool in rising order of lane and slot, and its settings.
#[derive(Drop)]
pub struct PlainPool {
    pub pointers: Vec<PlainPointer>,
    pub modes: [Mode; LANES],
    pub quota: Option<u64>,
    pub group: u64,
}

impl Model for PlainPool {
    ghost use Rattle.pool_model.specs.Pool.{Pool};

    ghost Value = { Pool };

    ghost use Rattle.plain_pool.specs.Pools.{pool_of};

    ghost view = { pool_of };
}

impl PlainPool {
    /// The pool that a new image has.
    pub fn new(alloc: Global) -> PlainPool
        ensures { result ≡ empty_pool }
    {
        PlainPool {
            pointers: Vec::new(alloc),
            modes: [Mode::On; LANES],
            quota: None,
            group: 1,
        }
    }

    /// What a slot holds.
    pub fn held(&self, lane: u32, slot: u32) -> Option<&PlainPointer>
        ensures { option_copied result ≡ held self.now lane slot }
    {
        self.pointers
            .iter()
            .find(|pointer| pointer.is_at(lane, slot))
    }

    /// The mode of a lane.
    pub fn mode_of(&self, lane: u32) -> Mode
        ensures { result ≡ mode_of self.now lane }
    {
        self.modes.get(lane as usize).copied().unwrap_or(Mode::On)
    }

    /// The first pointer that the table counts under a key.
    pub fn first_tracked(&self, key: &Key) -> Option<&PlainPointer>
        ensures { option_copied result ≡ find (tracks key.now) self.now.pointers }
    {
        self.pointers.iter().find(|pointer| pointer.tracks(key))
    }

    /// How many pointers the table counts under a key.
    pub fn count_at(&self, key: &Key) -> usize
        ensures { result ≡ count_at self.now key.now }
    {
        self.pointers
            .iter()
            .filter(|pointer| pointer.tracks(key))
            .count()
    }

    /// The keys that the table counts a pointer under, sorted, each once.
    pub fn keys_in(&self, alloc: Global) -> Result<Vec<Key>, AllocError>
        ensures { IfOk result (λ keys. keys.items ≡ keys_in self.now) }
    {
        let mut keys = Vec::new(alloc);
        for pointer in &self.pointers {
            if pointer.is_tracked() {
                keys = with_key(keys, pointer.key)?;
            }
        }
        Ok(keys)
    }

    /// The pool with one more pointer.
    pub fn with_pointer(self, pointer: PlainPointer) -> Result<PlainPool, AllocError>
        ensures { IfOk result (λ pool. pool ≡ with_pointer self pointer) }
    {
        let modes = self.modes;
        Ok(PlainPool {
            pointers: insert_pointer(self.pointers, pointer)?,
            modes,
            quota: self.quota,
            group: self.group,
        })
    }

    /// The pool without the pointer of a slot.
    pub fn without_pointer(self, lane: u32, slot: u32) -> PlainPool
        ensures { result ≡ without_pointer self lane slot }
    {
        let modes = self.modes;
        PlainPool {
            pointers: without_slot(self.pointers, lane, slot),
            modes,
            quota: self.quota,
            group: self.group,
        }
    }

    /// The pool with this quota in bytes, or with none.
    pub fn with_quota(self, quota: Option<u64>) -> PlainPool
        ensures { result ≡ record self { quota = quota } }
    {
        let modes = self.modes;
        PlainPool {
            pointers: self.pointers,
            modes,
            quota,
            group: self.group,
        }
    }

    /// The pool with this mode of a lane.
    pub fn with_mode(self, lane: u32, mode: Mode) -> PlainPool
        ensures { result ≡ record self { modes = slice_set self.modes lane mode } }
    {
        let mut modes = self.modes;
        if (lane as usize) < LANES {
            modes[lane as usize] = mode;
        }
        PlainPool {
            pointers: self.pointers,
            modes,
            quota: self.quota,
            group: self.group,
        }
    }

    /// The pool with this group as its last.
    pub fn in_group(self, group: u64) -> PlainPool
        ensures { result ≡ record self { group = group } }
    {
        let modes = self.modes;
        PlainPool {
            pointers: self.pointers,
            modes,
            quota: self.quota,
            group,
        }
    }

    /// Another pool that says the same.
    pub fn copied(&self, alloc: Global) -> Result<PlainPool, AllocError>
        ensures { IfOk result (λ copy. copy ≡ self.now) }
    {
        let mut pointers = Vec::new(alloc);
        for pointer in &self.pointers {
            pointers.push(pointer.copied(alloc)?)?;
        }
        let modes = self.modes;
        Ok(PlainPool {
            pointers,
            modes,
            quota: self.quota,
            group: self.group,
        })
    }
}

/// Pointers in order, with one more at its place.
pub fn insert_pointer(
    mut pointers: Vec<PlainPointer>,
    pointer: PlainPointer,
) -> Result<Vec<PlainPointer>, AllocError>
    ensures { IfOk result (λ more. more.items ≡ insert_pointer pointer pointers.items) }
{
    let at = first_after(pointers.as_slice(), &pointer).unwrap_or(pointers.len());
    pointers.insert(at, pointer)?;
    Ok(pointers)
}

/// The first place of a pointer that this one comes before.
fn first_after(pointers: &[PlainPointer], pointer: &PlainPointer) -> Option<usize>
    ensures { result ≡ position (comes_before pointer.now) pointers.now }
{
    pointers
        .iter()
        .position(|other| pointer.comes_before(other))
}

/// The pointers of the other slots.
fn without_slot(mut pointers: Vec<PlainPointer>, lane: u32, slot: u32) -> Vec<PlainPointer>
    ensures { result.items ≡ filter (λ pointer. not (is_at lane slot pointer)) pointers.items }
{
    pointers.retain(|pointer| !pointer.is_at(lane, slot));
    pointers
}
