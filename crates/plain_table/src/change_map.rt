ghost use Rattle.std.specs.Prelude.{◌≡◌, ◌<◌, ◌^◌, List, [], ◌∷◌, length, slice_get, Option, Some, None, IsSome, IfSome, IfNone, IfOk, OnErr};
ghost use Rattle.std.specs.Option.{option_copied};
ghost use Rattle.std.specs.Map.Iter.{ShowsInOrder, deref};
ghost use Rattle.ddt_entry.specs.Changes.{key_in};
ghost use Rattle.ddt_entry.specs.declared.entry.Change.{Change as Changed};
ghost use Rattle.pool_model.specs.Table.{change_at, set_change, drop_change, AreChangesRising};
ghost use Rattle.plain_table.specs.Keyed.{WasSet};
ghost use Rattle.plain_table.specs.Keyed.{first};

use ddt_entry::{Change, Key, key_of};
use std::alloc::{AllocError, Global};
use std::collections::BTreeMap;
use std::collections::btree_map::Values;
use std::marker::Model;

/// Changes by their keys. A contract sees the list of the changes, which is sorted by key.
#[derive(Drop)]
pub struct ChangeMap {
    changes: BTreeMap<Key, Change>,
}

impl Model for ChangeMap {
    ghost use Rattle.std.specs.Prelude.{List};
    ghost use Rattle.std.specs.Map.{values_of};
    ghost use Rattle.ddt_entry.specs.declared.entry.Change.{Change};
    ghost use Rattle.plain_table.specs.Keyed.{AreKeyed};

    ghost Value = { List Change };

    ghost view = { λ map. values_of map.changes.entries };

    ghost invariant = { λ map. AreKeyed map.changes.entries };
}

impl ChangeMap {
    /// No changes. Takes no memory.
    pub fn new(alloc: Global) -> ChangeMap
        ensures { result ≡ [] }
    {
        ChangeMap {
            changes: BTreeMap::new(alloc),
        }
    }

    /// Another map that says the same. The error is want of memory.
    pub fn copied(&self, alloc: Global) -> Result<ChangeMap, AllocError>
        ensures { IfOk result (λ copy. copy ≡ self.now) }
    {
        let _len = self.changes.len();
        let mut copy = ChangeMap::new(alloc);
        'changes: for (key, change) in &self.changes {
            let _own = key;
            copy.set(*change)?;
        }
        Ok(copy)
    }

    /// Puts a change in its key's place, and gives the one that stood there. The error is want of memory.
    /// It leaves all as it was, and comes only where there is no change of the key.
    pub fn set(&mut self, change: Change) -> Result<Option<Change>, AllocError>
        ensures set { IfOk result (λ before. self.new ≡ set_change change self.old) }
        ensures before { IfOk result (λ before. before ≡ change_at (key_in change) self.old) }
        ensures refused { OnErr result (self.new ≡ self.old) }
        ensures absent { OnErr result (change_at (key_in change) self.old ≡ None) }
        ensures sorted { AreChangesRising self.old }
    {
        let before = self.changes.insert(key_of(&change), change)?;
        Ok(before)
    }

    /// Takes a `set` of this change back, which gave `before`. Takes no memory.
    pub fn put_back(&mut self, change: &Change, before: Option<Change>)
        ensures { (first : List Changed) → WasSet change.now before first self.old → self.new ≡ first }
    {
        match before {
            None => self.remove(&key_of(change)),
            Some(old) => self.replace(old),
        }
    }

    /// Puts a change in the place of the one of its key. Takes no memory.
    fn replace(&mut self, change: Change)
        ensures { IsSome (change_at (key_in change) self.old) → self.new ≡ set_change change self.old }
    {
        let _set = self.set(change);
    }

    /// Drops a key. Takes no memory.
    pub fn remove(&mut self, key: &Key)
        ensures { self.new ≡ drop_change key.now self.old }
    {
        let _len = self.changes.len();
        self.changes.remove(key);
    }

    /// Takes the change with the lowest key out. Takes no memory.
    pub fn pop_first(&mut self) -> Option<Change>
        ensures first { result ≡ first self.old }
        ensures rest { IfSome result (λ change. self.old ≡ change ∷ self.new) }
        ensures none { IfNone result (self.new ≡ self.old) }
    {
        match self.changes.pop_first() {
            None => None,
            Some((_key, change)) => Some(change),
        }
    }

    /// The change of a key. Takes no memory.
    pub fn get(&self, key: &Key) -> Option<&Change>
        ensures { option_copied result ≡ change_at key.now self.now }
    {
        self.changes.get(key)
    }

    /// How many changes there are. Takes no memory.
    pub fn len(&self) -> u64
        ensures count { result ≡ length self.now }
        ensures small { result < 2 ^ 63 }
    {
        self.changes.len() as u64
    }

    /// The change at an index below the length, in key order. Takes no memory, and steps over all before.
    pub fn at(&self, index: u64) -> &Change
        requires { index < length self.now }
        ensures { slice_get self.now index ≡ Some result.now }
    {
        self.changes.values().nth(index as usize).unwrap()
    }

    /// The list of all changes, in key order. The error is want of memory.
    pub fn changes(&self, alloc: Global) -> Result<Vec<Change>, AllocError>
        ensures { IfOk result (λ list. list.items ≡ self.now) }
    {
        let mut list = Vec::new(alloc);
        list.reserve(self.changes.len())?;
        'changes: for (key, change) in &self.changes {
            let _own = key;
            list.push(*change)?;
        }
        Ok(list)
    }

    /// All changes in key order. Takes no memory.
    pub fn walk(&self) -> Values<'_, Key, Change>
        ensures rest { result ≡ self.now }
        ensures runs { ShowsInOrder (deref {X = Changed}) }
        ensures rising { AreChangesRising self.now }
    {
        self.changes.values()
    }
}
