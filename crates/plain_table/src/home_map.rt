ghost use Rattle.std.specs.Prelude.{◌≡◌, ◌<◌, ◌^◌, [], length, None, IfOk, OnOk, OnErr};
ghost use Rattle.pool_model.specs.Table.{entry_at, set_entry, drop_entry};

use ddt_entry::{Entry, Home, Key};
use std::alloc::{AllocError, Global};
use std::collections::BTreeMap;
use std::marker::Model;

/// A map from keys to homes, which a contract sees as the list of its entries, sorted by key.
#[derive(Drop)]
pub struct HomeMap {
    homes: BTreeMap<Key, Home>,
}

impl Model for HomeMap {
    ghost use Rattle.std.specs.Prelude.{List};
    ghost use Rattle.ddt_entry.specs.declared.entry.Entry.{Entry};

    ghost Value = { List Entry };

    ghost use Rattle.pool_model.specs.Table.{AreRising};
    ghost use Rattle.plain_table.specs.HomeLists.{entries_of};

    ghost view = { λ map. entries_of map.homes.entries };

    ghost invariant = { λ map. AreRising (entries_of map.homes.entries) };
}

impl HomeMap {
    /// The map of no key. Takes no memory.
    pub fn new(alloc: Global) -> Self
        ensures { result ≡ [] }
    {
        HomeMap {
            homes: BTreeMap::new(alloc),
        }
    }

    /// Another map that says the same. The error is want of memory.
    pub fn copied(&self, alloc: Global) -> Result<HomeMap, AllocError>
        ensures { IfOk result (λ copy. copy ≡ self.now) }
    {
        let mut copy = HomeMap::new(alloc);
        'homes: for (key, home) in &self.homes {
            copy.set(key, *home)?;
        }
        Ok(copy)
    }

    /// How many keys have a home.
    pub fn len(&self) -> u64
        ensures count { result ≡ length self.now }
        ensures small { result < 2 ^ 63 }
    {
        self.homes.len() as u64
    }

    /// The home of a key. Takes no memory.
    pub fn find(&self, key: &Key) -> Option<Home>
        ensures { result ≡ entry_at key.now self.now }
    {
        self.homes.get(key).copied()
    }

    /// Gives a key this home, and answers the one that it had. The error is want of memory, and comes only
    /// where the key had none; the map is then as before.
    pub fn set(&mut self, key: &Key, home: Home) -> Result<Option<Home>, AllocError>
        ensures before { IfOk result (λ before. before ≡ entry_at key.now self.old) }
        ensures set { OnOk result (self.new ≡ set_entry (record { key = key.now; home = home }) self.old) }
        ensures refused { OnErr result (self.new ≡ self.old) }
        ensures absent { OnErr result (entry_at key.now self.old ≡ None) }
    {
        let before = self.homes.insert(*key, home)?;
        Ok(before)
    }

    /// Takes a key out, and answers the home that it had. Takes no memory.
    pub fn take_out(&mut self, key: &Key) -> Option<Home>
        ensures before { result ≡ entry_at key.now self.old }
        ensures left { self.new ≡ drop_entry key.now self.old }
    {
        self.homes.remove(key)
    }

    /// All entries, sorted by key. The error is want of memory.
    pub fn entries(&self, alloc: Global) -> Result<Vec<Entry>, AllocError>
        ensures { IfOk result (λ list. list.items ≡ self.now) }
    {
        let mut list = Vec::new(alloc);
        list.reserve(self.homes.len())?;
        'homes: for (key, home) in &self.homes {
            list.push(Entry {
                key: *key,
                home: *home,
            })?;
        }
        Ok(list)
    }
}
