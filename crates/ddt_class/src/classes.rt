ghost use Rattle.std.specs.Prelude.{◌≡◌, ◌+◌, ◌-◌, ◌*◌, ◌<◌, ◌≤◌, ◌^◌, ◌==◌, min, not, true, [], length, nat_lt, IfOk, OnOk, OnErr, IsOk, IfErr};
ghost use Rattle.std.specs.List.{AllByRecursion};
ghost use Rattle.std.specs.Option.{option_or};
ghost use Rattle.page_tree.specs.declared.fault.PageFault.TheVariants.{Memory as OutOfMemory};
ghost use Rattle.pool_model.specs.Table.{AreRising, entry_at, set_entry, drop_entry};
ghost use Rattle.ddt_class.specs.Classes.{class_in, counts_in, count_of, put_in, home_before};

use crate::merging::merged;
use ddt_entry::{Entry, Home, Key};
use disk_model::Disk;
use page_tree::{FindFault, PageFault, PageReader};
use plain_table::HomeMap;
use pool_model::EntryList;
use std::alloc::{AllocError, Global};
use std::marker::Model;

/// The stored table: the homes that are counted once, and those that are counted more than once.
#[derive(Drop)]
pub struct Classes {
    unique: HomeMap,
    duplicate: HomeMap,
    counts: u128,
}

impl Model for Classes {
    ghost use Rattle.std.specs.Prelude.{List};
    ghost use Rattle.ddt_entry.specs.declared.entry.Entry.{Entry};

    ghost Value = { List Entry };

    ghost use Rattle.ddt_class.specs.Classes.{merged, IsClassed};

    ghost view = { λ classes. merged classes.unique classes.duplicate };

    ghost invariant = { λ classes. IsClassed classes.unique classes.duplicate (merged classes.unique classes.duplicate) classes.counts };
}

/// A map has fewer keys than memory could name. It does nothing.
fn is_small(map: &HomeMap)
    ensures { length map.now < 2 ^ 63 }
{
    let _keys = map.len();
}

/// How many pointers a home counts.
fn count_of(home: Option<Home>) -> u64
    ensures { result ≡ count_of home }
{
    match home {
        None => 0,
        Some(home) => home.count,
    }
}

/// Sets a key's home in the class that it belongs to, takes the key out of the other one, and answers the
/// home that it had. The error is want of memory; both are then as before.
fn exchange(
    own: &mut HomeMap,
    other: &mut HomeMap,
    key: &Key,
    home: Home,
) -> Result<Option<Home>, AllocError>
    ensures before { IfOk result (λ before. before ≡ option_or (entry_at key.now own.old) (entry_at key.now other.old)) }
    ensures own { OnOk result (own.new ≡ set_entry (record { key = key.now; home = home }) own.old) }
    ensures other { OnOk result (other.new ≡ drop_entry key.now other.old) }
    ensures own_stays { OnErr result (own.new ≡ own.old) }
    ensures other_stays { OnErr result (other.new ≡ other.old) }
{
    let before = own.set(key, home)?;
    Ok(before.or(other.take_out(key)))
}

/// Puts a key's home into the class of its count, takes the key out of the other class, and answers the
/// home that it had. The error is want of memory; both classes are then as before.
fn put_home(
    unique: &mut HomeMap,
    duplicate: &mut HomeMap,
    key: &Key,
    home: Home,
) -> Result<Option<Home>, AllocError>
    ensures before { IfOk result (λ before.
        before ≡ home_before (home.count == 1) (entry_at key.now unique.old) (entry_at key.now duplicate.old)) }
    ensures unique { OnOk result (unique.new ≡ put_in (home.count == 1) (record { key = key.now; home = home }) unique.old) }
    ensures duplicate { OnOk result
        (duplicate.new ≡ put_in (not (home.count == 1)) (record { key = key.now; home = home }) duplicate.old) }
    ensures unique_stays { OnErr result (unique.new ≡ unique.old) }
    ensures duplicate_stays { OnErr result (duplicate.new ≡ duplicate.old) }
{
    if home.count == 1 {
        return exchange(unique, duplicate, key, home);
    }
    exchange(duplicate, unique, key, home)
}

impl Classes {
    /// The table of no key. Takes no memory.
    pub fn new(alloc: Global) -> Classes
        ensures { result ≡ [] }
    {
        Classes {
            unique: HomeMap::new(alloc),
            duplicate: HomeMap::new(alloc),
            counts: 0,
        }
    }

    /// The entries rise by key, and each home is counted. It does nothing.
    pub fn is_table(&self)
        ensures rising { AreRising self.now }
        ensures counted { AllByRecursion (λ entry. nat_lt 0 entry.home.count ≡ true) self.now }
    {
        let _counts = self.counts;
    }

    /// The home of a key. Takes no memory, and reads no sector.
    pub fn home_of(&self, key: &Key) -> Option<Home>
        ensures { result ≡ entry_at key.now self.now }
    {
        self.unique.find(key).or(self.duplicate.find(key))
    }

    /// The home of a key. Takes no memory. Over lists in memory no sector is read, and there is no fault.
    pub fn find<D: Disk, P: PageReader<D>>(
        &self,
        disk: &D,
        reader: &mut P,
        key: &Key,
    ) -> Result<Option<Home>, FindFault>
        requires fits { P.fits reader.old disk.now }
        ensures found { IfOk result (λ home. home ≡ entry_at key.now self.now) }
        ensures told { IsOk result }
        ensures fits { P.fits reader.new disk.now }
        ensures count { P.faults reader.old ≤ P.faults reader.new }
    {
        Ok(self.home_of(key))
    }

    /// Gives a key this home, in the class of its count; the other class has the key no more. The error is
    /// want of memory; the table is then as before.
    pub fn put<D: Disk, P: PageReader<D>>(
        &mut self,
        disk: &D,
        reader: &mut P,
        key: &Key,
        home: Home,
    ) -> Result<(), PageFault>
        requires counted { 0 < home.count }
        requires fits { P.fits reader.old disk.now }
        ensures put { OnOk result (self.new ≡ set_entry (record { key = key.now; home = home }) self.old) }
        ensures refused { OnErr result (self.new ≡ self.old) }
        ensures fault { IfErr result (λ fault. fault ≡ OutOfMemory) }
        ensures fits { P.fits reader.new disk.now }
        ensures count { P.faults reader.old ≤ P.faults reader.new }
    {
        is_small(&self.unique);
        is_small(&self.duplicate);
        let before = put_home(&mut self.unique, &mut self.duplicate, key, home)?;
        self.counts = self.counts - u128::from(count_of(before)) + u128::from(home.count);
        Ok(())
    }

    /// Takes a key out of the class that has it, and answers its home; `None` where neither has it. Over
    /// lists in memory there is no fault.
    pub fn take_out<D: Disk, P: PageReader<D>>(
        &mut self,
        disk: &D,
        reader: &mut P,
        key: &Key,
    ) -> Result<Option<Home>, PageFault>
        requires fits { P.fits reader.old disk.now }
        ensures before { IfOk result (λ before. before ≡ entry_at key.now self.old) }
        ensures left { OnOk result (self.new ≡ drop_entry key.now self.old) }
        ensures told { IsOk result }
        ensures fits { P.fits reader.new disk.now }
        ensures count { P.faults reader.old ≤ P.faults reader.new }
    {
        let alone = self.unique.take_out(key);
        let shared = self.duplicate.take_out(key);
        let before = alone.or(shared);
        self.counts -= u128::from(count_of(before));
        Ok(before)
    }

    /// All entries, sorted by key. Reads no sector. The error is want of memory.
    pub fn listed(&self, alloc: Global) -> Result<Vec<Entry>, AllocError>
        ensures { IfOk result (λ list. list.items ≡ self.now) }
    {
        let unique = self.unique.entries(alloc)?;
        let duplicate = self.duplicate.entries(alloc)?;
        Ok(merged(alloc, unique.as_slice(), duplicate.as_slice())?.into_vec())
    }

    /// All entries, sorted by key. The error is want of memory.
    pub fn entries<D: Disk, P: PageReader<D>>(
        &self,
        alloc: Global,
        disk: &D,
        reader: &mut P,
    ) -> Result<EntryList, PageFault>
        requires fits { P.fits reader.old disk.now }
        ensures entries { IfOk result (λ list. list.items ≡ self.now) }
        ensures fault { IfErr result (λ fault. fault ≡ OutOfMemory) }
        ensures fits { P.fits reader.new disk.now }
        ensures count { P.faults reader.old ≤ P.faults reader.new }
    {
        Ok(EntryList::from_vec(self.listed(alloc)?))
    }

    /// How many entries a class has: 0 names the unique one, any other number the duplicate one.
    pub fn size(&self, at: u32) -> u64
        ensures { result ≡ length (class_in at self.now) }
    {
        if at == 0 {
            return self.unique.len();
        }
        self.duplicate.len()
    }

    /// How many bits of a key index a class: none, over lists in memory.
    pub fn bits(&self, at: u32) -> u32
        ensures { result ≡ 0 }
    {
        0
    }

    /// How many entries there are.
    pub fn len(&self) -> u64
        ensures { result ≡ length self.now }
    {
        self.unique.len() + self.duplicate.len()
    }

    /// How many pointers the homes count together, or the largest number of 64 bits where that is less.
    pub fn counts(&self) -> u64
        ensures { result ≡ min (counts_in self.now) (2 ^ 64 - 1) }
    {
        u64::try_from(self.counts).unwrap_or(u64::MAX)
    }
}
