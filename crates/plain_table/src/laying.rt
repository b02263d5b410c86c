//! A log's changes, laid over sorted entries.

ghost use Rattle.std.specs.Prelude.{◌≡◌, ◌+◌, ◌<◌, ◌≤◌, ◌∷◌, ◌++◌, List, length, fold, IfOk};
ghost use Rattle.ddt_entry.specs.Changes.{key_in};
ghost use Rattle.ddt_entry.specs.declared.entry.Change.{Change as Changed};
ghost use Rattle.pool_model.specs.Table.{AreRising, AreChangesRising, set_found};
ghost use Rattle.plain_table.specs.Merging.{without, entry_in};

use crate::change_map::ChangeMap;
use crate::merging::{push_all, push_below};
use ddt_entry::{Change, Entry, Key, key_of};
use pool_model::EntryList;
use std::alloc::{AllocError, Global};

/// The entries behind the first, where that is the key's, or else all of them.
fn without<'a>(entries: &'a [Entry], key: &Key) -> &'a [Entry]
    ensures without { result.now ≡ without key.now entries.now }
    ensures fewer { length result.now ≤ length entries.now }
{
    let Some((first, rest)) = entries.split_first() else {
        return entries;
    };
    if first.key != *key {
        return entries;
    }
    rest
}

/// Appends the entry that a change sets, if it sets one.
fn push_set(list: &mut EntryList, change: &Change)
    requires { 0 < list.old.spare }
    ensures pushed { list.new.items ≡ list.old.items ++ entry_in change.now }
    ensures room { list.old.spare ≤ list.new.spare + 1 }
{
    if let Change::Entry(entry) = change {
        list.push(*entry);
    }
}

/// Appends the entries in front of a change's key, and what the change sets, and answers those behind the key.
fn lay<'a>(list: &mut EntryList, stored: &'a [Entry], change: &Change) -> &'a [Entry]
    requires rising { AreRising stored.now }
    requires room { length stored.now < list.old.spare }
    ensures laid { (more : List Changed) → AreChangesRising (change.now ∷ more)
        → list.new.items ++ fold set_found result.now more ≡ list.old.items ++ fold set_found stored.now (change.now ∷ more) }
    ensures rising { AreRising result.now }
    ensures room { list.old.spare + length result.now ≤ list.new.spare + length stored.now + 1 }
{
    let key = key_of(change);
    let rest = push_below(list, stored, &key);
    push_set(list, change);
    without(rest, &key)
}

/// What a log's changes make of entries that rise by key, which rise then too: one walk over both. The error is want
/// of memory.
pub fn laid_over(
    alloc: Global,
    stored: &[Entry],
    changes: &ChangeMap,
) -> Result<Vec<Entry>, AllocError>
    requires { AreRising stored.now }
    ensures laid { IfOk result (λ laid. laid.items ≡ fold set_found stored.now changes.now) }
    ensures rising { IfOk result (λ laid. AreRising laid.items) }
{
    let laid = walk_both(alloc, stored, changes)?;
    Ok(laid)
}

/// The walk over both. The error is want of memory.
fn walk_both(alloc: Global, stored: &[Entry], changes: &ChangeMap) -> Result<Vec<Entry>, AllocError>
    requires { AreRising stored.now }
    ensures { IfOk result (λ laid. laid.items ≡ fold set_found stored.now changes.now) }
{
    let mut list = EntryList::new(alloc);
    list.reserve(stored.len() as u64 + changes.len())?;
    let mut rest = stored;
    'changes: for change in changes.walk() {
        rest = lay(&mut list, rest, change);
    }
    push_all(&mut list, rest);
    Ok(list.into_vec())
}
