ghost use Rattle.std.specs.Prelude.{◌≡◌, [], ◌++◌, ℕ, List, IfOk, fold};
ghost use Rattle.std.specs.Option.{option_to_list};
ghost use Rattle.ddt_entry.specs.declared.key.Key.{Key};
ghost use Rattle.pool_model.specs.Pool.{with_key};
ghost use Rattle.pool_model.specs.Group.{change_of, touched_keys, changes_of};
ghost use Rattle.plain_run.specs.Openings.{opening_by};

use crate::course::PlainCourse;
use crate::opening::{PlainOpening, home_of};
use ddt_entry::{Change, Key};
use home_rules::{change_from, settled, with_key};
use std::alloc::{AllocError, Global};

impl PlainCourse {
    /// The changes that the group leaves to the table, sorted by key.
    pub fn changes_of(
        &self,
        alloc: Global,
        opening: &PlainOpening,
    ) -> Result<Vec<Change>, AllocError>
        ensures { (key_of : List ℕ → Key) → IfOk result (λ changes.
            changes.items ≡ changes_of (opening_by key_of opening.now) self.now) }
    {
        let keys = self.touched_keys(alloc)?;
        let mut changes = Vec::new(alloc);
        for key in &keys {
            let change = self.change_of(alloc, opening, key)?;
            changes = with_change(changes, change)?;
        }
        Ok(changes)
    }

    /// The change that the group leaves to the table of one key.
    fn change_of(
        &self,
        alloc: Global,
        opening: &PlainOpening,
        key: &Key,
    ) -> Result<Option<Change>, AllocError>
        ensures { (key_of : List ℕ → Key) → IfOk result (λ change.
            change ≡ change_of (opening_by key_of opening.now) self.now key.now) }
    {
        let before = opening.table.found(key);
        let known = self.known_home(alloc, opening, key)?;
        let now = settled(opening.number, before, home_of(&known));
        Ok(change_from(key, before, now))
    }

    /// The keys that the group named, sorted, each once.
    fn touched_keys(&self, alloc: Global) -> Result<Vec<Key>, AllocError>
        ensures { IfOk result (λ keys. keys.items ≡ touched_keys self.now) }
    {
        keys_among(alloc, self.touched.as_slice())
    }
}

/// The changes with one more, where there is one.
fn with_change(mut changes: Vec<Change>, change: Option<Change>) -> Result<Vec<Change>, AllocError>
    ensures { IfOk result (λ more. more.items ≡ changes.items ++ option_to_list change) }
{
    if let Some(change) = change {
        changes.push(change)?;
    }
    Ok(changes)
}

/// These keys, sorted, each once.
fn keys_among(alloc: Global, named: &[Key]) -> Result<Vec<Key>, AllocError>
    ensures { IfOk result (λ keys. keys.items ≡ fold (λ keys key. with_key key keys) [] named.now) }
{
    let mut keys = Vec::new(alloc);
    for key in named {
        keys = with_key(keys, *key)?;
    }
    Ok(keys)
}
