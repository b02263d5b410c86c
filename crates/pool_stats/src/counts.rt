ghost use Rattle.std.specs.Prelude.{◌≡◌, ◌≤◌, IfOk, length, map, filter};
ghost use Rattle.pool_stats.specs.References.{is_tracked};
ghost use Rattle.pool_stats.specs.Counts.{tracked_keys, key_counts, runs_of};

use crate::reference::{Reference, Standing};
use ddt_entry::Key;
use std::alloc::{AllocError, Global};

/// A key, and how many pointers the table counts under it.
#[derive(Clone, Copy, Debug, PartialEq, Eq)]
pub struct KeyCount {
    pub key: Key,
    pub count: u64,
}

/// Whether the table counts a pointer of this standing.
pub fn is_tracked(standing: Standing) -> bool
    ensures { result ≡ is_tracked standing }
{
    match standing {
        Standing::Plain => false,
        Standing::Tracked => true,
        Standing::Loose => false,
    }
}

/// The keys of the counted pointers, in the pointers' order.
fn tracked_keys(alloc: Global, references: &[Reference]) -> Result<Vec<Key>, AllocError>
    ensures { IfOk result (λ keys. keys.items ≡ tracked_keys references.now) }
{
    references
        .iter()
        .filter(|reference| is_tracked(reference.standing))
        .map(|reference| reference.key)
        .collect(alloc)
}

/// The runs of equal keys.
fn runs_of(alloc: Global, keys: &[Key]) -> Result<Vec<KeyCount>, AllocError>
    ensures { IfOk result (λ runs. runs.items ≡ runs_of keys.now) }
{
    let mut runs = Vec::new(alloc);
    let Some((first, rest)) = keys.split_first() else {
        return Ok(runs);
    };
    let mut run = KeyCount {
        key: *first,
        count: 1,
    };
    'keys: for key in rest {
        if *key == run.key {
            run.count += 1;
        } else {
            runs.push(run)?;
            run = KeyCount {
                key: *key,
                count: 1,
            };
        }
    }
    runs.push(run)?;
    Ok(runs)
}

/// Each key that the table counts, with its count, in the order of keys.
pub fn key_counts(alloc: Global, references: &[Reference]) -> Result<Vec<KeyCount>, AllocError>
    ensures { IfOk result (λ counts. counts.items ≡ key_counts (tracked_keys references.now)) }
{
    let mut keys = tracked_keys(alloc, references)?;
    keys.sort_unstable();
    runs_of(alloc, keys.as_slice())
}
