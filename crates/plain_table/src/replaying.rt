ghost use Rattle.std.specs.Prelude.{◌≡◌, ◌&&◌, IfOk, OnOk, if◌then◌else◌};
ghost use Rattle.ddt_entry.specs.Changes.{key_in};
ghost use Rattle.pool_model.specs.Table.{change_at, set_change, is_past};
ghost use Rattle.pool_model.specs.Logs.{last_changes, is_missing, is_left, left_in};

use crate::change_map::ChangeMap;
use ddt_entry::{Change, Key, key_of};
use std::alloc::{AllocError, Global};

/// The last change of each key in a log. The error is want of memory.
pub fn last_changes(alloc: Global, log: &[Change]) -> Result<ChangeMap, AllocError>
    ensures { IfOk result (λ last. last ≡ last_changes log.now) }
{
    let mut last = ChangeMap::new(alloc);
    'changes: for change in log {
        last.set(*change)?;
    }
    Ok(last)
}

/// What is left of a flushing log: the last change of each key that is above the checkpoint and that the
/// active log doesn't name. The error is want of memory.
pub fn left_in(
    alloc: Global,
    checkpoint: &Option<Key>,
    active: &ChangeMap,
    log: &[Change],
) -> Result<ChangeMap, AllocError>
    ensures { IfOk result (λ left. left ≡ left_in checkpoint.now active.now log.now) }
{
    let mut left = ChangeMap::new(alloc);
    'changes: for change in log {
        set_left(&mut left, checkpoint, active, change)?;
    }
    Ok(left)
}

/// Sets a change of a flushing log where its key is still to be flushed. The error is want of memory.
fn set_left(
    left: &mut ChangeMap,
    checkpoint: &Option<Key>,
    active: &ChangeMap,
    change: &Change,
) -> Result<(), AllocError>
    ensures { OnOk result (left.new ≡ (if is_left checkpoint.now active.now (key_in change.now)
        then set_change change.now left.old else left.old)) }
{
    if is_left(checkpoint, active, &key_of(change)) {
        left.set(*change)?;
    }
    Ok(())
}

/// Whether a key of a flushing log is still to be flushed.
fn is_left(checkpoint: &Option<Key>, active: &ChangeMap, key: &Key) -> bool
    ensures { result ≡ is_left checkpoint.now active.now key.now }
{
    is_past(checkpoint, key) && is_missing(active, key)
}

/// Whether a flushing log has been flushed past a key.
fn is_past(checkpoint: &Option<Key>, key: &Key) -> bool
    ensures { result ≡ is_past checkpoint.now key.now }
{
    match checkpoint {
        None => true,
        Some(checkpoint) => checkpoint.cmp(key).is_lt(),
    }
}

/// Whether a list doesn't name a key.
fn is_missing(list: &ChangeMap, key: &Key) -> bool
    ensures { result ≡ is_missing (change_at key.now list.now) }
{
    match list.get(key) {
        None => true,
        Some(_) => false,
    }
}
