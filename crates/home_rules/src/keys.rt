ghost use Rattle.std.specs.Prelude.{◌≡◌, false, IfOk, position, slice_get};
ghost use Rattle.std.specs.Option.{option_map_or};
ghost use Rattle.std.specs.Ordering.{is_le};
ghost use Rattle.ddt_entry.specs.Keys.{key_cmp, key_eq};
ghost use Rattle.pool_model.specs.Pool.{with_key};

use ddt_entry::Key;
use std::alloc::AllocError;

/// Sorted keys, with one more if it isn't there. The error is want of memory.
pub fn with_key(mut keys: Vec<Key>, key: Key) -> Result<Vec<Key>, AllocError>
    ensures { IfOk result (λ more. more.items ≡ with_key key keys.items) }
{
    let at = first_from(keys.as_slice(), &key).unwrap_or(keys.len());
    if has_at(keys.as_slice(), at, &key) {
        return Ok(keys);
    }
    keys.insert(at, key)?;
    Ok(keys)
}

/// Whether this key stands at this place.
fn has_at(keys: &[Key], at: usize, key: &Key) -> bool
    ensures { result ≡ option_map_or (λ other. key_eq other key.now) (slice_get keys.now at) false }
{
    keys.get(at).is_some_and(|other| *other == *key)
}

/// The first place of a key that doesn't come before this one.
fn first_from(keys: &[Key], key: &Key) -> Option<usize>
    ensures { result ≡ position (λ other. is_le (key_cmp key.now other)) keys.now }
{
    keys.iter().position(|other| key.cmp(other).is_le())
}
