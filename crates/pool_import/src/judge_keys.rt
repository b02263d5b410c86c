ghost use Rattle.std.specs.Prelude.{◌≡◌, ℕ, true, false, Some, IfSome, IfNone, slice_get};
ghost use Rattle.std.specs.List.{AllByRecursion};
ghost use Rattle.ddt_entry.specs.Keys.{key_eq};
ghost use Rattle.ddt_entry.specs.declared.entry.Entry.{Entry as AnEntry};
ghost use Rattle.pool_model.specs.Table.{entry_at, AreRising};

use ddt_entry::{Entry, Home, Key};
use std::cmp::Ordering;

/// The index of a key's entry among entries that rise by key.
pub fn index_of(entries: &[Entry], key: &Key) -> Option<usize>
    requires { AreRising entries.now }
    ensures some { IfSome result (λ at. (entry : AnEntry) × (slice_get entries.now at ≡ Some entry) × (key_eq entry.key key.now ≡ true)) }
    ensures none { IfNone result (AllByRecursion (λ entry. key_eq entry.key key.now ≡ false) entries.now) }
{
    let mut low = 0;
    let mut high = entries.len();
    'halves: while low < high {
        let middle = low + (high - low) / 2;
        match entries[middle].key.cmp(key) {
            Ordering::Less => low = middle + 1,
            Ordering::Equal => return Some(middle),
            Ordering::Greater => high = middle,
        }
    }
    None
}

/// The home of a key among entries that rise by key.
pub fn home_at(entries: &[Entry], key: &Key) -> Option<Home>
    requires { AreRising entries.now }
    ensures { result ≡ entry_at key.now entries.now }
{
    match index_of(entries, key) {
        None => None,
        Some(at) => Some(entries[at].home),
    }
}
