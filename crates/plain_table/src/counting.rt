ghost use Rattle.std.specs.Prelude.{◌≡◌, ◌<◌, ◌^◌, nat_lt, length, filter};

use ddt_entry::Entry;

/// The entries with a count above 0. Takes no memory.
pub fn counted(mut entries: Vec<Entry>) -> Vec<Entry>
    ensures { result.items ≡ filter (λ entry. nat_lt 0 entry.home.count) entries.items }
{
    entries.retain(|entry| entry.home.count > 0);
    entries
}

/// How many entries a list has: each takes 72 bytes.
pub fn count_entries(entries: &[Entry]) -> u64
    ensures count { result ≡ length entries.now }
    ensures few { result < 2 ^ 62 }
{
    entries.len() as u64
}
