ghost use Rattle.std.specs.Prelude.{◌≡◌, ◌==◌, length, filter, take, min, IfOk};
ghost use Rattle.std.specs.Ordering.{is_lt};
ghost use Rattle.prune_walk.specs.Candidates.{age_cmp, by_age, is_old, share_of, taken_by, unique_homes};

use ddt_entry::Entry;
use pool_model::PruneRule;
use std::alloc::AllocError;
use std::cmp::Ordering;

/// A day in seconds.
const DAY: u64 = 86_400;

/// Those that one pointer counts.
pub fn unique_homes(mut entries: Vec<Entry>) -> Vec<Entry>
    ensures { result.items ≡ unique_homes entries.items }
{
    entries.retain(|entry| entry.home.count == 1);
    entries
}

/// The order of two homes: the older one first, and then by key.
fn age_cmp(entry: &Entry, other: &Entry) -> Ordering
    ensures { result ≡ age_cmp entry.now other.now }
{
    let by_age = entry.home.since.cmp(&other.home.since);
    by_age.then(entry.key.cmp(&other.key))
}

/// The oldest first, and then by key. The error is want of memory.
fn by_age(mut entries: Vec<Entry>) -> Result<Vec<Entry>, AllocError>
    ensures sorted { IfOk result (λ sorted. sorted.items ≡ by_age entries.items) }
    ensures len { IfOk result (λ sorted. length sorted.items ≡ length entries.items) }
{
    entries.sort_by(|entry, other| age_cmp(entry, other))?;
    Ok(entries)
}

/// Whether a home was counted so many days before a moment, or earlier.
fn is_old(entry: &Entry, days: u64, moment: u64) -> bool
    ensures { result ≡ is_old days moment entry.now }
{
    // The seconds of the days may pass 64 bits.
    u128::from(entry.home.since) + u128::from(DAY) * u128::from(days) <= u128::from(moment)
}

/// Those that were counted so many days before a moment, or earlier.
fn old_among(mut entries: Vec<Entry>, days: u64, moment: u64) -> Vec<Entry>
    ensures { result.items ≡ filter (is_old days moment) entries.items }
{
    entries.retain(|entry| is_old(entry, days, moment));
    entries
}

/// So many in a hundred of a count, rounded down, and no more than all of them.
fn share_of(percent: u64, count: usize) -> usize
    ensures { result ≡ min (share_of percent count) count }
{
    // The product may pass 64 bits.
    let share = u128::from(percent) * count as u128 / 100;
    share.min(count as u128) as usize
}

/// The first so many in a hundred, rounded down.
fn first_share(mut entries: Vec<Entry>, percent: u64) -> Vec<Entry>
    ensures { result.items ≡ take (share_of percent (length entries.items)) entries.items }
{
    entries.truncate(share_of(percent, entries.len()));
    entries
}

/// What a rule takes of homes, the oldest first, and then by key. The error is want of memory.
pub fn taken_by(rule: PruneRule, moment: u64, unique: Vec<Entry>) -> Result<Vec<Entry>, AllocError>
    ensures { IfOk result (λ taken. taken.items ≡ taken_by rule moment unique.items) }
{
    let sorted = by_age(unique)?;
    match rule {
        PruneRule::Age(days) => Ok(old_among(sorted, days, moment)),
        PruneRule::Share(percent) => Ok(first_share(sorted, percent)),
    }
}
