ghost use Rattle.std.specs.Prelude.{◌≡◌, ◌==◌, ◌<◌, ◌^◌, ℕ, true, IfOk, nat_lt, map, filter, count_by, sum_by};
ghost use Rattle.std.specs.List.{list_all};
ghost use Rattle.pool_import.specs.Marks.{counts_for, is_counted, sums_agree};
ghost use Rattle.pool_model.specs.Table.{AreRising};

use crate::judge_keys::index_of;
use crate::marks::Spot;
use ddt_entry::Entry;
use plain_table::count_entries;
use std::alloc::{AllocError, Global};
use uber_ring::Seal;

/// How many slots the table counts under the key of each of these homes, which rise by key. The error is
/// want of memory.
fn tallies_of(alloc: Global, homes: &[Entry], spots: &[Spot]) -> Result<Vec<u64>, AllocError>
    requires { AreRising homes.now }
    ensures { IfOk result (λ tallies. tallies.items ≡ map (λ entry. count_by (counts_for entry.key) spots.now) homes.now) }
{
    let mut tallies = Vec::new(alloc);
    tallies.resize(homes.len(), 0)?;
    'spots: for spot in spots {
        if !spot.tracked {
            continue;
        }
        let Some(at) = index_of(homes, &spot.key) else {
            continue;
        };
        tallies[at] += 1;
    }
    Ok(tallies)
}

/// Whether each home's count is the number of slots that are counted under its key. The error is want of
/// memory.
pub fn are_counted(alloc: Global, homes: &[Entry], spots: &[Spot]) -> Result<bool, AllocError>
    requires { AreRising homes.now }
    ensures { IfOk result (λ counted. counted ≡ list_all (is_counted spots.now) homes.now) }
{
    let tallies = tallies_of(alloc, homes, spots)?;
    for (at, entry) in homes.iter().enumerate() {
        if tallies[at] != entry.home.count {
            return Ok(false);
        }
    }
    Ok(true)
}

/// Whether the homes' counts come to this sum.
fn sum_is(homes: &[Entry], counts: u64) -> bool
    ensures { result ≡ (counts == sum_by (λ entry. entry.home.count) homes.now) }
{
    let mut left = counts;
    'homes: for entry in homes {
        if entry.home.count > left {
            return false;
        }
        left -= entry.home.count;
    }
    left == 0
}

/// Whether a seal's sums are right, for these homes and so many pages.
pub fn sums_agree(seal: &Seal, homes: &[Entry], pages: u64) -> bool
    ensures agree { result ≡ sums_agree seal.now homes.now pages }
    ensures few { result ≡ true → seal.now.homes < 2 ^ 62 }
{
    if seal.homes != count_entries(homes) {
        return false;
    }
    sum_is(homes, seal.counts) && seal.pages == pages
}
