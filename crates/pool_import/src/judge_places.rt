ghost use Rattle.std.specs.Prelude.{◌≡◌, ◌≤◌, ◌==◌, ℕ, filter, IfOk, true, false, Some, None, replicate, slice_index, slice_index_or, slice_set, slice_get, if◌then◌else◌};
ghost use Rattle.std.specs.List.{list_all};
ghost use Rattle.std.specs.Option.{option_copied};
ghost use Rattle.grant_book.specs.Sectors.{marked};
ghost use Rattle.pool_import.specs.Marks.{are_shared, shares_with, are_owned, taken, places_of, places_in, is_clear};

use crate::marks::Spot;
use ddt_entry::Entry;
use grant_book::SectorSet;
use std::alloc::{AllocError, Global};

/// Whether a sector is used. One past the end isn't.
fn is_used(used: &SectorSet, sector: u64) -> bool
    ensures { result ≡ slice_index_or used.now sector false }
{
    if sector >= used.len() {
        return false;
    }
    used.has(sector)
}

/// The places of these slots are used from now on.
pub fn mark_spots(used: &mut SectorSet, spots: &[Spot])
    ensures { used.new ≡ marked used.old (places_of spots.now) }
{
    'spots: for spot in spots {
        used.mark(spot.place);
    }
}

/// Whether no slot's place is used.
pub fn are_clear(used: &SectorSet, spots: &[Spot]) -> bool
    ensures { result ≡ list_all (is_clear used.now) spots.now }
{
    'spots: for spot in spots {
        if is_used(used, spot.place) {
            return false;
        }
    }
    true
}

/// Takes the places of those of these homes that aren't counted, one after another, where each is free until
/// then. Says whether each was; where one wasn't, nothing is said of what is used.
pub fn take_waiting(used: &mut SectorSet, homes: &[Entry]) -> bool
    ensures { taken used.old (places_in (filter (λ entry. entry.home.count == 0) homes.now)) ≡ (if result then Some used.new else None) }
{
    'homes: for entry in homes {
        if entry.home.count > 0 {
            continue;
        }
        if is_used(used, entry.home.place) {
            return false;
        }
        used.mark(entry.home.place);
    }
    true
}

/// Whether the table counts both under one key.
fn are_shared(a: &Spot, b: &Spot) -> bool
    ensures { result ≡ are_shared a.now b.now }
{
    a.tracked && b.tracked && a.key == b.key
}

/// Whether a slot shares its home with the one of this index.
fn shares_with(spots: &[Spot], at: usize, spot: &Spot) -> bool
    ensures { result ≡ shares_with (slice_get spots.now at) spot.now }
{
    match spots.get(at) {
        None => false,
        Some(owner) => are_shared(owner, spot),
    }
}

/// The number of the slot that owns a sector, counted from 1; 0 where none does.
fn owner_of(owners: &[usize], sector: u64) -> usize
    ensures { result ≡ slice_index owners.now sector }
{
    owners.get(sector as usize).copied().unwrap_or(0)
}

/// Whether each slot that doesn't lie where an earlier one does, or shares its home. The error is want of
/// memory for the sectors' owners.
pub fn are_owned(alloc: Global, sectors: u64, spots: &[Spot]) -> Result<bool, AllocError>
    ensures { IfOk result (λ owned. owned ≡ are_owned spots.now 0 (replicate sectors 0) spots.now) }
{
    let mut owners = Vec::new(alloc);
    owners.resize(sectors as usize, 0)?;
    for (at, spot) in spots.iter().enumerate() {
        let owner = owner_of(owners.as_slice(), spot.place);
        if owner == 0 {
            own(&mut owners, spot.place, at + 1);
        } else if !shares_with(spots, owner - 1, spot) {
            return Ok(false);
        }
    }
    Ok(true)
}

/// A sector has this owner from now on, unless it lies past the end.
fn own(owners: &mut Vec<usize>, sector: u64, owner: usize)
    ensures { owners.new.items ≡ slice_set owners.old.items sector owner }
{
    if sector >= owners.len() as u64 {
        return;
    }
    owners[sector as usize] = owner;
}
