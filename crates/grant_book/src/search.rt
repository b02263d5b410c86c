//! The search for free sectors.

ghost use Rattle.std.specs.Prelude.{◌≡◌, ◌+◌, ◌<◌, ◌≤◌, ◌++◌, not, length, drop, IfOk};
ghost use Rattle.std.specs.List.{count_by};
ghost use Rattle.grant_book.specs.Sectors.{free_from, free_sectors, AreFirstFree};

use crate::PlaceList;
use std::alloc::{AllocError, Global};

/// How many of these sectors aren't used.
pub(crate) fn count_free(used: &[bool]) -> u64
    ensures { result ≡ count_by not used.now }
{
    let mut count = 0;
    'sectors: for is_used in used {
        if !*is_used {
            count += 1;
        }
    }
    count
}

/// Puts a sector behind the places that were found, where it isn't used.
fn put_free(used: &[bool], places: &mut PlaceList, sector: u64)
    requires within { sector < length used.now }
    requires room { 0 < places.old.spare }
    ensures found { places.new.items ++ free_from (sector + 1) (drop (sector + 1) used.now)
        ≡ places.old.items ++ free_from sector (drop sector used.now) }
    ensures few { length places.new.items ≤ length places.old.items + 1 }
    ensures left { length places.new.items + places.new.spare ≡ length places.old.items + places.old.spare }
{
    if !used[sector as usize] {
        places.push(sector);
    }
}

/// The first sectors that aren't used, in rising order, as many as are wanted, of which there are enough. No
/// sector below `low` is free. The error is want of memory.
pub(crate) fn first_free(
    alloc: Global,
    used: &[bool],
    low: u64,
    wanted: u64,
) -> Result<PlaceList, AllocError>
    requires low { free_sectors used.now ≡ free_from low (drop low used.now) }
    requires enough { wanted ≤ count_by not used.now }
    ensures { IfOk result (λ places. AreFirstFree used.now wanted places.items) }
{
    let mut places = PlaceList::new(alloc);
    places.reserve(wanted)?;
    'search: for sector in low..used.len() as u64 {
        if places.len() == wanted {
            return Ok(places);
        }
        put_free(used, &mut places, sector);
    }
    Ok(places)
}
