ghost use Rattle.std.specs.Prelude.{◌≡◌, ◌+◌, ◌<◌, ◌≤◌, ◌++◌, false, true, not, [], ℕ, List, Bool, length, drop, replicate, slice_index_or, slice_set, IfOk, OnErr};
ghost use Rattle.std.specs.List.{count_by, All};
ghost use Rattle.grant_book.specs.Sectors.{free_from, free_sectors, marked, AreFirstFree, FindsFree};
ghost use Rattle.grant_book.specs.Book.{Book, kept, settled, unmarked, IsTaken, IsGranted};

use crate::grant::Grant;
use crate::search::{count_free, first_free};
use crate::{PlaceList, SectorSet};
use std::alloc::{AllocError, Global};
use std::marker::Model;

/// Which sectors are used, which of them are let go at the next settling, and which are free.
#[derive(Drop)]
pub struct GrantBook {
    used: Vec<bool>,
    pending: Vec<bool>,
    free: u64,
    low: u64,
}

impl Model for GrantBook {
    ghost use Rattle.grant_book.specs.Book.{Book, IsBook};

    ghost Value = { Book };

    ghost view = { λ book. record { used = book.used.items; pending = book.pending.items } };

    ghost invariant = { λ book. IsBook book.used.items book.pending.items book.free book.low };
}

/// Uses a sector and puts it behind the places that were found, where it isn't used.
fn take_at(used: &mut Vec<bool>, places: &mut PlaceList, sector: u64)
    requires within { sector < length used.old.items }
    requires room { 0 < places.old.spare }
    ensures found { places.new.items ++ free_from (sector + 1) (drop (sector + 1) used.new.items)
        ≡ places.old.items ++ free_from sector (drop sector used.old.items) }
    ensures low { free_sectors used.old.items ≡ free_from sector (drop sector used.old.items)
        → free_sectors used.new.items ≡ free_from (sector + 1) (drop (sector + 1) used.new.items) }
    ensures marked { (start : List Bool) → used.old.items ≡ marked start places.old.items → used.new.items ≡ marked start places.new.items }
    ensures few { length places.new.items ≤ length places.old.items + 1 }
    ensures left { length places.new.items + places.new.spare ≡ length places.old.items + places.old.spare }
    ensures alike { length used.new.items ≡ length used.old.items }
{
    if used[sector as usize] {
        return;
    }
    used[sector as usize] = true;
    places.push(sector);
}

/// Uses the first free sectors, as many as are wanted, and appends them. No sector below `low` is free.
/// Answers a sector below which none is free then.
fn take_free(used: &mut Vec<bool>, places: &mut PlaceList, low: u64, wanted: u64) -> u64
    requires low { free_sectors used.old.items ≡ free_from low (drop low used.old.items) }
    requires enough { wanted ≤ count_by not used.old.items }
    requires none { places.old.items ≡ [] }
    requires room { wanted ≤ places.old.spare }
    ensures first { AreFirstFree used.old.items wanted places.new.items }
    ensures marked { used.new.items ≡ marked used.old.items places.new.items }
    ensures low { free_sectors used.new.items ≡ free_from result (drop result used.new.items) }
    ensures left { count_by not used.new.items + wanted ≡ count_by not used.old.items }
{
    'search: for sector in low..used.len() as u64 {
        if places.len() == wanted {
            return sector;
        }
        take_at(used, places, sector);
    }
    used.len() as u64
}

/// Lets go what is pending: a sector stays used where it was and isn't among these.
pub(crate) fn drop_pending(used: &mut Vec<bool>, pending: &[bool])
    requires { length pending.now ≡ length used.old.items }
    ensures kept { used.new.items ≡ kept used.old.items pending.now }
    ensures alike { length used.new.items ≡ length used.old.items }
{
    'sectors: for sector in 0..used.len() {
        used[sector] = used[sector] && !pending[sector];
    }
}

/// Takes back all notes.
fn clear(notes: &mut Vec<bool>)
    ensures { notes.new.items ≡ replicate (length notes.old.items) false }
{
    notes.as_mut_slice().fill(false);
}

/// Lets go what is pending, after which nothing is, and answers how many sectors aren't used then.
fn settle_notes(used: &mut Vec<bool>, pending: &mut Vec<bool>) -> u64
    requires { length pending.old.items ≡ length used.old.items }
    ensures kept { used.new.items ≡ kept used.old.items pending.old.items }
    ensures alike { length used.new.items ≡ length used.old.items }
    ensures none { pending.new.items ≡ replicate (length used.old.items) false }
    ensures free { result ≡ count_by not used.new.items }
{
    drop_pending(used, pending.as_slice());
    clear(pending);
    count_free(used.as_slice())
}

impl GrantBook {
    /// The book of these sectors, of which nothing is pending. It takes no memory: the set has brought it.
    pub fn of_used(used: SectorSet) -> GrantBook
        ensures used { result.used ≡ used }
        ensures pending { result.pending ≡ replicate (length used) false }
    {
        let (used, mut pending) = used.into_parts();
        clear(&mut pending);
        let free = count_free(used.as_slice());
        GrantBook {
            used,
            pending,
            free,
            low: 0,
        }
    }

    /// What is pending is used, and of each sector the book knows both. It does nothing.
    pub fn is_book(&self)
        ensures alike { length self.now.pending ≡ length self.now.used }
        ensures held { (sector : ℕ) → slice_index_or self.now.pending sector false ≡ true
            → slice_index_or self.now.used sector false ≡ true }
    {
        let _low = self.low;
    }

    /// How many sectors the pool has.
    pub fn len(&self) -> u64
        ensures { result ≡ length self.now.used }
    {
        self.used.len() as u64
    }

    /// Whether a sector is used, pending or not.
    pub fn has(&self, sector: u64) -> bool
        requires { sector < length self.now.used }
        ensures { result ≡ slice_index_or self.now.used sector false }
    {
        self.used[sector as usize]
    }

    /// How many sectors are free. The number is kept.
    pub fn free(&self) -> u64
        ensures { result ≡ count_by not self.now.used }
    {
        self.free
    }

    /// The first sectors that are free, in rising order, as many as are wanted; `None` where there are fewer.
    /// None of them is used by this. The error is want of memory.
    pub fn free_places(&self, alloc: Global, wanted: u64) -> Result<Option<PlaceList>, AllocError>
        ensures { IfOk result (FindsFree self.now.used wanted) }
    {
        if self.free < wanted {
            return Ok(None);
        }
        Ok(Some(first_free(alloc, self.used.as_slice(), self.low, wanted)?))
    }

    /// The set of the sectors that are used, pending or not. The error is want of memory.
    pub fn used(&self, alloc: Global) -> Result<SectorSet, AllocError>
        ensures { IfOk result (λ set. set ≡ self.now.used) }
    {
        SectorSet::of_notes(alloc, self.used.as_slice())
    }

    /// Notes in a set which sectors are used and not pending.
    pub fn used_after(&self, into: &mut SectorSet)
        requires { length into.old ≡ length self.now.used }
        ensures { into.new ≡ kept self.now.used self.now.pending }
    {
        into.take_over(self.used.as_slice(), self.pending.as_slice());
    }

    /// Gives out the first free places in rising order, as many as are wanted. They are used from then on,
    /// and none of them is pending. The error is want of memory; the book is then as before.
    pub fn grant(&mut self, alloc: Global, wanted: u64) -> Result<Grant, AllocError>
        requires { wanted ≤ count_by not self.old.used }
        ensures granted { IfOk result (IsGranted self.old self.new wanted) }
        ensures taken { IfOk result (All (IsTaken self.new.used self.new.pending)) }
        ensures refused { OnErr result (self.new ≡ self.old) }
    {
        let mut places = PlaceList::new(alloc);
        places.reserve(wanted)?;
        self.low = take_free(&mut self.used, &mut places, self.low, wanted);
        self.free -= wanted;
        Ok(Grant::of_places(places))
    }

    /// The places of a grant that weren't taken are free again.
    pub fn give_back(&mut self, grant: Grant)
        requires { All (IsTaken self.old.used self.old.pending) grant }
        ensures used { self.new.used ≡ unmarked self.old.used grant }
        ensures pending { self.new.pending ≡ self.old.pending }
    {
        self.put_all_back(grant.rest());
    }

    /// These places are free from now on.
    fn put_all_back(&mut self, places: &[u64])
        requires { All (IsTaken self.old.used self.old.pending) places.now }
        ensures used { self.new.used ≡ unmarked self.old.used places.now }
        ensures pending { self.new.pending ≡ self.old.pending }
    {
        'places: for place in places {
            self.put_back(*place);
        }
    }

    /// A place that isn't pending is free from now on.
    fn put_back(&mut self, place: u64)
        requires within { place < length self.old.used }
        requires stays { slice_index_or self.old.pending place false ≡ false }
        ensures used { self.new.used ≡ slice_set self.old.used place false }
        ensures pending { self.new.pending ≡ self.old.pending }
    {
        if !self.has(place) {
            return;
        }
        self.used[place as usize] = false;
        self.free += 1;
        self.low = self.low.min(place);
    }

    /// A used place is pending from now on: it is free once the book is settled.
    pub fn release(&mut self, place: u64)
        requires { slice_index_or self.old.used place false ≡ true }
        ensures used { self.new.used ≡ self.old.used }
        ensures pending { self.new.pending ≡ slice_set self.old.pending place true }
    {
        self.pending[place as usize] = true;
    }

    /// What was pending is free.
    pub fn settle(&mut self)
        ensures { self.new ≡ settled self.old }
    {
        self.free = settle_notes(&mut self.used, &mut self.pending);
        self.low = 0;
    }
}
