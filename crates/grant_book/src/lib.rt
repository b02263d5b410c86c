//! Which sectors of a pool are used, and where a writer may put its pages and blocks.
//!
//! A `SectorSet` notes for each sector whether it is used. Who marks a sector, and when it may be let
//! go, is the affair of the crates above; here stands only that a place that is given out was free.
//! `with_ring` begins a set in which the ring is used, and `mark_all` uses more.
//! `free_places` gives the first free sectors in rising order, as many as were wanted, or says that
//! there are fewer. It marks none of them.
//!
//! A `GrantBook` is a set from which places are given out while groups run. `grant` gives the first free
//! places, as a `Grant` that its holder takes them from one by one; they are used in the book at once,
//! though nothing names them before the group is sealed. What wasn't taken goes back. A place that is
//! released, since a group names it no more, is pending until `settle`, which a sync calls at its end: the
//! newest sealed group may still name it until then, and nothing else is written there. So a sector is used,
//! pending or free, and a place that is given out was free, is given out once, and isn't pending
//! (`specs/Book.antt`). `grant` takes memory, and so do `free_places`, which uses none of the places that it finds, and
//! `used`, which makes a set of the sectors that are used; for what is pending the set has brought the room.
//!
//! The number of free sectors is kept. A search goes on from where the last one ended, or from the lowest place
//! that was given back since, and begins anew only after `settle`: giving out n places takes a step for each, and
//! one for each used sector between them. `give_back` takes a step for each place, `of_used`, `settle`,
//! `used` and `used_after` go over all sectors, and any other call of the book takes the same time in every pool.
//!
//! `LaneSlots` has what the slots hold that a lane's commands name, while the lane runs. A look-up takes a time of
//! the logarithm of their number.
#![tactic(auto)]

ghost use Rattle.std.specs.Prelude.{◌≡◌, ◌<◌, ◌≤◌, true, false, not, length, replicate, slice_index_or, slice_set, IfOk};
ghost use Rattle.std.specs.List.{count_by};
ghost use Rattle.grant_book.specs.Sectors.{marked, ring_used, FindsFree};
ghost use Rattle.grant_book.specs.Book.{kept};

mod book;
mod grant;
mod lane_slots;
mod search;

pub use book::GrantBook;
pub use ddt_entry::{Pointer, SlotKind};
pub use grant::Grant;
pub use lane_slots::{LaneSlots, SlotView};
use reserved_list::ReservedList;
use search::{count_free, first_free};
use std::alloc::{AllocError, Global};
use std::marker::Model;

/// Places on a disk, by their sectors.
pub type PlaceList = ReservedList<u64>;

/// For each sector of a pool whether it is used.
#[derive(Drop)]
pub struct SectorSet {
    used: Vec<bool>,
    /// Room in which a book notes what is pending.
    room: Vec<bool>,
}

impl Model for SectorSet {
    ghost use Rattle.std.specs.Prelude.{◌≡◌, Bool, List, length};

    ghost Value = { List Bool };

    ghost view = { λ set. set.used.items };

    ghost invariant = { λ set. length set.room.items ≡ length set.used.items };
}

impl SectorSet {
    /// A pool of so many sectors, none of which is used. The error is want of memory, also of that in which a
    /// book notes what is pending.
    pub fn new(alloc: Global, sectors: u64) -> Result<Self, AllocError>
        ensures { IfOk result (λ set. set ≡ replicate sectors false) }
    {
        let used = vec![in alloc; false; sectors as usize]?;
        let room = vec![in alloc; false; sectors as usize]?;
        Ok(SectorSet { used, room })
    }

    /// A pool of so many sectors, of which the ring's are used. The error is want of memory.
    pub fn with_ring(alloc: Global, sectors: u64) -> Result<Self, AllocError>
        requires { 32 ≤ sectors }
        ensures { IfOk result (λ set. set ≡ ring_used sectors) }
    {
        let mut used = SectorSet::new(alloc, sectors)?;
        'ring: for sector in 0..32 {
            used.set(sector, true);
        }
        Ok(used)
    }

    /// The set of these notes. The error is want of memory.
    fn of_notes(alloc: Global, notes: &[bool]) -> Result<Self, AllocError>
        ensures { IfOk result (λ set. set ≡ notes.now) }
    {
        let used = Vec::from_slice(alloc, notes)?;
        let room = Vec::from_slice(alloc, notes)?;
        Ok(SectorSet { used, room })
    }

    /// How many sectors the pool has.
    pub fn len(&self) -> u64
        ensures { result ≡ length self.now }
    {
        self.used.len() as u64
    }

    /// Whether a sector is used.
    pub fn has(&self, sector: u64) -> bool
        requires { sector < length self.now }
        ensures { result ≡ slice_index_or self.now sector false }
    {
        self.used[sector as usize]
    }

    /// Notes of a sector whether it is used.
    pub fn set(&mut self, sector: u64, used: bool)
        requires { sector < length self.old }
        ensures { self.new ≡ slice_set self.old sector used }
    {
        self.used[sector as usize] = used;
    }

    /// A sector is used from now on, unless it lies past the end.
    pub fn mark(&mut self, sector: u64)
        ensures { self.new ≡ slice_set self.old sector true }
    {
        if sector >= self.len() {
            return;
        }
        self.set(sector, true);
    }

    /// These sectors are used from now on. Those past the end change nothing.
    pub fn mark_all(&mut self, sectors: &[u64])
        ensures { self.new ≡ marked self.old sectors.now }
    {
        'sectors: for sector in sectors {
            self.mark(*sector);
        }
    }

    /// The notes of the sectors, and the room for as many more.
    fn into_parts(self) -> (Vec<bool>, Vec<bool>)
        ensures used { result.0.items ≡ self }
        ensures room { length result.1.items ≡ length self }
    {
        (self.used, self.room)
    }

    /// Takes over which sectors are used in a book, without those that are pending there.
    fn take_over(&mut self, used: &[bool], pending: &[bool])
        requires used { length used.now ≡ length self.old }
        requires pending { length pending.now ≡ length self.old }
        ensures { self.new ≡ kept used.now pending.now }
    {
        self.copy_from(used);
        book::drop_pending(&mut self.used, pending);
    }

    /// Takes over these notes.
    fn copy_from(&mut self, used: &[bool])
        requires { length used.now ≡ length self.old }
        ensures { self.new ≡ used.now }
    {
        self.used.as_mut_slice().copy_from_slice(used);
    }

    /// How many sectors aren't used.
    pub fn free(&self) -> u64
        ensures { result ≡ count_by not self.now }
    {
        count_free(self.used.as_slice())
    }

    /// The first sectors that aren't used, in rising order, as many as are wanted; `None` where there are
    /// fewer. The error is want of memory.
    pub fn free_places(&self, alloc: Global, wanted: u64) -> Result<Option<PlaceList>, AllocError>
        ensures { IfOk result (FindsFree self.now wanted) }
    {
        if self.free() < wanted {
            return Ok(None);
        }
        Ok(Some(first_free(alloc, self.used.as_slice(), 0, wanted)?))
    }
}
