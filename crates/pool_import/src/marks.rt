ghost use Rattle.std.specs.Prelude.{◌≡◌, IfOk, map};
ghost use Rattle.pool_model.specs.Pool.{is_tracked};
ghost use Rattle.pool_model.specs.Table.{AreRising};
ghost use Rattle.table_state.specs.Flat.{mark_by, mark_of};
ghost use Rattle.pool_import.specs.Marks.{spot_among};

use crate::judge_keys::home_at;
use ddt_entry::{Entry, Home, Key, SlotKind};
use slot_table::SlotRecord;
use std::alloc::{AllocError, Global};

/// What the rules of the whole ask of a slot.
#[derive(Clone, Copy, Debug, PartialEq, Eq)]
pub struct Spot {
    /// The key of the block's content.
    pub key: Key,
    /// The number of the block's sector.
    pub place: u64,
    /// Whether the table counts the pointer.
    pub tracked: bool,
}

/// Whether the table counts a flagged pointer with this place and birth, whose key has this home.
fn is_home(home: Option<Home>, place: u64, birth: u64) -> bool
    ensures { result ≡ is_tracked (mark_by home place birth) }
{
    match home {
        None => false,
        Some(home) => home.count > 0 && home.place == place && home.birth == birth,
    }
}

/// What a slot's pointer is to a table that finds these homes.
fn spot_of(found: &[Entry], slot: &SlotRecord) -> Spot
    requires { AreRising found.now }
    ensures { result ≡ spot_among found.now slot.now }
{
    let pointer = slot.pointer;
    let tracked = match pointer.kind {
        SlotKind::Plain => false,
        SlotKind::Flagged => is_home(home_at(found, &pointer.key), pointer.place, pointer.birth),
    };
    Spot {
        key: pointer.key,
        place: pointer.place,
        tracked,
    }
}

/// What each slot's pointer is to a table that finds these homes. The error is want of memory.
pub fn spots_of(
    alloc: Global,
    found: &[Entry],
    slots: &[SlotRecord],
) -> Result<Vec<Spot>, AllocError>
    requires { AreRising found.now }
    ensures { IfOk result (λ spots. spots.items ≡ map (spot_among found.now) slots.now) }
{
    let mut spots = Vec::new(alloc);
    'slots: for slot in slots {
        spots.push(spot_of(found, slot))?;
    }
    Ok(spots)
}
