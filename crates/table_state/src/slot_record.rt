//! A slot of a lane as 72 bytes, and back.

ghost use Rattle.std.specs.Prelude.{◌≡◌, Option, Some, None};
ghost use Rattle.ddt_entry.specs.Spelling.{KeyFits};
ghost use Rattle.slot_table.specs.declared.slot.SlotRecord.{SlotRecord};
ghost use Rattle.table_state.specs.SlotRecords.{kind_said, slot_at, is_slot, slot_in};
ghost use Rattle.table_state.specs.Spelling.{kind_number, slot_bytes, FitsSlot};

use ddt_entry::fields::{array_at, u32_at, u64_at};
use ddt_entry::{Key, MAX_BLOCK_BYTES, Pointer, SlotKind};
use slot_table::SlotRecord;

/// The bytes of a slot's record.
pub const SLOT_RECORD_BYTES: usize = 72;

/// The highest number of a lane.
const LAST_LANE: u32 = 15;

/// The highest number of a slot.
const LAST_SLOT: u32 = 65_535;

/// The first sector in which a block can lie.
const FIRST_PLACE: u64 = 32;

/// The group that makes the first blocks.
const FIRST_GROUP: u64 = 1;

/// The kind of a record whose pointer is plain.
const PLAIN: u32 = 1;

/// The kind of a record whose pointer is flagged.
const FLAGGED: u32 = 2;

/// The number that stands for a kind.
fn number_of(kind: SlotKind) -> u32
    ensures { result ≡ kind_number kind }
{
    match kind {
        SlotKind::Plain => PLAIN,
        SlotKind::Flagged => FLAGGED,
    }
}

/// The kind that a number stands for.
fn kind_of(number: u32) -> Option<SlotKind>
    ensures { result ≡ kind_said number }
{
    match number {
        PLAIN => Some(SlotKind::Plain),
        FLAGGED => Some(SlotKind::Flagged),
        _ => None,
    }
}

/// The fields beside the kind, said of a pointer of this kind.
fn fields_at(kind: SlotKind, from: &[u8; SLOT_RECORD_BYTES]) -> SlotRecord
    ensures { result ≡ slot_at kind from.now }
{
    SlotRecord {
        lane: u32_at(from, 0),
        slot: u32_at(from, 4),
        pointer: Pointer {
            kind,
            key: Key {
                digest: array_at(from, 16),
                len: u32_at(from, 12),
            },
            place: u64_at(from, 48),
            birth: u64_at(from, 56),
        },
    }
}

/// Whether each field is in its range.
fn is_in_range(held: &SlotRecord, sectors: u64, group: u64) -> bool
    ensures { result ≡ is_slot sectors group held.now }
{
    held.lane <= LAST_LANE
        && held.slot <= LAST_SLOT
        && (held.pointer.key.len >= 1 && held.pointer.key.len <= MAX_BLOCK_BYTES)
        && held.pointer.place >= FIRST_PLACE
        && held.pointer.place < sectors
        && held.pointer.birth >= FIRST_GROUP
        && held.pointer.birth <= group
}

/// The slot that a record spells, in a pool of these sectors under a seal of this group. `None` where the lane is
/// above 15, the slot above 65,535, the kind neither 1 nor 2, the key's length not from 1 to 4,096, the place below 32
/// or not below the sectors, or the birth 0 or above the group. The last 8 bytes don't matter. Takes no memory.
pub fn read_slot(from: &[u8; SLOT_RECORD_BYTES], sectors: u64, group: u64) -> Option<SlotRecord>
    ensures { result ≡ slot_in sectors group from.now }
{
    let kind = kind_of(u32_at(from, 8))?;
    let held = fields_at(kind, from);
    if is_in_range(&held, sectors, group) {
        Some(held)
    } else {
        None
    }
}

/// Writes the fields, one behind the other.
#[tactic(auto, unfolding(ddt_entry::specs::Bytes::number_bytes, ddt_entry::specs::Bytes::zeros))]
fn write_fields(held: &SlotRecord, out: &mut [u8; SLOT_RECORD_BYTES])
    ensures { out.new ≡ slot_bytes held.now }
{
    let (field, rest) = out.split_at_mut(4);
    field.copy_from_slice(&held.lane.to_le_bytes());
    let (field, rest) = rest.split_at_mut(4);
    field.copy_from_slice(&held.slot.to_le_bytes());
    let (field, rest) = rest.split_at_mut(4);
    field.copy_from_slice(&number_of(held.pointer.kind).to_le_bytes());
    let (field, rest) = rest.split_at_mut(4);
    field.copy_from_slice(&held.pointer.key.len.to_le_bytes());
    let (field, rest) = rest.split_at_mut(32);
    field.copy_from_slice(&held.pointer.key.digest);
    let (field, rest) = rest.split_at_mut(8);
    field.copy_from_slice(&held.pointer.place.to_le_bytes());
    let (field, rest) = rest.split_at_mut(8);
    field.copy_from_slice(&held.pointer.birth.to_le_bytes());
    rest.copy_from_slice(&[0; 8]);
}

/// The record of a slot: 72 bytes, the last 8 of which are zeros. Takes no memory.
pub fn write_slot(held: &SlotRecord) -> [u8; SLOT_RECORD_BYTES]
    ensures { result ≡ slot_bytes held.now }
{
    let mut out = [0; SLOT_RECORD_BYTES];
    write_fields(held, &mut out);
    out
}

/// A key by value fits, since its types say so.
pub fn key_fits(key: Key)
    ensures { KeyFits key }
{}

/// Each part of a slot fits its field, for whoever has one at hand and wants a law of its record. It does nothing.
pub fn slot_fits(held: SlotRecord)
    ensures { FitsSlot held }
{
    key_fits(held.pointer.key);
}
