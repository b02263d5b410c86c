ghost use Rattle.std.specs.Prelude.{◌≡◌, ◌≤◌, ℕ, true, IfOk, IfSome, IsErrOf, slice_get};
ghost use Rattle.std.specs.List.{AllByRecursion};
ghost use Rattle.disk_model.specs.Faults.{Rose};
ghost use Rattle.page_tree.specs.declared.fault.PageFault.TheVariants.{Damaged, ReadFault};
ghost use Rattle.table_state.specs.Flat.{Flat, IsRead};
ghost use Rattle.table_state.specs.SlotRecords.{is_slot};
ghost use Rattle.pool_import.specs.Lengths.{HasLengths};

use crate::parts::{read_changes, read_entries, read_slots};
use disk_model::Disk;
use page_tree::{PageFault, PagePtr, SectorList};
use pool_model::{ChangeList, EntryList};
use slot_table::SlotList;
use std::alloc::Global;
use std::marker::Model;
use uber_ring::Seal;

/// What the five chains of a flat image keep, and the sectors of their pages in the order in which they
/// were read.
#[derive(Drop)]
pub struct FlatImage {
    /// The slots that hold a pointer.
    pub slots: SlotList,
    /// The entries of the stored table with a count of 1.
    pub unique: EntryList,
    /// The entries of the stored table with a higher count.
    pub duplicate: EntryList,
    /// The changes of the active log.
    pub active: ChangeList,
    /// The changes of the flushing log.
    pub flushing: ChangeList,
    /// The sectors of all pages.
    pub named: SectorList,
}

impl Model for FlatImage {
    ghost use Rattle.table_state.specs.Flat.{Flat};

    ghost Value = { Flat };

    ghost view = { λ flat. record {
      slots = flat.slots.items;
      unique = flat.unique.items;
      duplicate = flat.duplicate.items;
      active = flat.active.items;
      flushing = flat.flushing.items;
      named = flat.named.items;
    } };
}

/// The pointer to a chain's first page.
fn root(seal: &Seal, at: usize) -> Option<PagePtr>
    ensures { result ≡ slice_get seal.now.pointers at }
{
    seal.pointers.get(at).copied()
}

/// Reads the five chains that a seal names, one behind the other. `Damaged` comes only where they are
/// damaged, name a sector twice, or have a record that spells nothing of what it should; the error
/// `Memory` is want of memory.
pub fn read_flat<D: Disk>(
    alloc: Global,
    disk: &D,
    meter: &mut D::Meter,
    seal: &Seal,
) -> Result<FlatImage, PageFault>
    ensures read { IfOk result (λ flat. IfSome (D.state disk.now).seen (λ image. IsRead image seal.now flat)) }
    ensures slots { IfOk result (λ flat. AllByRecursion (λ slot. is_slot seal.now.sectors seal.now.group slot ≡ true) flat.slots) }
    ensures lengths { IfOk result (λ flat. HasLengths flat) }
    ensures damaged { (sector : ℕ) → IsErrOf result (Damaged sector) →
        IfSome (D.state disk.now).seen (λ image. (flat : Flat) → IsRead image seal.now flat → ⊥) }
    ensures count { D.meter_faults meter.old ≤ D.meter_faults meter.new }
    ensures cause { IsErrOf result ReadFault → Rose (D.meter_faults meter.old) (D.meter_faults meter.new) }
{
    let mut named = SectorList::new(alloc);
    let first = root(seal, 0);
    let slots = read_slots(
        alloc,
        disk,
        meter,
        &first,
        &mut named,
        seal.sectors,
        seal.group,
    )?;
    let second = root(seal, 1);
    let unique = read_entries(alloc, disk, meter, &second, &mut named)?;
    let third = root(seal, 2);
    let duplicate = read_entries(alloc, disk, meter, &third, &mut named)?;
    let fourth = root(seal, 3);
    let active = read_changes(alloc, disk, meter, &fourth, &mut named)?;
    let fifth = root(seal, 4);
    let flushing = read_changes(alloc, disk, meter, &fifth, &mut named)?;
    Ok(FlatImage {
        slots,
        unique,
        duplicate,
        active,
        flushing,
        named,
    })
}
