ghost use Rattle.std.specs.Prelude.{◌≡◌, ◌≤◌, ℕ, None, length, IfOk, IfSome, IsErrOf};
ghost use Rattle.disk_model.specs.Faults.{Rose};
ghost use Rattle.page_tree.specs.Chains.{chain_in};
ghost use Rattle.page_tree.specs.declared.fault.PageFault.TheVariants.{Damaged, ReadFault};
ghost use Rattle.table_state.specs.Flat.{Reads};

use disk_model::Disk;
use page_tree::{PageFault, PagePtr, RecordList, SectorList, read_chain};
use std::alloc::Global;

/// The records of a chain, whose sectors are appended to those that are named. `Damaged` comes only where
/// the chain is damaged; the error `Memory` is want of memory for the two lists.
pub fn read_records<D: Disk>(
    alloc: Global,
    disk: &D,
    meter: &mut D::Meter,
    root: &Option<PagePtr>,
    named: &mut SectorList,
) -> Result<RecordList, PageFault>
    ensures read { IfOk result (λ records. IfSome (D.state disk.now).seen (λ image.
        Reads image named.old.items root.now named.new.items records.items)) }
    ensures damaged { (sector : ℕ) → IsErrOf result (Damaged sector) →
        IfSome (D.state disk.now).seen (λ image. chain_in image (length image) named.old.items root.now ≡ None) }
    ensures count { D.meter_faults meter.old ≤ D.meter_faults meter.new }
    ensures cause { IsErrOf result ReadFault → Rose (D.meter_faults meter.old) (D.meter_faults meter.new) }
{
    let _sectors = disk.sectors();
    let mut records = RecordList::new(alloc);
    read_chain(disk, meter, root, named, &mut records)?;
    Ok(records)
}
