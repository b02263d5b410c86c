ghost use Rattle.std.specs.Prelude.{◌≡◌, ◌≤◌, ℕ, Some, IfOk, IfSome, IfNone, IsErrOf};
ghost use Rattle.disk_model.specs.Faults.{Rose};
ghost use Rattle.page_tree.specs.declared.fault.PageFault.TheVariants.{Damaged, ReadFault};
ghost use Rattle.uber_ring.specs.Ring.{newest};
ghost use Rattle.pool_model.specs.Pool.{Pool as APool};
ghost use Rattle.pool_model.specs.Table.{TableState};
ghost use Rattle.table_state.specs.Flat.{Flat, HasNoPool, IsDamaged, image_version};
ghost use Rattle.table_state.specs.Pools.{IsHeld};
ghost use Rattle.table_state.specs.Sound.{IsSound};
ghost use Rattle.pool_import.specs.Imports.{IsStanding, IsMadeOf};

use crate::flat::read_flat;
use crate::made::pool_of;
use disk_model::Disk;
use page_tree::PageFault;
use std::alloc::Global;
use table_state::{IMAGE_VERSION, Pool, is_formed};
use uber_ring::{SLOTS, Seal, find};

/// The pool of an image, for a key function with this tag, and `None` where no seal counts. `Damaged` comes
/// only where the image stands for no pool; the error `Memory` is want of memory.
pub fn find_pool<D: Disk>(
    alloc: Global,
    disk: &D,
    meter: &mut D::Meter,
    tag: u8,
) -> Result<Option<Pool>, PageFault>
    ensures none { IfOk result (λ found. IfNone found (IfSome (D.state disk.now).seen HasNoPool)) }
    ensures tagged { IfOk result (λ found. IfSome found (λ held. held.tag ≡ tag)) }
    ensures pool { IfOk result (λ found. IfSome found (λ held. IfSome (D.state disk.now).seen (λ image.
        (pool : APool) × (table : TableState) × IsHeld image held pool table))) }
    ensures sound { IfOk result (λ found. IfSome found IsSound) }
    ensures on_disk { IfOk result (λ found. IfSome found (λ held. held.sectors ≤ (D.state disk.now).sectors)) }
    ensures damaged { (sector : ℕ) → IsErrOf result (Damaged sector) → IfSome (D.state disk.now).seen (IsDamaged tag) }
    ensures count { D.meter_faults meter.old ≤ D.meter_faults meter.new }
    ensures cause { IsErrOf result ReadFault → Rose (D.meter_faults meter.old) (D.meter_faults meter.new) }
{
    let Ok(found) = find(disk, meter, IMAGE_VERSION) else {
        return Err(PageFault::ReadFault);
    };
    let Some(seal) = found else {
        return Ok(None);
    };
    let pool = sealed_pool(alloc, disk, meter, &seal, tag)?;
    Ok(Some(pool))
}

/// The pool under a seal. `Damaged` comes only where the image has no parts under it that keep all rules; the
/// error `Memory` is want of memory.
pub fn sealed_pool<D: Disk>(
    alloc: Global,
    disk: &D,
    meter: &mut D::Meter,
    seal: &Seal,
    tag: u8,
) -> Result<Pool, PageFault>
    ensures tagged { IfOk result (λ held. held.tag ≡ tag) }
    ensures pool { IfOk result (λ held. IfSome (D.state disk.now).seen (λ image. IsMadeOf tag image seal.now held)) }
    ensures sound { IfOk result IsSound }
    ensures on_disk { IfOk result (λ held. held.sectors ≤ (D.state disk.now).sectors) }
    ensures damaged { (sector : ℕ) → IsErrOf result (Damaged sector) →
        IfSome (D.state disk.now).seen (λ image. (flat : Flat) → IsStanding tag image seal.now flat → ⊥) }
    ensures count { D.meter_faults meter.old ≤ D.meter_faults meter.new }
    ensures cause { IsErrOf result ReadFault → Rose (D.meter_faults meter.old) (D.meter_faults meter.new) }
{
    let body = 2 * (seal.group % SLOTS as u64) + 1;
    if !is_formed(seal, tag, disk.sectors()) {
        return Err(PageFault::Damaged(body));
    }
    let flat = read_flat(alloc, disk, meter, seal)?;
    let Some(pool) = pool_of(alloc, disk, seal, tag, flat)? else {
        return Err(PageFault::Damaged(body));
    };
    Ok(pool)
}
