ghost use Rattle.std.specs.Prelude.{◌≡◌, ◌≤◌, ℕ, IfOk, IfSome, IfNone, OnOk, IsErrOf};
ghost use Rattle.disk_model.specs.DiskLaws.{Stays};
ghost use Rattle.disk_model.specs.Crashes.{LeavesOnly, NothingPending};
ghost use Rattle.disk_model.specs.Faults.{Rose};
ghost use Rattle.pool_model.specs.Pool.{Pool as APool};
ghost use Rattle.pool_model.specs.Table.{TableState};
ghost use Rattle.pool_model.specs.declared.faults.SyncFault.TheVariants.{Damaged, ReadFault, WriteFault, GateFault};
ghost use Rattle.table_state.specs.Flat.{HasNoPool, IsDamaged};
ghost use Rattle.table_state.specs.Pools.{IsHeld};
ghost use Rattle.table_state.specs.Sound.{IsSound};
ghost use Rattle.pool_import.specs.Faults.{sync_fault_of, told_of};

use crate::sealed::find_pool;
use ddt_entry::KeyOf;
use disk_model::{Disk, crash_laws};
use page_tree::PageFault;
use pool_model::SyncFault;
use std::alloc::Global;
use table_state::Pool;

/// The pool that the newest sealed group left on a disk, for a key function, and `None` where there is none.
/// `Damaged` comes only where the image stands for no pool of this key function; the error `Memory` is want of
/// memory. Before it reads, all that was written to the disk is made to last: where that fails, nothing is
/// said of the image, and the error is `WriteFault`.
pub fn import<D: Disk, K: KeyOf>(
    alloc: Global,
    disk: &mut D,
    keyer: &K,
) -> Result<Option<Pool>, SyncFault>
    ensures sectors { (D.state disk.new).sectors ≡ (D.state disk.old).sectors }
    ensures stays { Stays (D.state disk.old).seen (D.state disk.new).seen }
    ensures none { IfOk result (λ found. IfNone found (IfSome (D.state disk.old).seen HasNoPool)) }
    ensures pool { IfOk result (λ found. IfSome found (λ held.
        (held.tag ≡ (K.keying keyer.now).tag) × IfSome (D.state disk.old).seen (λ image.
        (pool : APool) × (table : TableState) × IsHeld image held pool table))) }
    ensures sound { IfOk result (λ found. IfSome found IsSound) }
    ensures on_disk { IfOk result (λ found. IfSome found (λ held. held.sectors ≤ (D.state disk.new).sectors)) }
    ensures damaged { (sector : ℕ) → IsErrOf result (Damaged sector) → IfSome (D.state disk.old).seen (IsDamaged (K.keying keyer.now).tag) }
    ensures gate { IsErrOf result GateFault → ⊥ }
    ensures durable { OnOk result (NothingPending (D.state disk.old).seen (D.state disk.new).may_leave) }
    ensures any_moment { LeavesOnly (D.state disk.old) (D.state disk.new) (D.state disk.old).may_leave }
    ensures reads { (D.state disk.old).read_faults ≤ (D.state disk.new).read_faults }
    ensures writes { (D.state disk.old).write_faults ≤ (D.state disk.new).write_faults }
    ensures read_cause { IsErrOf result ReadFault → Rose (D.state disk.old).read_faults (D.state disk.new).read_faults }
    ensures write_cause { IsErrOf result WriteFault → Rose (D.state disk.old).write_faults (D.state disk.new).write_faults }
{
    crash_laws(disk);
    let tag = keyer.tag();
    let Ok(mut meter) = disk.meter() else {
        return Err(SyncFault::WriteFault);
    };
    let Ok(()) = disk.barrier() else {
        disk.retire(meter);
        return Err(SyncFault::WriteFault);
    };
    let answer = find_pool(alloc, disk, &mut meter, tag);
    disk.retire(meter);
    told(answer)
}

/// The same answer, with the fault that an import tells.
fn told(answer: Result<Option<Pool>, PageFault>) -> Result<Option<Pool>, SyncFault>
    ensures { result ≡ told_of answer }
{
    match answer {
        Ok(found) => Ok(found),
        Err(PageFault::ReadFault) => Err(SyncFault::ReadFault),
        Err(PageFault::Damaged(sector)) => Err(SyncFault::Damaged(sector)),
        Err(PageFault::Memory) => Err(SyncFault::Memory),
    }
}
