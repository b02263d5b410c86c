ghost use Rattle.std.specs.Prelude.{◌≡◌, ◌≤◌, ◌+◌, ℕ, List, Some, None, length, IfOk, OnOk, IsErrOf};
ghost use Rattle.disk_model.specs.Images.{Image};
ghost use Rattle.disk_model.specs.DiskLaws.{Stays};
ghost use Rattle.disk_model.specs.Crashes.{LeavesOnly, NothingPending};
ghost use Rattle.disk_model.specs.Faults.{Rose};
ghost use Rattle.pool_model.specs.Group.{Standing};
ghost use Rattle.pool_model.specs.declared.faults.SyncFault.TheVariants.{ReadFault, WriteFault, GateFault, Damaged, Memory};
ghost use Rattle.table_state.specs.Closing.{closed_of, records_after, pages_of, IsInRange, CanSyncOver};
ghost use Rattle.table_state.specs.Over.{StandsOver};
ghost use Rattle.table_state.specs.SealForms.{last_group};
ghost use Rattle.table_state.specs.Sound.{IsSound};
ghost use Rattle.txg_sync.specs.Syncing.{Syncs, SyncLeaves, BeforeGate, StopsAtGate};
ghost use Rattle.txg_sync.specs.Planning.{IsNext, IsPlan};
ghost use Rattle.txg_sync.specs.SyncFaults.{sync_fault_of};

use crate::fault::SealFault;
use crate::fits::logs_fit;
use crate::group::seal_group;
use crate::planning::{Plan, plan_group};
use disk_model::{Disk, crash_laws};
use pool_model::{Closed, SyncFault};
use std::alloc::Global;
use std::snapshot::Snapshot;
use table_state::Pool;

/// Syncs a group that was closed, behind the newest sealed one: plans it, and seals it. Answers the number of
/// the group, of which `pool` is the pool from then on; after a fault `pool` is given up, and what the disk
/// holds is to be imported. `Memory` and `Damaged` come before anything is written; `Damaged` comes only over
/// a disk that doesn't tell its contents, where fewer sectors are free than the group's pages need. `WriteFault`
/// comes before the gate of the group's seal is written, `GateFault` from then on.
pub fn sync<D: Disk>(
    alloc: Global,
    pool: &mut Pool,
    disk: &mut D,
    closed: &Closed,
) -> Result<u64, SyncFault>
    requires sound { IsSound pool.old }
    requires range { IsInRange pool.old (closed_of closed.now) }
    requires last { pool.old.group + 1 ≤ last_group }
    requires on_disk { pool.old.sectors ≤ (D.state disk.old).sectors }
    requires over { CanSyncOver (D.state disk.old).seen pool.old (closed_of closed.now) }
    ensures sectors { (D.state disk.new).sectors ≡ (D.state disk.old).sectors }
    ensures number { IfOk result (λ number. (number ≡ pool.old.group + 1) × (number ≡ pool.new.group)) }
    ensures made { OnOk result (IsNext pool.old (closed_of closed.now) pool.new.pages pool.new) }
    ensures size { OnOk result ((pool.new.sectors ≡ pool.old.sectors) × (pool.new.tag ≡ pool.old.tag)) }
    ensures synced { OnOk result (Syncs (D.state disk.old).seen pool.old (closed_of closed.now) pool.new (D.state disk.new).seen) }
    ensures pages { OnOk result (length pool.new.pages ≡ pages_of (records_after pool.old (closed_of closed.now))) }
    ensures next { OnOk result (IsSound pool.new) }
    ensures durable { OnOk result (NothingPending (D.state disk.new).seen (D.state disk.new).may_leave) }
    ensures any_moment { (image : Image) (s : Standing) → (D.state disk.old).seen ≡ Some image
        → NothingPending (Some image) (D.state disk.old).may_leave → StandsOver image pool.old s
        → (pages : List ℕ) × (length pages ≡ pages_of (records_after pool.old (closed_of closed.now)))
        × OnOk result (pages ≡ pool.new.pages)
        × LeavesOnly (D.state disk.old) (D.state disk.new) (SyncLeaves image pool.old (closed_of closed.now) s pages) }
    ensures before_the_gate { (image : Image) (s : Standing) → (D.state disk.old).seen ≡ Some image
        → NothingPending (Some image) (D.state disk.old).may_leave → StandsOver image pool.old s → IsErrOf result WriteFault
        → LeavesOnly (D.state disk.old) (D.state disk.new) (BeforeGate image pool.old s) }
    ensures at_the_gate { IsErrOf result GateFault
        → StopsAtGate (D.state disk.old).seen pool.old (closed_of closed.now) (D.state disk.new).seen }
    ensures unwritten { IsErrOf result Memory → disk.new ≡ disk.old }
    ensures damaged { (sector : ℕ) → IsErrOf result (Damaged sector) → (disk.new ≡ disk.old) × ((D.state disk.old).seen ≡ None) }
    ensures unread { IsErrOf result ReadFault → Stays (D.state disk.old).seen (D.state disk.new).seen }
    ensures unread_crash { IsErrOf result ReadFault → (c : Image) → (D.state disk.new).may_leave c → (D.state disk.old).may_leave c }
    ensures reads { (D.state disk.old).read_faults ≤ (D.state disk.new).read_faults }
    ensures writes { (D.state disk.old).write_faults ≤ (D.state disk.new).write_faults }
    ensures read_cause { IsErrOf result ReadFault → Rose (D.state disk.old).read_faults (D.state disk.new).read_faults }
    ensures write_cause { IsErrOf result WriteFault → Rose (D.state disk.old).write_faults (D.state disk.new).write_faults }
    ensures gate_cause { IsErrOf result GateFault → Rose (D.state disk.old).write_faults (D.state disk.new).write_faults }
{
    crash_laws(disk);
    let _sectors = disk.sectors();
    let before = Snapshot::of(pool);
    let Ok(planned) = plan_group(alloc, pool, disk, closed) else {
        return Err(SyncFault::Memory);
    };
    let Some(planned) = planned else {
        return Err(SyncFault::Damaged(0));
    };
    write_plan(pool, before, disk, closed, &planned)
}

/// Writes what was planned for the pool that stood before, which makes it this one.
fn write_plan<D: Disk>(
    pool: &Pool,
    before: Snapshot<Pool>,
    disk: &mut D,
    closed: &Closed,
    planned: &Plan,
) -> Result<u64, SyncFault>
    requires sound { IsSound before.value }
    requires range { IsInRange before.value (closed_of closed.now) }
    requires last { before.value.group + 1 ≤ last_group }
    requires on_disk { before.value.sectors ≤ (D.state disk.old).sectors }
    requires over { CanSyncOver (D.state disk.old).seen before.value (closed_of closed.now) }
    requires planned { IsPlan before.value (closed_of closed.now) pool.now planned.now.parts.items planned.now.seal }
    ensures sectors { (D.state disk.new).sectors ≡ (D.state disk.old).sectors }
    ensures number { IfOk result (λ number. (number ≡ before.value.group + 1) × (number ≡ pool.now.group)) }
    ensures made { OnOk result (IsNext before.value (closed_of closed.now) pool.now.pages pool.now) }
    ensures size { OnOk result ((pool.now.sectors ≡ before.value.sectors) × (pool.now.tag ≡ before.value.tag)) }
    ensures synced { OnOk result (Syncs (D.state disk.old).seen before.value (closed_of closed.now) pool.now (D.state disk.new).seen) }
    ensures pages { OnOk result (length pool.now.pages ≡ pages_of (records_after before.value (closed_of closed.now))) }
    ensures next { OnOk result (IsSound pool.now) }
    ensures durable { OnOk result (NothingPending (D.state disk.new).seen (D.state disk.new).may_leave) }
    ensures any_moment { (image : Image) (s : Standing) → (D.state disk.old).seen ≡ Some image
        → NothingPending (Some image) (D.state disk.old).may_leave → StandsOver image before.value s
        → (pages : List ℕ) × (length pages ≡ pages_of (records_after before.value (closed_of closed.now)))
        × OnOk result (pages ≡ pool.now.pages)
        × LeavesOnly (D.state disk.old) (D.state disk.new) (SyncLeaves image before.value (closed_of closed.now) s pages) }
    ensures before_the_gate { (image : Image) (s : Standing) → (D.state disk.old).seen ≡ Some image
        → NothingPending (Some image) (D.state disk.old).may_leave → StandsOver image before.value s → IsErrOf result WriteFault
        → LeavesOnly (D.state disk.old) (D.state disk.new) (BeforeGate image before.value s) }
    ensures at_the_gate { IsErrOf result GateFault
        → StopsAtGate (D.state disk.old).seen before.value (closed_of closed.now) (D.state disk.new).seen }
    ensures device { IsErrOf result Memory → ⊥ }
    ensures whole { (sector : ℕ) → IsErrOf result (Damaged sector) → ⊥ }
    ensures unread { IsErrOf result ReadFault → Stays (D.state disk.old).seen (D.state disk.new).seen }
    ensures unread_crash { IsErrOf result ReadFault → (c : Image) → (D.state disk.new).may_leave c → (D.state disk.old).may_leave c }
    ensures reads { (D.state disk.old).read_faults ≤ (D.state disk.new).read_faults }
    ensures writes { (D.state disk.old).write_faults ≤ (D.state disk.new).write_faults }
    ensures read_cause { IsErrOf result ReadFault → Rose (D.state disk.old).read_faults (D.state disk.new).read_faults }
    ensures write_cause { IsErrOf result WriteFault → Rose (D.state disk.old).write_faults (D.state disk.new).write_faults }
    ensures gate_cause { IsErrOf result GateFault → Rose (D.state disk.old).write_faults (D.state disk.new).write_faults }
{
    let _sectors = disk.sectors();
    let table = &pool.table;
    logs_fit(&table.logs);
    let parts = planned.parts.as_slice();
    let sealed = seal_group(disk, &planned.seal, closed.contents.as_slice(), parts);
    if let Err(fault) = sealed {
        return Err(told(fault));
    }
    Ok(pool.sealed)
}

/// The fault of a sync that a fault of its sealing is.
pub(crate) fn told(fault: SealFault) -> SyncFault
    ensures { result ≡ sync_fault_of fault }
{
    match fault {
        SealFault::ReadFault => SyncFault::ReadFault,
        SealFault::WriteFault => SyncFault::WriteFault,
        SealFault::GateFault => SyncFault::GateFault,
    }
}
