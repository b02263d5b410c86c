ghost use Rattle.std.specs.Prelude.{◌≡◌, ◌≤◌, ℕ, false, replicate, Some, IfOk, OnOk, IsErrOf};
ghost use Rattle.grant_book.specs.Sectors.{ring_used};
ghost use Rattle.disk_model.specs.Images.{Image};
ghost use Rattle.disk_model.specs.DiskLaws.{Stays};
ghost use Rattle.disk_model.specs.Crashes.{LeavesOnly, NothingPending};
ghost use Rattle.disk_model.specs.Faults.{Rose};
ghost use Rattle.pool_model.specs.declared.faults.SyncFault.TheVariants.{ReadFault, WriteFault, GateFault, Damaged, Memory};
ghost use Rattle.table_state.specs.Flat.{HasNoPool};
ghost use Rattle.table_state.specs.Pools.{new_held};
ghost use Rattle.table_state.specs.Sound.{IsSound};
ghost use Rattle.txg_sync.specs.Creating.{Creates, CreatesAllButGate, HasNoSeal};
ghost use Rattle.txg_sync.specs.FirstSeal.{NoneOrNew};
ghost use Rattle.txg_sync.specs.Stages.{LeavesBeginning, LeavesUnbegun};
ghost use Rattle.txg_sync.specs.FirstSeal.{SameOutside};

use crate::begin::seal_new_pool;
use crate::syncing::told;
use disk_model::{Disk, crash_laws};
use grant_book::{GrantBook, SectorSet};
use page_tree::SectorList;
use pool_model::{Mode, SyncFault};
use pool_stats::RunningTotals;
use slot_table::SlotMap;
use std::alloc::{AllocError, Global};
use table_state::{DedupTable, Pool};

/// The book of a pool of so many sectors, of which the ring's are used. The error is want of memory.
fn new_book(alloc: Global, sectors: u64) -> Result<GrantBook, AllocError>
    requires { 32 ≤ sectors }
    ensures used { IfOk result (λ book. book.used ≡ ring_used sectors) }
    ensures pending { IfOk result (λ book. book.pending ≡ replicate sectors false) }
{
    let used = SectorSet::with_ring(alloc, sectors)?;
    Ok(GrantBook::of_used(used))
}

/// The empty pool of group 1. The error is want of memory.
fn new_pool(alloc: Global, tag: u8, sectors: u64) -> Result<Pool, AllocError>
    requires { 32 ≤ sectors }
    ensures { IfOk result (λ pool. pool ≡ new_held tag sectors) }
{
    Ok(Pool {
        slots: SlotMap::new(alloc),
        table: DedupTable::new(alloc),
        keys: 0,
        totals: RunningTotals::new(),
        pages: SectorList::new(alloc),
        book: new_book(alloc, sectors)?,
        modes: [Mode::On; 16],
        limit: None,
        tag,
        sealed: 1,
        sectors,
    })
}

/// Creates a pool: seals the empty pool of group 1, for a key function with this tag, on a disk on which no seal
/// counts. The pool has the disk's sectors, 2,048 to 1,000,000. All memory is taken before anything is written.
/// `WriteFault` comes before the gate of the seal is written, `GateFault` from then on.
pub fn create<D: Disk>(alloc: Global, disk: &mut D, tag: u8) -> Result<Pool, SyncFault>
    requires enough { 2048 ≤ (D.state disk.old).sectors }
    requires few { (D.state disk.old).sectors ≤ 1000000 }
    requires none { HasNoSeal (D.state disk.old).seen }
    ensures sectors { (D.state disk.new).sectors ≡ (D.state disk.old).sectors }
    ensures made { IfOk result (λ pool. pool ≡ new_held tag (D.state disk.old).sectors) }
    ensures sound { IfOk result IsSound }
    ensures created { IfOk result (Creates (D.state disk.old).seen (D.state disk.new).seen (D.state disk.old).sectors) }
    ensures durable { OnOk result (NothingPending (D.state disk.new).seen (D.state disk.new).may_leave) }
    ensures any_moment { (image : Image) → (D.state disk.old).seen ≡ Some image → NothingPending (Some image) (D.state disk.old).may_leave
        → LeavesOnly (D.state disk.old) (D.state disk.new) (NoneOrNew tag (D.state disk.old).sectors) }
    ensures outside { (image : Image) → (D.state disk.old).seen ≡ Some image → NothingPending (Some image) (D.state disk.old).may_leave
        → LeavesOnly (D.state disk.old) (D.state disk.new) (SameOutside 1 image) }
    ensures before_the_gate { (image : Image) → (D.state disk.old).seen ≡ Some image
        → NothingPending (Some image) (D.state disk.old).may_leave → IsErrOf result WriteFault
        → LeavesOnly (D.state disk.old) (D.state disk.new) HasNoPool }
    ensures at_the_gate { IsErrOf result GateFault
        → CreatesAllButGate tag (D.state disk.old).sectors (D.state disk.old).seen (D.state disk.new).seen }
    ensures unbegun { IsErrOf result WriteFault → LeavesUnbegun (D.state disk.old).seen (D.state disk.new).seen }
    ensures beginning { IsErrOf result GateFault → LeavesBeginning tag (D.state disk.old).seen (D.state disk.new).seen }
    ensures unwritten { IsErrOf result Memory → disk.new ≡ disk.old }
    ensures whole { (sector : ℕ) → IsErrOf result (Damaged sector) → ⊥ }
    ensures unread { IsErrOf result ReadFault → Stays (D.state disk.old).seen (D.state disk.new).seen }
    ensures unread_crash { IsErrOf result ReadFault → (c : Image) → (D.state disk.new).may_leave c → (D.state disk.old).may_leave c }
    ensures reads { (D.state disk.old).read_faults ≤ (D.state disk.new).read_faults }
    ensures writes { (D.state disk.old).write_faults ≤ (D.state disk.new).write_faults }
    ensures read_cause { IsErrOf result ReadFault → Rose (D.state disk.old).read_faults (D.state disk.new).read_faults }
    ensures write_cause { IsErrOf result WriteFault → Rose (D.state disk.old).write_faults (D.state disk.new).write_faults }
    ensures gate_cause { IsErrOf result GateFault → Rose (D.state disk.old).write_faults (D.state disk.new).write_faults }
{
    crash_laws(disk);
    let Ok(pool) = new_pool(alloc, tag, disk.sectors()) else {
        return Err(SyncFault::Memory);
    };
    let sealed = seal_new_pool(disk, tag);
    if let Err(fault) = sealed {
        return Err(told(fault));
    }
    Ok(pool)
}
