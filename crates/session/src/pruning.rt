//! What a prune comes to before it is sealed: the homes that it takes, which go from the table.

ghost use Rattle.std.specs.Prelude.{◌≡◌, ◌≤◌, ℕ, min, length, Some, None, IfOk, OnOk, IsErrOf};
ghost use Rattle.ddt_entry.specs.declared.entry.Entry.{Entry};
ghost use Rattle.disk_model.specs.DiskLaws.{Stays, SameOutcomes};
ghost use Rattle.disk_model.specs.Crashes.{LeavesOnly};
ghost use Rattle.io_model.specs.Outside.{Rose};
ghost use Rattle.pool_model.specs.declared.faults.GroupFault.TheVariants as faults;
ghost use Rattle.pool_model.specs.declared.notes.Outcome.TheVariants as outcomes;
ghost use Rattle.pool_model.specs.Table.{entries_found};
ghost use Rattle.prune_walk.specs.Candidates.{candidates};
ghost use Rattle.table_state.specs.Closing.{closed_of};
ghost use Rattle.session.specs.StageClosing.{gone_of, lacks, unblocked};

use ddt_entry::{Change, Entry};
use disk_model::{Disk, crash_laws};
use page_tree::PlainReader;
use pool_model::{ChangeList, Closed, EntryList, GroupFault, Outcome, PruneRule};
use prune_walk::candidates;
use reserved_list::ReservedList;
use std::alloc::{AllocError, Global};
use table_state::Pool;

/// How many slots a pool has.
const ALL_SLOTS: u64 = 1_048_576;

/// The homes that a prune takes, found with a meter of its own. `WriteFault` comes where the disk gives none; the
/// error `Memory` is want of memory.
fn taken_homes<D: Disk>(
    alloc: Global,
    pool: &Pool,
    disk: &mut D,
    rule: PruneRule,
    moment: u64,
) -> Result<EntryList, GroupFault>
    ensures sectors { (D.state disk.new).sectors ≡ (D.state disk.old).sectors }
    ensures stays { Stays (D.state disk.old).seen (D.state disk.new).seen }
    ensures crash { SameOutcomes (D.state disk.old).may_leave (D.state disk.new).may_leave }
    ensures any_moment { LeavesOnly (D.state disk.old) (D.state disk.new) (D.state disk.old).may_leave }
    ensures taken { IfOk result (λ taken. taken.items ≡ candidates (entries_found pool.now.table) rule moment) }
    ensures no_space { (needed left : ℕ) → IsErrOf result (faults.NoSpace needed left) → ⊥ }
    ensures unread { IsErrOf result faults.ReadFault → ⊥ }
    ensures undamaged { (sector : ℕ) → IsErrOf result (faults.Damaged sector) → ⊥ }
    ensures reads { (D.state disk.old).read_faults ≤ (D.state disk.new).read_faults }
    ensures writes { (D.state disk.old).write_faults ≤ (D.state disk.new).write_faults }
    ensures write_cause { IsErrOf result faults.WriteFault → Rose (D.state disk.old).write_faults (D.state disk.new).write_faults }
{
    crash_laws(disk);
    let Ok(meter) = disk.meter() else {
        return Err(GroupFault::WriteFault);
    };
    let table = &pool.table;
    let mut reader = PlainReader::<D> { meter };
    let taken = candidates(
        alloc,
        &table.classes,
        &table.logs,
        disk,
        &mut reader,
        rule,
        moment,
    );
    disk.retire(reader.meter);
    let Ok(taken) = taken else {
        return Err(GroupFault::Memory);
    };
    Ok(taken)
}

/// That these homes are gone, as changes of the table in their order. The error is want of memory.
fn gone(alloc: Global, taken: &[Entry]) -> Result<ChangeList, AllocError>
    ensures { IfOk result (λ changes. changes.items ≡ gone_of taken.now) }
{
    let mut changes = Vec::new(alloc);
    'taken: for entry in taken {
        changes.push(Change::Gone(entry.key))?;
    }
    Ok(ChangeList::from_vec(changes))
}

/// Closes a prune at a moment in seconds: what its sync needs, and how many homes it took. `NoSpace` comes where
/// it needs more sectors than are free, `WriteFault` where the disk gives no meter; the error `Memory` is want of memory.
pub(crate) fn close_prune<D: Disk>(
    alloc: Global,
    pool: &Pool,
    disk: &mut D,
    rule: PruneRule,
    moment: u64,
) -> Result<(Closed, u64), GroupFault>
    ensures sectors { (D.state disk.new).sectors ≡ (D.state disk.old).sectors }
    ensures stays { Stays (D.state disk.old).seen (D.state disk.new).seen }
    ensures crash { SameOutcomes (D.state disk.old).may_leave (D.state disk.new).may_leave }
    ensures any_moment { LeavesOnly (D.state disk.old) (D.state disk.new) (D.state disk.old).may_leave }
    ensures closed { IfOk result (λ done. closed_of done.0
        ≡ unblocked (gone_of (candidates (entries_found pool.now.table) rule moment)) pool.now.modes pool.now.quota) }
    ensures taken { IfOk result (λ done. done.1 ≡ length (candidates (entries_found pool.now.table) rule moment)) }
    ensures room { OnOk result (lacks pool.now (min (length (candidates (entries_found pool.now.table) rule moment)) 1048576) 0 ≡ None) }
    ensures no_space { (needed left : ℕ) → IsErrOf result (faults.NoSpace needed left)
        → lacks pool.now (min (length (candidates (entries_found pool.now.table) rule moment)) 1048576) 0
        ≡ Some (outcomes.NoSpace needed left) }
    ensures unread { IsErrOf result faults.ReadFault → ⊥ }
    ensures undamaged { (sector : ℕ) → IsErrOf result (faults.Damaged sector) → ⊥ }
    ensures reads { (D.state disk.old).read_faults ≤ (D.state disk.new).read_faults }
    ensures writes { (D.state disk.old).write_faults ≤ (D.state disk.new).write_faults }
    ensures write_cause { IsErrOf result faults.WriteFault → Rose (D.state disk.old).write_faults (D.state disk.new).write_faults }
{
    let taken = taken_homes(alloc, pool, disk, rule, moment)?;
    let count = taken.len() as u64;
    // Only over a disk that doesn't tell its contents are there more homes than slots, and then there is no room.
    if let Some(Outcome::NoSpace { need, free }) = pool.no_space(count.min(ALL_SLOTS), 0) {
        return Err(GroupFault::NoSpace { need, free });
    }
    let Ok(changes) = gone(alloc, taken.as_slice()) else {
        return Err(GroupFault::Memory);
    };
    let closed = Closed {
        changes,
        slots: ReservedList::new(alloc),
        contents: ReservedList::new(alloc),
        quota: pool.limit,
        modes: pool.modes,
    };
    Ok((closed, count))
}
