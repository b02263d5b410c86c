ghost use Rattle.std.specs.Prelude.{◌≡◌, ◌≤◌, ◌<◌, ◌+◌, ◌-◌, ◌^◌, ℕ, [], min, map, sum_by, length, not, Some, None, IfOk, OnErr, IsErrOf};
ghost use Rattle.std.specs.List.{AllByRecursion, count_by};
ghost use Rattle.disk_model.specs.Images.{Image};
ghost use Rattle.disk_model.specs.DiskLaws.{Stays, SameOutcomes};
ghost use Rattle.disk_model.specs.Crashes.{LeavesOnly};
ghost use Rattle.disk_model.specs.Faults.{Rose};
ghost use Rattle.pool_model.specs.declared.faults.GroupFault.TheVariants as faults;
ghost use Rattle.pool_model.specs.declared.notes.Outcome.TheVariants as outcomes;
ghost use Rattle.pool_model.specs.Group.{Standing, lanes_in_turn};
ghost use Rattle.pool_model.specs.Plain.{told_of};
ghost use Rattle.pool_model.specs.Mirrors.{task_of};
ghost use Rattle.pool_model.specs.Space.{need, space_lacking, changes_in, writes_in};
ghost use Rattle.pool_model.specs.Table.{flush_limit};
ghost use Rattle.table_state.specs.Closing.{closed_of, IsInRange};
ghost use Rattle.table_state.specs.Over.{StandsOver};
ghost use Rattle.table_state.specs.SealForms.{last_group};
ghost use Rattle.table_state.specs.Sound.{IsSound};
ghost use Rattle.lane_run.specs.Groups.{IsFirstWrite, IsRunFrom};

use crate::beginning::begun;
use crate::ending::ended;
use crate::metering::opens;
use ddt_entry::KeyOf;
use disk_model::Disk;
use pool_model::{Closed, GroupFault, GroupNote, LanesGroup};
use std::alloc::Global;
use table_state::Pool;

/// Runs a group of writes of lane 0 behind the newest sealed one, at the group's moment in seconds: notes what its
/// lane did, and answers what is to be synced. The group asks the disk for a meter when it opens, and for
/// one for its lane, if that has commands. `NoSpace` comes where the group needs more sectors than are free,
/// `WriteFault` where the disk gives no meter; the error `Memory` is want of memory. After a fault no lane is noted.
pub fn run_group_plain<D: Disk, K: KeyOf>(
    alloc: Global,
    pool: &Pool,
    disk: &mut D,
    keyer: &K,
    group: &LanesGroup,
    note: &mut GroupNote,
) -> Result<Closed, GroupFault>
    requires sound { IsSound pool.now }
    requires last { pool.now.group + 1 ≤ last_group }
    requires on_disk { pool.now.sectors ≤ (D.state disk.old).sectors }
    requires moment { group.now.moment < 2 ^ 40 }
    requires few { length group.now.commands.items ≤ 65_536 }
    requires writes { AllByRecursion IsFirstWrite (map task_of group.now.commands.items) }
    requires unnoted { note.old.lanes.items ≡ [] }
    ensures sectors { (D.state disk.new).sectors ≡ (D.state disk.old).sectors }
    ensures stays { Stays (D.state disk.old).seen (D.state disk.new).seen }
    ensures crash { SameOutcomes (D.state disk.old).may_leave (D.state disk.new).may_leave }
    ensures any_moment { LeavesOnly (D.state disk.old) (D.state disk.new) (D.state disk.old).may_leave }
    ensures kept { told_of note.new ≡ record (told_of note.old) { lanes = (told_of note.new).lanes } }
    ensures unnoted { OnErr result (note.new.lanes.items ≡ []) }
    ensures in_range { IfOk result (λ closed. IsInRange pool.now (closed_of closed)) }
    ensures run { (image : Image) (s : Standing) → (D.state disk.old).seen ≡ Some image → StandsOver image pool.now s
        → IfOk result (λ closed. IsRunFrom (lanes_in_turn (K.keying keyer.now)) image pool.now s
        group.now.moment (map task_of group.now.commands.items) (told_of note.new) (closed_of closed)) }
    ensures room { IfOk result (λ closed. space_lacking (count_by not pool.now.used)
        (need (length pool.now.pages) (flush_limit pool.now.table) (changes_in (map task_of group.now.commands.items))
        (writes_in (map task_of group.now.commands.items))) ≡ None) }
    ensures no_space { (needed left : ℕ) → IsErrOf result (faults.NoSpace needed left) → space_lacking (count_by not pool.now.used)
        (need (length pool.now.pages) (flush_limit pool.now.table) (changes_in (map task_of group.now.commands.items))
        (writes_in (map task_of group.now.commands.items)))
        ≡ Some (outcomes.NoSpace needed left) }
    ensures reads { min ((D.state disk.old).read_faults + sum_by (λ lane. lane.faults) (told_of note.new).lanes) (2 ^ 64 - 1)
        ≤ (D.state disk.new).read_faults }
    ensures writes { (D.state disk.old).write_faults ≤ (D.state disk.new).write_faults }
    ensures opened { IsErrOf result faults.ReadFault → ⊥ }
    ensures undamaged { (sector : ℕ) → IsErrOf result (faults.Damaged sector) → ⊥ }
    ensures write_cause { IsErrOf result faults.WriteFault → Rose (D.state disk.old).write_faults (D.state disk.new).write_faults }
{
    let commands = group.commands.as_slice();
    let writes = group.commands.len();
    opens(pool, disk, writes)?;
    let (live, faults) = begun(alloc, pool, disk, keyer, commands, group.moment)?;
    let Ok(closed) = ended(alloc, pool, live, commands, faults, note) else {
        return Err(GroupFault::Memory);
    };
    Ok(closed)
}
