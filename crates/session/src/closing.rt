//! What a group of an item comes to before it is sealed, by its kind: its lanes run, a setting is set, or homes go.

ghost use Rattle.std.specs.Prelude.{◌≡◌, ◌≤◌, ◌<◌, ◌+◌, ◌-◌, ◌^◌, ℕ, [], min, slice_set, Some, None, IfOk, OnOk, OnErr, IsErrOf};
ghost use Rattle.cmd_file.specs.Items.{IsItem};
ghost use Rattle.disk_model.specs.Images.{Image};
ghost use Rattle.disk_model.specs.DiskLaws.{Stays, SameOutcomes};
ghost use Rattle.disk_model.specs.Crashes.{LeavesOnly};
ghost use Rattle.io_model.specs.Outside.{Rose};
ghost use Rattle.pool_model.specs.declared.faults.GroupFault.TheVariants as faults;
ghost use Rattle.pool_model.specs.declared.notes.Outcome.TheVariants as outcomes;
ghost use Rattle.pool_model.specs.Group.{Standing, lanes_in_turn};
ghost use Rattle.pool_model.specs.Mirrors.{part_of};
ghost use Rattle.pool_model.specs.Plain.{GroupItem, of_group, told_of};
ghost use Rattle.pool_model.specs.Run.{kind_of};
ghost use Rattle.table_state.specs.Closing.{closed_of, IsInRange};
ghost use Rattle.table_state.specs.Over.{StandsOver};
ghost use Rattle.table_state.specs.SealForms.{last_group};
ghost use Rattle.session.specs.StageClosing.{ClosesFrom, IsGroup, lacks, lacks_room, unblocked};
ghost use Rattle.session.specs.StageEntries.{IsOnDisk};
ghost use Rattle.session.specs.StageGroups.{faults_of};

use crate::pruning::close_prune;
use ddt_entry::KeyOf;
use disk_model::{Disk, crash_laws};
use lane_run::run_group_plain;
use pool_model::{Closed, GroupFault, GroupNote, Item, Kind, Mode, Outcome};
use reserved_list::ReservedList;
use std::alloc::Global;
use table_state::Pool;

/// What a group is noted as.
pub(crate) fn kind_of(item: &Item) -> Kind
    ensures { (group : GroupItem) → part_of item.now ≡ of_group group → result ≡ kind_of group }
{
    match item {
        Item::Prune { .. } => Kind::Prune,
        Item::Quota(_) | Item::SetMode { .. } => Kind::Settings,
        Item::Create | Item::Lanes(_) | Item::Stat | Item::Import => Kind::Lanes,
    }
}

/// The modes of the lanes once one lane's is set.
fn with_mode(mut modes: [Mode; 16], lane: u32, mode: Mode) -> [Mode; 16]
    requires { lane < 16 }
    ensures { result ≡ slice_set modes lane mode }
{
    modes[lane as usize] = mode;
    modes
}

/// What a group leaves that sets the settings, where it has room. It calls no device; its one fault is want of room.
fn close_settings(
    alloc: Global,
    pool: &Pool,
    quota: Option<u64>,
    modes: [Mode; 16],
) -> Result<Closed, GroupFault>
    ensures closed { IfOk result (λ closed. closed_of closed ≡ unblocked [] modes quota) }
    ensures room { OnOk result (lacks pool.now 0 0 ≡ None) }
    ensures no_space { (needed left : ℕ) → IsErrOf result (faults.NoSpace needed left) → lacks pool.now 0 0 ≡ Some (outcomes.NoSpace needed left) }
    ensures unread { IsErrOf result faults.ReadFault → ⊥ }
    ensures unfailed { IsErrOf result faults.WriteFault → ⊥ }
    ensures undamaged { (sector : ℕ) → IsErrOf result (faults.Damaged sector) → ⊥ }
{
    if let Some(Outcome::NoSpace { need, free }) = pool.no_space(0, 0) {
        return Err(GroupFault::NoSpace { need, free });
    }
    Ok(Closed {
        changes: ReservedList::new(alloc),
        slots: ReservedList::new(alloc),
        contents: ReservedList::new(alloc),
        quota,
        modes,
    })
}

/// Closes a group of an item over the pool in memory: what its sync needs, and how many homes it took. The lanes of
/// a group are noted. `NoSpace` comes where the group needs more sectors than are free, `WriteFault` where the disk gives
/// no meter; the error `Memory` is want of memory. After a fault no lane is noted.
pub(crate) fn close_group<D: Disk, K: KeyOf>(
    alloc: Global,
    pool: &Pool,
    disk: &mut D,
    keyer: &K,
    item: &Item,
    note: &mut GroupNote,
) -> Result<(Closed, u64), GroupFault>
    requires is { IsGroup item.now }
    requires form { IsItem (part_of item.now) }
    requires on_disk { IsOnDisk (D.state disk.old) (K.keying keyer.now).tag pool.now }
    requires last { pool.now.group + 1 ≤ last_group }
    requires unnoted { note.old.lanes.items ≡ [] }
    ensures sectors { (D.state disk.new).sectors ≡ (D.state disk.old).sectors }
    ensures stays { Stays (D.state disk.old).seen (D.state disk.new).seen }
    ensures crash { SameOutcomes (D.state disk.old).may_leave (D.state disk.new).may_leave }
    ensures any_moment { LeavesOnly (D.state disk.old) (D.state disk.new) (D.state disk.old).may_leave }
    ensures kept { told_of note.new ≡ record (told_of note.old) { lanes = (told_of note.new).lanes } }
    ensures unnoted { OnErr result (note.new.lanes.items ≡ []) }
    ensures in_range { IfOk result (λ done. IsInRange pool.now (closed_of done.0)) }
    ensures closes { (image : Image) (s : Standing) (group : GroupItem) → (D.state disk.old).seen ≡ Some image → StandsOver image pool.now s
        → part_of item.now ≡ of_group group
        → IfOk result (λ done. ClosesFrom (lanes_in_turn (K.keying keyer.now)) image pool.now s group (told_of note.new) done.1
        (closed_of done.0)) }
    ensures no_space { (image : Image) (s : Standing) (group : GroupItem) (needed left : ℕ) → (D.state disk.old).seen ≡ Some image
        → StandsOver image pool.now s → part_of item.now ≡ of_group group → IsErrOf result (faults.NoSpace needed left)
        → lacks_room pool.now s.pool group ≡ Some (outcomes.NoSpace needed left) }
    ensures reads { min ((D.state disk.old).read_faults + faults_of (told_of note.new)) (2 ^ 64 - 1) ≤ (D.state disk.new).read_faults }
    ensures writes { (D.state disk.old).write_faults ≤ (D.state disk.new).write_faults }
    ensures unread { IsErrOf result faults.ReadFault → ⊥ }
    ensures undamaged { (sector : ℕ) → IsErrOf result (faults.Damaged sector) → ⊥ }
    ensures write_cause { IsErrOf result faults.WriteFault → Rose (D.state disk.old).write_faults (D.state disk.new).write_faults }
{
    crash_laws(disk);
    match item {
        Item::Lanes(group) => {
            let closed = run_group_plain(alloc, pool, disk, keyer, group, note)?;
            Ok((closed, 0))
        }
        Item::Quota(quota) => {
            let closed = close_settings(alloc, pool, *quota, pool.modes)?;
            Ok((closed, 0))
        }
        Item::SetMode { lane, mode } => {
            let modes = with_mode(pool.modes, *lane, *mode);
            let closed = close_settings(alloc, pool, pool.limit, modes)?;
            Ok((closed, 0))
        }
        Item::Prune { moment, rule } => close_prune(alloc, pool, disk, *rule, *moment),
        Item::Create | Item::Stat | Item::Import => unreachable!(),
    }
}
