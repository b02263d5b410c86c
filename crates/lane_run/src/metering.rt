//! The calls of the disk that a group makes while it runs: its meters.

ghost use Rattle.std.specs.Prelude.{◌≡◌, ◌≤◌, ◌<◌, ◌+◌, ◌-◌, ◌^◌, min, not, length, map, Some, None, IfOk};
ghost use Rattle.std.specs.List.{AllByRecursion, count_by};
ghost use Rattle.disk_model.specs.DiskLaws.{Stays, SameOutcomes};
ghost use Rattle.disk_model.specs.Crashes.{LeavesOnly};
ghost use Rattle.disk_model.specs.Faults.{Rose};
ghost use Rattle.grant_book.specs.Sectors.{AreFirstFree};
ghost use Rattle.pool_model.specs.declared.faults.GroupFault.TheVariants as faults;
ghost use Rattle.pool_model.specs.declared.notes.Outcome.TheVariants as outcomes;
ghost use Rattle.pool_model.specs.Mirrors.{task_of};
ghost use Rattle.pool_model.specs.Space.{need, space_lacking};
ghost use Rattle.pool_model.specs.Table.{flush_limit, counted_homes};
ghost use Rattle.table_state.specs.Closing.{IsInRange};
ghost use Rattle.table_state.specs.Sound.{IsSound};
ghost use Rattle.lane_run.specs.Groups.{IsFirstWrite};
ghost use Rattle.lane_run.specs.Going.{HasRunOver, OnlyMeter, Opens};
ghost use Rattle.lane_run.specs.Live.{group_here};

use crate::lane::run_lane;
use crate::live::LiveGroup;
use ddt_entry::KeyOf;
use disk_model::{Disk, crash_laws};
use pool_model::{Command, GroupFault, Outcome};
use std::alloc::Global;
use table_state::Pool;

/// Opens a group of so many writes: the disk gives a meter, and as many sectors are free as the group needs.
pub fn opens<D: Disk>(pool: &Pool, disk: &mut D, writes: u64) -> Result<(), GroupFault>
    requires few { writes ≤ 65_536 }
    ensures sectors { (D.state disk.new).sectors ≡ (D.state disk.old).sectors }
    ensures stays { Stays (D.state disk.old).seen (D.state disk.new).seen }
    ensures crash { SameOutcomes (D.state disk.old).may_leave (D.state disk.new).may_leave }
    ensures any_moment { LeavesOnly (D.state disk.old) (D.state disk.new) (D.state disk.old).may_leave }
    ensures reads { (D.state disk.old).read_faults ≤ (D.state disk.new).read_faults }
    ensures writes { (D.state disk.old).write_faults ≤ (D.state disk.new).write_faults }
    ensures opens { Opens (space_lacking (count_by not pool.now.used)
        (need (length pool.now.pages) (flush_limit pool.now.table) writes writes))
        (D.state disk.old).write_faults (D.state disk.new).write_faults result }
{
    crash_laws(disk);
    let Ok(meter) = disk.meter() else {
        return Err(GroupFault::WriteFault);
    };
    disk.retire(meter);
    if let Some(Outcome::NoSpace { need, free }) = pool.no_space(writes, writes) {
        return Err(GroupFault::NoSpace { need, free });
    }
    Ok(())
}

/// Runs the lane of a group's writes, with a meter of its own: what the group has come to, and how many reads failed.
pub fn metered<D: Disk, K: KeyOf>(
    alloc: Global,
    pool: &Pool,
    disk: &mut D,
    keyer: &K,
    commands: &[Command],
    moment: u64,
    places: &[u64],
    keys: u64,
) -> Result<(LiveGroup, u64), GroupFault>
    requires sound { IsSound pool.now }
    requires on_disk { pool.now.sectors ≤ (D.state disk.old).sectors }
    requires moment { moment < 2 ^ 40 }
    requires few { length commands.now ≤ 65_536 }
    requires writes { AllByRecursion IsFirstWrite (map task_of commands.now) }
    requires places { AreFirstFree pool.now.used (length commands.now) places.now }
    requires counted { keys ≡ length (counted_homes pool.now.table) }
    requires few_keys { keys < 2 ^ 62 }
    ensures sectors { (D.state disk.new).sectors ≡ (D.state disk.old).sectors }
    ensures stays { Stays (D.state disk.old).seen (D.state disk.new).seen }
    ensures crash { SameOutcomes (D.state disk.old).may_leave (D.state disk.new).may_leave }
    ensures any_moment { LeavesOnly (D.state disk.old) (D.state disk.new) (D.state disk.old).may_leave }
    ensures run { IfOk result (λ done. HasRunOver (D.state disk.old).seen (K.keying keyer.now).key_of pool.now moment
        (map task_of commands.now) places.now done.1 done.0) }
    ensures in_range { IfOk result (λ done. IsInRange pool.now (group_here pool.now done.0)) }
    ensures counts { IfOk result (λ done. min ((D.state disk.old).read_faults + done.1) (2 ^ 64 - 1) ≤ (D.state disk.new).read_faults) }
    ensures reads { (D.state disk.old).read_faults ≤ (D.state disk.new).read_faults }
    ensures writes { (D.state disk.old).write_faults ≤ (D.state disk.new).write_faults }
    ensures causes { OnlyMeter (D.state disk.old).write_faults (D.state disk.new).write_faults result }
{
    crash_laws(disk);
    let Ok(mut meter) = disk.meter() else {
        return Err(GroupFault::WriteFault);
    };
    let live = run_lane(
        alloc, pool, disk, &mut meter, keyer, commands, moment, places, keys,
    );
    let faults = D::faults(&meter);
    disk.retire(meter);
    Ok((live?, faults))
}
