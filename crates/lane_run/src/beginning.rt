//! What a group takes before its writes, and its writes.

ghost use Rattle.std.specs.Prelude.{◌≤◌, ◌<◌, ◌+◌, ◌-◌, ◌^◌, ◌≡◌, min, not, length, map, IfOk};
ghost use Rattle.std.specs.List.{AllByRecursion, count_by};
ghost use Rattle.disk_model.specs.DiskLaws.{Stays, SameOutcomes};
ghost use Rattle.disk_model.specs.Crashes.{LeavesOnly};
ghost use Rattle.grant_book.specs.Sectors.{AreFirstFree};
ghost use Rattle.pool_model.specs.Mirrors.{task_of};
ghost use Rattle.table_state.specs.Closing.{IsInRange};
ghost use Rattle.table_state.specs.Sound.{IsSound};
ghost use Rattle.lane_run.specs.Groups.{IsFirstWrite};
ghost use Rattle.lane_run.specs.Going.{HasRunFree, HasRunOver, OnlyMeter};
ghost use Rattle.lane_run.specs.Live.{group_here};

use crate::live::LiveGroup;
use crate::metering::metered;
use ddt_entry::KeyOf;
use disk_model::{Disk, crash_laws};
use pool_model::{Command, GroupFault};
use std::alloc::Global;
use table_state::Pool;

/// Does a group's writes behind its opening: what it has come to, and how many reads failed. Where there are none, no
/// meter is asked for.
pub fn begun<D: Disk, K: KeyOf>(
    alloc: Global,
    pool: &Pool,
    disk: &mut D,
    keyer: &K,
    commands: &[Command],
    moment: u64,
) -> Result<(LiveGroup, u64), GroupFault>
    requires sound { IsSound pool.now }
    requires on_disk { pool.now.sectors ≤ (D.state disk.old).sectors }
    requires moment { moment < 2 ^ 40 }
    requires few { length commands.now ≤ 65_536 }
    requires writes { AllByRecursion IsFirstWrite (map task_of commands.now) }
    requires room { length commands.now ≤ count_by not pool.now.used }
    ensures sectors { (D.state disk.new).sectors ≡ (D.state disk.old).sectors }
    ensures stays { Stays (D.state disk.old).seen (D.state disk.new).seen }
    ensures crash { SameOutcomes (D.state disk.old).may_leave (D.state disk.new).may_leave }
    ensures any_moment { LeavesOnly (D.state disk.old) (D.state disk.new) (D.state disk.old).may_leave }
    ensures run { IfOk result (λ done. HasRunFree (D.state disk.old).seen (K.keying keyer.now).key_of pool.now moment
        (map task_of commands.now) done.1 done.0) }
    ensures in_range { IfOk result (λ done. IsInRange pool.now (group_here pool.now done.0)) }
    ensures counts { IfOk result (λ done. min ((D.state disk.old).read_faults + done.1) (2 ^ 64 - 1) ≤ (D.state disk.new).read_faults) }
    ensures reads { (D.state disk.old).read_faults ≤ (D.state disk.new).read_faults }
    ensures writes { (D.state disk.old).write_faults ≤ (D.state disk.new).write_faults }
    ensures causes { OnlyMeter (D.state disk.old).write_faults (D.state disk.new).write_faults result }
{
    crash_laws(disk);
    let Ok(found) = pool.book.free_places(alloc, commands.len() as u64) else {
        return Err(GroupFault::Memory);
    };
    let Some(places) = found else { unreachable!() };
    if commands.is_empty() {
        let Ok(live) = LiveGroup::opened(alloc, pool.keys, 0) else {
            return Err(GroupFault::Memory);
        };
        return Ok((live, 0));
    }
    metered(
        alloc,
        pool,
        disk,
        keyer,
        commands,
        moment,
        places.as_slice(),
        pool.keys,
    )
}
