//! The writes of a group, one after another.

ghost use Rattle.std.specs.Prelude.{◌≡◌, ◌≤◌, ◌<◌, ◌^◌, length, map, IfOk};
ghost use Rattle.std.specs.List.{AllByRecursion};
ghost use Rattle.grant_book.specs.Sectors.{AreFirstFree};
ghost use Rattle.pool_model.specs.Mirrors.{task_of};
ghost use Rattle.pool_model.specs.Table.{counted_homes};
ghost use Rattle.table_state.specs.Closing.{IsInRange};
ghost use Rattle.table_state.specs.Sound.{IsSound};
ghost use Rattle.lane_run.specs.Groups.{IsFirstWrite};
ghost use Rattle.lane_run.specs.Going.{HasRun};
ghost use Rattle.lane_run.specs.Live.{group_here};

use crate::live::LiveGroup;
use crate::writing::turn;
use ddt_entry::KeyOf;
use disk_model::Disk;
use pool_model::Command;
use std::alloc::{AllocError, Global};
use table_state::Pool;

/// Does a group's writes, one after another, over a pool in which so many keys are counted. New blocks get these
/// places, in order. The error is want of memory.
pub fn run_lane<D: Disk, K: KeyOf>(
    alloc: Global,
    pool: &Pool,
    disk: &D,
    meter: &mut D::Meter,
    keyer: &K,
    commands: &[Command],
    moment: u64,
    places: &[u64],
    keys: u64,
) -> Result<LiveGroup, AllocError>
    requires sound { IsSound pool.now }
    requires on_disk { pool.now.sectors ≤ (D.state disk.now).sectors }
    requires moment { moment < 2 ^ 40 }
    requires few { length commands.now ≤ 65_536 }
    requires writes { AllByRecursion IsFirstWrite (map task_of commands.now) }
    requires places { AreFirstFree pool.now.used (length commands.now) places.now }
    requires counted { keys ≡ length (counted_homes pool.now.table) }
    requires few_keys { keys < 2 ^ 62 }
    ensures run { IfOk result (λ live. HasRun (D.state disk.now).seen (K.keying keyer.now).key_of pool.now moment
        (map task_of commands.now) places.now (D.meter_faults meter.old) (D.meter_faults meter.new) live) }
    ensures in_range { IfOk result (λ live. IsInRange pool.now (group_here pool.now live)) }
{
    let mut live = LiveGroup::opened(alloc, keys, commands.len() as u64)?;
    'commands: for command in commands {
        let place = places[live.contents.len() as usize];
        live = turn(
            alloc, pool, disk, meter, keyer, live, command, moment, place,
        )?;
    }
    Ok(live)
}
