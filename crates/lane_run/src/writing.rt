//! One write of lane 0.

ghost use Rattle.std.specs.Prelude.{◌≡◌, ◌+◌, ◌≤◌, ◌<◌, ◌^◌, ℕ, List, length, map, Some, IfSome, IfOk};
ghost use Rattle.std.specs.List.{AllByRecursion};
ghost use Rattle.pool_model.specs.Mirrors.{content_of, act_of, task_of};
ghost use Rattle.pool_model.specs.Command.{uses_table};
ghost use Rattle.lane_run.specs.Groups.{IsFirstWrite};
ghost use Rattle.lane_run.specs.Live.{IsWritten, IsReady, WritesAct, home_here};

use crate::choosing::{chosen, first_mode};
use crate::live::LiveGroup;
use ddt_entry::KeyOf;
use disk_model::Disk;
use pool_model::{Block, Command, Mode, Payload, Verb};
use reserved_list::ReservedList;
use std::alloc::{AllocError, Global};
use table_state::{Pool, key_fits};

/// Whether a lane in this mode names keys of the table.
fn uses_table(mode: Mode) -> bool
    ensures { result ≡ uses_table mode }
{
    match mode {
        Mode::Off => false,
        Mode::On | Mode::Verify => true,
    }
}

/// Writes a block to a slot of lane 0, where this place is the group's next fresh one. The error is want of memory.
fn write<D: Disk, K: KeyOf>(
    pool: &Pool,
    disk: &D,
    meter: &mut D::Meter,
    keyer: &K,
    live: LiveGroup,
    slot: u32,
    block: Block,
    moment: u64,
    place: u64,
) -> Result<LiveGroup, AllocError>
    requires some { 0 < length block.items }
    requires fits { length block.items ≤ 4096 }
    requires number { pool.now.group < 2 ^ 63 }
    requires ready { IsReady pool.now (D.state disk.now).sectors live }
    ensures { IfOk result (λ next. IsWritten (D.state disk.now).seen (K.keying keyer.now).key_of pool.now moment place slot block.items
        (D.meter_faults meter.old) (D.meter_faults meter.new) live next) }
{
    let key = keyer.key(block.as_slice());
    key_fits(key);
    let row = chosen(
        pool,
        disk,
        meter,
        keyer,
        &live,
        slot,
        block.as_slice(),
        moment,
    );
    let put = live.put_at(slot, key, block, place, pool.sealed + 1, row.spot)?;
    put.noted(uses_table(first_mode(&pool.modes)), key, row.answer)
}

/// The bytes that a write stores, spread out where they are given as one byte repeated.
fn spread(alloc: Global, payload: &Payload) -> Result<Block, AllocError>
    ensures { IfOk result (λ block. block.items ≡ content_of payload.now) }
{
    match payload {
        Payload::Bytes(block) => {
            let bytes = Vec::from_slice(alloc, block.as_slice())?;
            Ok(ReservedList::from_vec(bytes))
        }
        Payload::Repeat { byte, times } => {
            let bytes = vec![in alloc; *byte; *times as usize]?;
            Ok(ReservedList::from_vec(bytes))
        }
    }
}

/// Does one command of lane 0, which is a write, where this place is the group's next fresh one. The error is want of memory.
pub fn turn<D: Disk, K: KeyOf>(
    alloc: Global,
    pool: &Pool,
    disk: &D,
    meter: &mut D::Meter,
    keyer: &K,
    live: LiveGroup,
    command: &Command,
    moment: u64,
    place: u64,
) -> Result<LiveGroup, AllocError>
    requires write { IsFirstWrite (task_of command.now) }
    requires number { pool.now.group < 2 ^ 63 }
    requires ready { IsReady pool.now (D.state disk.now).sectors live }
    ensures { IfOk result (λ next. WritesAct (D.state disk.now).seen (K.keying keyer.now).key_of pool.now moment place command.now.slot
        (act_of command.now.verb) (D.meter_faults meter.old) (D.meter_faults meter.new) live next) }
{
    let Verb::Write(payload) = &command.verb else {
        unreachable!()
    };
    let content = spread(alloc, payload)?;
    write(
        pool,
        disk,
        meter,
        keyer,
        live,
        command.slot,
        content,
        moment,
        place,
    )
}
