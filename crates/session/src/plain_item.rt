//! How an item that is no group is done: the pool in memory is told of, or imported again.

ghost use Rattle.std.specs.Prelude.{◌≡◌, ◌≤◌, ◌<◌, [], ℕ, true, Some, None, ◌⊎◌, OnOk, IsErrOf};
ghost use Rattle.disk_model.specs.Images.{Image};
ghost use Rattle.disk_model.specs.Crashes.{LeavesOnly};
ghost use Rattle.io_model.specs.Outside.{Rose};
ghost use Rattle.pool_model.specs.declared.commands.Item.TheVariants as items;
ghost use Rattle.pool_model.specs.Group.{Standing, lanes_in_turn};
ghost use Rattle.pool_model.specs.Mirrors.{part_of};
ghost use Rattle.session.specs.Devices.{between};
ghost use Rattle.session.specs.Origins.{origin, may_begin};
ghost use Rattle.session.specs.StageEntries.{IsOnDisk, IsOver};
ghost use Rattle.session.specs.StageItems.{ItemWent, may_end_item};
ghost use Rattle.session.specs.declared.status.Status.{Status};

use crate::group_item::tell;
use crate::status::{Status, told};
use ddt_entry::KeyOf;
use disk_model::{Disk, crash_laws};
use io_model::Sink;
use pool_import::import;
use pool_model::{Item, Session};
use report::{NO_STATS, write_item};
use std::alloc::Global;
use table_state::Pool;

/// Imports the pool in memory again, from the disk that it is on.
fn import_again<D: Disk, K: KeyOf>(
    alloc: Global,
    pool: &mut Pool,
    disk: &mut D,
    keyer: &K,
) -> Result<(), Status>
    requires on_disk { IsOnDisk (D.state disk.old) (K.keying keyer.now).tag pool.old }
    ensures sectors { (D.state disk.new).sectors ≡ (D.state disk.old).sectors }
    ensures on_disk { OnOk result (IsOnDisk (D.state disk.new) (K.keying keyer.now).tag pool.new) }
    ensures same { (image : Image) → (D.state disk.old).seen ≡ Some image → OnOk result ((pool.new.group ≡ pool.old.group) × (pool.new.sectors ≡ pool.old.sectors)) }
    ensures over { (s : Standing) → IsOver (D.state disk.old) pool.old s → OnOk result (IsOver (D.state disk.new) pool.new s) }
    ensures any_moment { LeavesOnly (D.state disk.old) (D.state disk.new) (D.state disk.old).may_leave }
    ensures no_more { (c : Image) → (D.state disk.new).may_leave c → (D.state disk.old).may_leave c }
    ensures ended { (image : Image) (status : Status) → (D.state disk.old).seen ≡ Some image → IsErrOf result status → may_begin (origin status) ≡ true }
    ensures devices { (status : Status) → IsErrOf result status → may_end_item (origin status) ≡ true }
    ensures device { IsErrOf result Status.SinkFault → ⊥ }
    ensures reads { (D.state disk.old).read_faults ≤ (D.state disk.new).read_faults }
    ensures read_cause { IsErrOf result Status.ReadFault → Rose (D.state disk.old).read_faults (D.state disk.new).read_faults }
    ensures writes { (D.state disk.old).write_faults ≤ (D.state disk.new).write_faults }
    ensures write_cause { IsErrOf result Status.WriteFault → Rose (D.state disk.old).write_faults (D.state disk.new).write_faults }
{
    crash_laws(disk);
    let found = import(alloc, disk, keyer);
    crash_laws(disk);
    match found {
        Ok(Some(found)) => {
            *pool = found;
            Ok(())
        }
        Ok(None) => Err(Status::NoPool),
        Err(fault) => Err(told(fault)),
    }
}

/// Imports the pool in memory again, and tells its group.
pub(crate) fn do_import<D: Disk, W: Sink, K: KeyOf>(
    alloc: Global,
    pool: &mut Pool,
    disk: &mut D,
    out: &mut W,
    keyer: &K,
    item: &Item,
    session: &mut Session,
) -> Result<(), Status>
    requires is { item.now ≡ items.Import }
    requires on_disk { IsOnDisk (D.state disk.old) (K.keying keyer.now).tag pool.old }
    requires sealed { session.old.sealed ≡ pool.old.group }
    ensures sectors { (D.state disk.new).sectors ≡ (D.state disk.old).sectors }
    ensures on_disk { OnOk result (IsOnDisk (D.state disk.new) (K.keying keyer.now).tag pool.new) }
    ensures same { (image : Image) → (D.state disk.old).seen ≡ Some image → OnOk result ((pool.new.group ≡ pool.old.group) × (pool.new.sectors ≡ pool.old.sectors)) }
    ensures sealed { OnOk result (session.new.sealed ≡ pool.new.group) }
    ensures groups { session.new.groups ≡ session.old.groups }
    ensures went { (s : Standing) → IsOver (D.state disk.old) pool.old s
        → ItemWent (between (D.state disk.old) (D.state disk.new) (W.written out.old) (W.written out.new) (W.faults out.old) (W.faults out.new))
        (lanes_in_turn (K.keying keyer.now)) s (part_of item.now) [] pool.new session.new.sealed result }
    ensures ended { (image : Image) (status : Status) → (D.state disk.old).seen ≡ Some image → IsErrOf result status → may_begin (origin status) ≡ true }
    ensures devices { (status : Status) → IsErrOf result status → may_end_item (origin status) ≡ true }
    ensures reads { (D.state disk.old).read_faults ≤ (D.state disk.new).read_faults }
    ensures read_cause { IsErrOf result Status.ReadFault → Rose (D.state disk.old).read_faults (D.state disk.new).read_faults }
    ensures writes { (D.state disk.old).write_faults ≤ (D.state disk.new).write_faults }
    ensures write_cause { IsErrOf result Status.WriteFault → Rose (D.state disk.old).write_faults (D.state disk.new).write_faults }
    ensures sink { W.faults out.old ≤ W.faults out.new }
    ensures sink_cause { IsErrOf result Status.SinkFault → Rose (W.faults out.old) (W.faults out.new) }
{
    if let Err(status) = import_again(alloc, pool, disk, keyer) {
        return Err(status);
    }
    session.sealed = pool.sealed;
    tell(write_item(out, item, None, &NO_STATS, pool.sealed, None))
}

/// Tells the statistics of the pool in memory. It calls no device but the output.
pub(crate) fn do_stat<D: Disk, W: Sink, K: KeyOf>(
    pool: &Pool,
    disk: &D,
    out: &mut W,
    keyer: &K,
    item: &Item,
    session: &Session,
) -> Result<(), Status>
    requires is { item.now ≡ items.Stat }
    requires on_disk { IsOnDisk (D.state disk.now) (K.keying keyer.now).tag pool.now }
    requires sealed { session.now.sealed ≡ pool.now.group }
    ensures went { (s : Standing) → IsOver (D.state disk.now) pool.now s
        → ItemWent (between (D.state disk.now) (D.state disk.now) (W.written out.old) (W.written out.new) (W.faults out.old) (W.faults out.new))
        (lanes_in_turn (K.keying keyer.now)) s (part_of item.now) [] pool.now session.now.sealed result }
    ensures ended { (status : Status) → IsErrOf result status → (status ≡ Status.SinkFault) ⊎ (status ≡ Status.OutOfMemory) }
    ensures sink { W.faults out.old ≤ W.faults out.new }
    ensures sink_cause { IsErrOf result Status.SinkFault → Rose (W.faults out.old) (W.faults out.new) }
{
    crash_laws(disk);
    let stats = pool.stats();
    tell(write_item(out, item, None, &stats, pool.sealed, pool.limit))
}
