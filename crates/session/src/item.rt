//! How one item of a command file is done: a group, a `stat` or an `import`, with its text.

ghost use Rattle.std.specs.Prelude.{◌≡◌, ◌≤◌, ◌<◌, ◌+◌, ◌-◌, ◌^◌, ◌++◌, ℕ, true, List, min, Some, OnOk, IsErrOf};
ghost use Rattle.cmd_file.specs.Items.{IsItem};
ghost use Rattle.disk_model.specs.Images.{Image};
ghost use Rattle.io_model.specs.Outside.{Rose};
ghost use Rattle.pool_model.specs.Group.{Standing, lanes_in_turn};
ghost use Rattle.pool_model.specs.Plain.{Told};
ghost use Rattle.pool_model.specs.Mirrors.{part_of};
ghost use Rattle.table_state.specs.SealForms.{last_group};
ghost use Rattle.session.specs.Devices.{between};
ghost use Rattle.session.specs.Origins.{origin, may_begin};
ghost use Rattle.session.specs.Running.{told_in, faults_in, RoseBeyond};
ghost use Rattle.session.specs.StageEntries.{IsOnDisk, IsOver};
ghost use Rattle.session.specs.StageItems.{HasNoClashIn, ItemWent, may_end_item};
ghost use Rattle.session.specs.declared.status.Status.{Status};

use crate::group_item::do_group;
use crate::plain_item::{do_import, do_stat};
use crate::status::Status;
use ddt_entry::KeyOf;
use disk_model::Disk;
use io_model::Sink;
use pool_model::{Item, Session};
use std::alloc::Global;
use table_state::Pool;

/// Does one item of a command file over the pool in memory, and writes its text once it has ended. A group gets
/// its note, for which there is room. After a fault the pool in memory is given up.
pub(crate) fn do_item<D: Disk, W: Sink, K: KeyOf>(
    alloc: Global,
    pool: &mut Pool,
    disk: &mut D,
    out: &mut W,
    keyer: &K,
    item: &Item,
    session: &mut Session,
) -> Result<(), Status>
    requires form { IsItem (part_of item.now) }
    requires room { 0 < session.old.groups.spare }
    requires on_disk { IsOnDisk (D.state disk.old) (K.keying keyer.now).tag pool.old }
    requires last { (image : Image) → (D.state disk.old).seen ≡ Some image → pool.old.group + 1 ≤ last_group }
    requires sealed { session.old.sealed ≡ pool.old.group }
    ensures sectors { (D.state disk.new).sectors ≡ (D.state disk.old).sectors }
    ensures on_disk { OnOk result (IsOnDisk (D.state disk.new) (K.keying keyer.now).tag pool.new) }
    ensures next { (image : Image) → (D.state disk.old).seen ≡ Some image → OnOk result (pool.new.group ≤ pool.old.group + 1) }
    ensures size { (image : Image) → (D.state disk.old).seen ≡ Some image → OnOk result (pool.new.sectors ≡ pool.old.sectors) }
    ensures sealed { OnOk result (session.new.sealed ≡ pool.new.group) }
    ensures noted { (notes : List Told) × (told_in session.new ≡ told_in session.old ++ notes) }
    ensures room { session.old.groups.spare ≤ session.new.groups.spare + 1 }
    ensures went { (s : Standing) → IsOver (D.state disk.old) pool.old s → HasNoClashIn (K.keying keyer.now).key_of s (part_of item.now)
        → (notes : List Told) × (told_in session.new ≡ told_in session.old ++ notes)
        × ItemWent (between (D.state disk.old) (D.state disk.new) (W.written out.old) (W.written out.new) (W.faults out.old) (W.faults out.new))
        (lanes_in_turn (K.keying keyer.now)) s (part_of item.now) notes pool.new session.new.sealed result }
    ensures ended { (image : Image) (status : Status) → (D.state disk.old).seen ≡ Some image → IsErrOf result status → may_begin (origin status) ≡ true }
    ensures devices { (status : Status) → IsErrOf result status → may_end_item (origin status) ≡ true }
    ensures faults { faults_in session.old ≤ faults_in session.new }
    ensures reads { min ((D.state disk.old).read_faults + (faults_in session.new - faults_in session.old)) (2 ^ 64 - 1) ≤ (D.state disk.new).read_faults }
    ensures read_cause { IsErrOf result Status.ReadFault → RoseBeyond (faults_in session.new - faults_in session.old) (D.state disk.old).read_faults (D.state disk.new).read_faults }
    ensures writes { (D.state disk.old).write_faults ≤ (D.state disk.new).write_faults }
    ensures write_cause { IsErrOf result Status.WriteFault → Rose (D.state disk.old).write_faults (D.state disk.new).write_faults }
    ensures sink { W.faults out.old ≤ W.faults out.new }
    ensures sink_cause { IsErrOf result Status.SinkFault → Rose (W.faults out.old) (W.faults out.new) }
{
    match item {
        Item::Lanes(_) | Item::Prune { .. } | Item::Quota(_) | Item::SetMode { .. } => {
            do_group(alloc, pool, disk, out, keyer, item, session)
        }
        Item::Stat => do_stat(pool, disk, out, keyer, item, session),
        Item::Import => do_import(alloc, pool, disk, out, keyer, item, session),
        Item::Create => unreachable!(),
    }
}
