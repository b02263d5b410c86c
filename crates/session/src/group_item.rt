//! How a group of an item is done: it is closed, what it leaves is synced, and its text is written.

ghost use Rattle.std.specs.Prelude.{◌≡◌, ◌≤◌, ◌<◌, ◌+◌, ◌-◌, ◌^◌, ◌++◌, ◌∷◌, [], ℕ, true, List, Some, None, Err, min, ◌⊎◌, OnOk, IsOk, IsErrOf};
ghost use Rattle.cmd_file.specs.Items.{IsItem};
ghost use Rattle.disk_model.specs.Images.{Image};
ghost use Rattle.io_model.specs.Outside.{Rose};
ghost use Rattle.pool_model.specs.declared.notes.Outcome.TheVariants as outcomes;
ghost use Rattle.ddt_entry.specs.Keys.{Keying};
ghost use Rattle.pool_model.specs.Group.{Standing, lanes_in_turn};
ghost use Rattle.pool_model.specs.Text.{noted_text};
ghost use Rattle.pool_model.specs.Plain.{GroupItem, Told, of_group, told_of};
ghost use Rattle.pool_model.specs.Mirrors.{part_of};
ghost use Rattle.pool_model.specs.Run.{kind_of};
ghost use Rattle.report.specs.Writes.{Wrote};
ghost use Rattle.table_state.specs.Sound.{IsSound};
ghost use Rattle.table_state.specs.SealForms.{last_group};
ghost use Rattle.table_state.specs.Closing.{closed_of, IsInRange, CanSyncOver};
ghost use Rattle.session.specs.Devices.{between};
ghost use Rattle.session.specs.Origins.{origin, may_begin};
ghost use Rattle.session.specs.Running.{told_in, faults_in, RoseBeyond};
ghost use Rattle.session.specs.StageEntries.{IsOnDisk, IsOver};
ghost use Rattle.session.specs.StageClosing.{IsGroup};
ghost use Rattle.session.specs.StageGroups.{HasRunOver, GroupWent, outcome_by, refused_by, outcome_after, taken_after, new_told, faults_of, ended_by, TellsGroup};
ghost use Rattle.session.specs.StageItems.{HasNoClashIn, ItemWent, may_end_item};
ghost use Rattle.session.specs.declared.status.Status.{Status};

use crate::closing::{close_group, kind_of};
use crate::status::{Status, told};
use ddt_entry::KeyOf;
use disk_model::{Disk, Failed, crash_laws};
use io_model::Sink;
use pool_model::{Closed, GroupFault, GroupNote, Item, Outcome, Session};
use report::{NO_STATS, write_item};
use reserved_list::ReservedList;
use std::alloc::Global;
use table_state::{LAST_GROUP, Pool};
use txg_sync::sync;

/// Notes a group that wasn't run: the session goes on where it had no room, and ends after any other fault.
fn refuse(note: &mut GroupNote, fault: GroupFault) -> Result<(), Status>
    requires cut { note.old.outcome ≡ outcomes.Cut }
    ensures noted { told_of note.new ≡ record (told_of note.old) { outcome = outcome_by fault } }
    ensures answered { result ≡ refused_by fault }
{
    match fault {
        GroupFault::NoSpace { need, free } => {
            note.outcome = Outcome::NoSpace { need, free };
            Ok(())
        }
        GroupFault::ReadFault => Err(Status::ReadFault),
        GroupFault::WriteFault => Err(Status::WriteFault),
        GroupFault::Damaged(sector) => Err(Status::Damaged(sector)),
        GroupFault::Memory => Err(Status::OutOfMemory),
    }
}

/// Syncs what a group left, and notes that it was sealed, with the number of homes that it took. After a fault the note
/// is as it was, and the pool is given up.
fn seal_run<D: Disk>(
    alloc: Global,
    pool: &mut Pool,
    disk: &mut D,
    closed: &Closed,
    taken: u64,
    note: &mut GroupNote,
) -> Result<(), Status>
    requires sound { IsSound pool.old }
    requires range { IsInRange pool.old (closed_of closed.now) }
    requires last { pool.old.group + 1 ≤ last_group }
    requires there { pool.old.sectors ≤ (D.state disk.old).sectors }
    requires over { CanSyncOver (D.state disk.old).seen pool.old (closed_of closed.now) }
    requires cut { note.old.outcome ≡ outcomes.Cut }
    requires untaken { note.old.taken ≡ 0 }
    ensures sectors { (D.state disk.new).sectors ≡ (D.state disk.old).sectors }
    ensures noted { told_of note.new ≡ record (told_of note.old) { outcome = outcome_after result; taken = taken_after taken result } }
    ensures on_disk { (tag : ℕ) → IsOnDisk (D.state disk.old) tag pool.old → OnOk result (IsOnDisk (D.state disk.new) tag pool.new) }
    ensures number { OnOk result (pool.new.group ≡ pool.old.group + 1) }
    ensures size { OnOk result (pool.new.sectors ≡ pool.old.sectors) }
    ensures went { (keying : Keying) (s : Standing) (group : GroupItem)
        → HasRunOver keying (D.state disk.old) pool.old s group (told_of note.old) taken (closed_of closed.now)
        → GroupWent (D.state disk.old) (D.state disk.new) (lanes_in_turn keying) s group (told_of note.new) pool.new result }
    ensures ended { (image : Image) (status : Status) → (D.state disk.old).seen ≡ Some image → IsErrOf result status → may_begin (origin status) ≡ true }
    ensures devices { (status : Status) → IsErrOf result status → may_end_item (origin status) ≡ true }
    ensures device { IsErrOf result Status.SinkFault → ⊥ }
    ensures reads { (D.state disk.old).read_faults ≤ (D.state disk.new).read_faults }
    ensures read_cause { IsErrOf result Status.ReadFault → Rose (D.state disk.old).read_faults (D.state disk.new).read_faults }
    ensures writes { (D.state disk.old).write_faults ≤ (D.state disk.new).write_faults }
    ensures write_cause { IsErrOf result Status.WriteFault → Rose (D.state disk.old).write_faults (D.state disk.new).write_faults }
{
    crash_laws(disk);
    let sealed = sync(alloc, pool, disk, closed);
    crash_laws(disk);
    match sealed {
        Ok(_) => {
            note.outcome = Outcome::Sealed;
            note.taken = taken;
            Ok(())
        }
        Err(fault) => Err(told(fault)),
    }
}

/// Closes a group over the pool in memory, and syncs what it leaves: notes how the group ended. After a fault the
/// pool is given up.
fn run_group<D: Disk, K: KeyOf>(
    alloc: Global,
    pool: &mut Pool,
    disk: &mut D,
    keyer: &K,
    item: &Item,
    note: &mut GroupNote,
) -> Result<(), Status>
    requires is { IsGroup item.now }
    requires form { IsItem (part_of item.now) }
    requires on_disk { IsOnDisk (D.state disk.old) (K.keying keyer.now).tag pool.old }
    requires last { pool.old.group + 1 ≤ last_group }
    requires new { (group : GroupItem) → part_of item.now ≡ of_group group
        → told_of note.old ≡ new_told (pool.old.group + 1) (kind_of group) outcomes.Cut }
    requires cut { note.old.outcome ≡ outcomes.Cut }
    requires untaken { note.old.taken ≡ 0 }
    requires unnoted { note.old.lanes.items ≡ [] }
    ensures sectors { (D.state disk.new).sectors ≡ (D.state disk.old).sectors }
    ensures on_disk { OnOk result (IsOnDisk (D.state disk.new) (K.keying keyer.now).tag pool.new) }
    ensures next { OnOk result (pool.new.group ≤ pool.old.group + 1) }
    ensures size { OnOk result (pool.new.sectors ≡ pool.old.sectors) }
    ensures went { (s : Standing) (group : GroupItem) → IsOver (D.state disk.old) pool.old s → part_of item.now ≡ of_group group
        → HasNoClashIn (K.keying keyer.now).key_of s (of_group group)
        → GroupWent (D.state disk.old) (D.state disk.new) (lanes_in_turn (K.keying keyer.now)) s group (told_of note.new) pool.new result }
    ensures ended { (image : Image) (status : Status) → (D.state disk.old).seen ≡ Some image → IsErrOf result status → may_begin (origin status) ≡ true }
    ensures devices { (status : Status) → IsErrOf result status → may_end_item (origin status) ≡ true }
    ensures device { IsErrOf result Status.SinkFault → ⊥ }
    ensures reads { min ((D.state disk.old).read_faults + faults_of (told_of note.new)) (2 ^ 64 - 1) ≤ (D.state disk.new).read_faults }
    ensures read_cause { IsErrOf result Status.ReadFault → RoseBeyond (faults_of (told_of note.new)) (D.state disk.old).read_faults (D.state disk.new).read_faults }
    ensures writes { (D.state disk.old).write_faults ≤ (D.state disk.new).write_faults }
    ensures write_cause { IsErrOf result Status.WriteFault → Rose (D.state disk.old).write_faults (D.state disk.new).write_faults }
{
    crash_laws(disk);
    match close_group(alloc, pool, disk, keyer, item, note) {
        Ok((closed, taken)) => seal_run(alloc, pool, disk, &closed, taken, note),
        Err(fault) => refuse(note, fault),
    }
}

/// Puts a group's note behind the session's, for which there is room.
fn keep_note(session: &mut Session, note: GroupNote)
    requires room { 0 < session.old.groups.spare }
    ensures noted { told_in session.new ≡ told_in session.old ++ told_of note ∷ [] }
    ensures room { session.old.groups.spare ≡ session.new.groups.spare + 1 }
    ensures sealed { session.new.sealed ≡ session.old.sealed }
    ensures faults { faults_in session.new ≡ faults_in session.old + faults_of (told_of note) }
{
    session.groups.push(note);
}

/// Writes the text of a group that ended, and puts its note behind the session's.
fn tell_group<W: Sink>(
    out: &mut W,
    item: &Item,
    note: GroupNote,
    session: &mut Session,
) -> Result<(), Status>
    requires room { 0 < session.old.groups.spare }
    ensures noted { told_in session.new ≡ told_in session.old ++ told_of note ∷ [] }
    ensures room { session.old.groups.spare ≡ session.new.groups.spare + 1 }
    ensures sealed { session.new.sealed ≡ session.old.sealed }
    ensures faults { faults_in session.new ≡ faults_in session.old + faults_of (told_of note) }
    ensures wrote { (part : GroupItem) → part_of item.now ≡ of_group part
        → Wrote (W.written out.old) (W.written out.new) (W.faults out.old) (W.faults out.new) (noted_text part (Some (told_of note))) result }
    ensures sink { W.faults out.old ≤ W.faults out.new }
    ensures sink_cause { IsErrOf result Status.SinkFault → Rose (W.faults out.old) (W.faults out.new) }
    ensures status { (status : Status) → IsErrOf result status → status ≡ Status.SinkFault }
{
    let wrote = tell(write_item(out, item, Some(&note), &NO_STATS, 0, None));
    keep_note(session, note);
    wrote
}

/// How a session ends by a text that could not be written.
pub(crate) fn tell(wrote: Result<(), Failed>) -> Result<(), Status>
    ensures { result ≡ ended_by wrote }
{
    match wrote {
        Ok(()) => Ok(()),
        Err(_) => Err(Status::SinkFault),
    }
}

/// Notes how a group ended, with its text and the session's newest group where the session goes on.
fn end_group<W: Sink>(
    out: &mut W,
    item: &Item,
    note: GroupNote,
    session: &mut Session,
    sealed: u64,
    ended: Result<(), Status>,
) -> Result<(), Status>
    requires room { 0 < session.old.groups.spare }
    ensures noted { told_in session.new ≡ told_in session.old ++ told_of note ∷ [] }
    ensures room { session.old.groups.spare ≡ session.new.groups.spare + 1 }
    ensures faults { faults_in session.new ≡ faults_in session.old + faults_of (told_of note) }
    ensures told { (part : GroupItem) → part_of item.now ≡ of_group part → TellsGroup ended sealed session.old.sealed session.new.sealed
        (Wrote (W.written out.old) (W.written out.new) (W.faults out.old) (W.faults out.new) (noted_text part (Some (told_of note))) result)
        (W.written out.new ≡ W.written out.old) result }
    ensures sealed { OnOk result (session.new.sealed ≡ sealed) }
    ensures failed { (status : Status) → IsErrOf result status → IsErrOf ended status ⊎ (status ≡ Status.SinkFault) }
    ensures ended { OnOk result (IsOk ended) }
    ensures sink { W.faults out.old ≤ W.faults out.new }
    ensures sink_cause { (IsErrOf ended Status.SinkFault → ⊥) → IsErrOf result Status.SinkFault → Rose (W.faults out.old) (W.faults out.new) }
{
    match ended {
        Ok(()) => {
            session.sealed = sealed;
            tell_group(out, item, note, session)
        }
        Err(status) => {
            keep_note(session, note);
            Err(status)
        }
    }
}

/// Does a group of an item: runs and syncs it, writes its text, and notes it.
pub(crate) fn do_group<D: Disk, W: Sink, K: KeyOf>(
    alloc: Global,
    pool: &mut Pool,
    disk: &mut D,
    out: &mut W,
    keyer: &K,
    item: &Item,
    session: &mut Session,
) -> Result<(), Status>
    requires is { IsGroup item.now }
    requires form { IsItem (part_of item.now) }
    requires room { 0 < session.old.groups.spare }
    requires on_disk { IsOnDisk (D.state disk.old) (K.keying keyer.now).tag pool.old }
    requires last { (image : Image) → (D.state disk.old).seen ≡ Some image → pool.old.group + 1 ≤ last_group }
    requires sealed { session.old.sealed ≡ pool.old.group }
    ensures sectors { (D.state disk.new).sectors ≡ (D.state disk.old).sectors }
    ensures on_disk { OnOk result (IsOnDisk (D.state disk.new) (K.keying keyer.now).tag pool.new) }
    ensures next { OnOk result (pool.new.group ≤ pool.old.group + 1) }
    ensures size { OnOk result (pool.new.sectors ≡ pool.old.sectors) }
    ensures sealed { OnOk result (session.new.sealed ≡ pool.new.group) }
    ensures noted { (notes : List Told) × (told_in session.new ≡ told_in session.old ++ notes) }
    ensures room { session.old.groups.spare ≤ session.new.groups.spare + 1 }
    ensures went { (s : Standing) → IsOver (D.state disk.old) pool.old s → HasNoClashIn (K.keying keyer.now).key_of s (part_of item.now)
        → (notes : List Told) × (told_in session.new ≡ told_in session.old ++ notes)
        × ItemWent (between (D.state disk.old) (D.state disk.new) (W.written out.old) (W.written out.new) (W.faults out.old) (W.faults out.new))
        (lanes_in_turn (K.keying keyer.now)) s (part_of item.now) notes pool.new session.new.sealed result }
    ensures ended { (image : Image) (status : Status) → (D.state disk.old).seen ≡ Some image → IsErrOf result status → may_begin (origin status) ≡ true }
    ensures devices { (status : Status) → IsErrOf result status → may_end_item (origin status) ≡ true }
    ensures faults { faults_in session.old ≤ faults_in session.new }
    ensures reads { min ((D.state disk.old).read_faults + (faults_in session.new - faults_in session.old)) (2 ^ 64 - 1) ≤ (D.state disk.new).read_faults }
    ensures read_cause { IsErrOf result Status.ReadFault → RoseBeyond (faults_in session.new - faults_in session.old) (D.state disk.old).read_faults (D.state disk.new).read_faults }
    ensures writes { (D.state disk.old).write_faults ≤ (D.state disk.new).write_faults }
    ensures write_cause { IsErrOf result Status.WriteFault → Rose (D.state disk.old).write_faults (D.state disk.new).write_faults }
    ensures sink { W.faults out.old ≤ W.faults out.new }
    ensures sink_cause { IsErrOf result Status.SinkFault → Rose (W.faults out.old) (W.faults out.new) }
{
    if pool.sealed >= LAST_GROUP {
        return Err(Status::LastGroup(pool.sealed));
    }
    let mut note = GroupNote {
        number: pool.sealed + 1,
        kind: kind_of(item),
        outcome: Outcome::Cut,
        taken: 0,
        lanes: ReservedList::new(alloc),
    };
    let ended = run_group(alloc, pool, disk, keyer, item, &mut note);
    end_group(out, item, note, session, pool.sealed, ended)
}
