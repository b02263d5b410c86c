ghost use Rattle.std.specs.Prelude.{◌≡◌, ◌≤◌, ◌+◌, ◌-◌, ◌^◌, ◌<◌, ◌++◌, ◌∷◌, [], ℕ, true, List, min, map, take, length, Some, None, OnOk, OnErr, IsErrOf, IfOk, ◌↔◌, string_bytes};
ghost use Rattle.std.specs.List.{AllByRecursion};
ghost use Rattle.cmd_file.specs.Items.{IsItem, AreItems};
ghost use Rattle.io_model.specs.Outside.{Rose};
ghost use Rattle.disk_model.specs.Images.{Image};
ghost use Rattle.pool_model.specs.Group.{lanes_in_turn};
ghost use Rattle.pool_model.specs.Mirrors.{part_of};
ghost use Rattle.session.specs.Devices.{between, reading};
ghost use Rattle.session.specs.Entries.{IsLawfulSize, last_start};
ghost use Rattle.session.specs.Origins.{origin, of_size, may_begin, is_before_devices};
ghost use Rattle.session.specs.Running.{IsUntouched, RanOver, HasCauseFor, ReadSo, SizedSo, told_in, faults_in, RoseBeyond};
ghost use Rattle.session.specs.StageEntries.{IsOnDisk};
ghost use Rattle.session.specs.StageGoing.{GoesOn, StopsIn, ItemsRanOver, is_of_devices};
ghost use Rattle.session.specs.StageItems.{may_end_item};
ghost use Rattle.session.specs.Words.{running_words};
ghost use Rattle.session.specs.declared.status.Status.{Status};
ghost use Rattle.session.specs.declared.words.Word.{Word};

use crate::item::do_item;
use crate::opening::open_pool;
use crate::status::Status;
use crate::words::{Word, running_words};
use cmd_file::{FileFault, items_have_their_form, read_file};
use ddt_entry::KeyOf;
use disk_model::{Disk, crash_laws};
use io_model::{Sink, Source};
use pool_model::{Item, Session};
use std::alloc::Global;
use table_state::Pool;

/// Does the items of a command file, one after another, over the pool in memory. There is room for their notes.
fn do_items<D: Disk, W: Sink, K: KeyOf>(
    alloc: Global,
    pool: &mut Pool,
    disk: &mut D,
    out: &mut W,
    keyer: &K,
    items: &[Item],
    session: &mut Session,
) -> Result<(), Status>
    requires form { AllByRecursion IsItem (map part_of items.now) }
    requires few { length items.now ≤ 10_000 }
    requires room { length items.now ≤ session.old.groups.spare }
    requires new { session.old.groups.items ≡ [] }
    requires on_disk { IsOnDisk (D.state disk.old) (K.keying keyer.now).tag pool.old }
    requires early { (image : Image) → (D.state disk.old).seen ≡ Some image → pool.old.group ≤ last_start }
    requires sealed { session.old.sealed ≡ pool.old.group }
    ensures sectors { (D.state disk.new).sectors ≡ (D.state disk.old).sectors }
    ensures done { OnOk result (GoesOn
        (between (D.state disk.old) (D.state disk.new) (W.written out.old) (W.written out.new) (W.faults out.old) (W.faults out.new))
        (lanes_in_turn (K.keying keyer.now)) pool.old (map part_of items.now) (map part_of items.now)
        (told_in session.new) pool.new session.new.sealed) }
    ensures tagged { OnOk result (pool.new.tag ≡ (K.keying keyer.now).tag) }
    ensures stopped { (status : Status) → IsErrOf result status
        → StopsIn
        (between (D.state disk.old) (D.state disk.new) (W.written out.old) (W.written out.new) (W.faults out.old) (W.faults out.new))
        (lanes_in_turn (K.keying keyer.now)) pool.old (map part_of items.now) (told_in session.new) session.new.sealed status }
    ensures ended { (image : Image) (status : Status) → (D.state disk.old).seen ≡ Some image → IsErrOf result status
        → may_begin (origin status) ≡ true }
    ensures devices { (status : Status) → IsErrOf result status → may_end_item (origin status) ≡ true }
    ensures reads { min ((D.state disk.old).read_faults + faults_in session.new) (2 ^ 64 - 1) ≤ (D.state disk.new).read_faults }
    ensures read_cause { IsErrOf result Status.ReadFault
        → RoseBeyond (faults_in session.new) (D.state disk.old).read_faults (D.state disk.new).read_faults }
    ensures writes { (D.state disk.old).write_faults ≤ (D.state disk.new).write_faults }
    ensures write_cause { IsErrOf result Status.WriteFault → Rose (D.state disk.old).write_faults (D.state disk.new).write_faults }
    ensures sink { W.faults out.old ≤ W.faults out.new }
    ensures sink_cause { IsErrOf result Status.SinkFault → Rose (W.faults out.old) (W.faults out.new) }
{
    crash_laws(disk);
    'items: for item in items {
        crash_laws(disk);
        let done = do_item(alloc, pool, disk, out, keyer, item, session);
        if let Err(status) = done {
            return Err(status);
        }
    }
    Ok(())
}

/// Runs the items of a command file, over the pool that the word says.
fn run_items<D: Disk, W: Sink, K: KeyOf>(
    alloc: Global,
    word: Word,
    disk: &mut D,
    out: &mut W,
    keyer: &K,
    items: &[Item],
    session: &mut Session,
) -> Status
    requires form { AreItems (map part_of items.now) }
    requires new { IsUntouched session.old }
    ensures sectors { (D.state disk.new).sectors ≡ (D.state disk.old).sectors }
    ensures ran { (image : Image) → (D.state disk.old).seen ≡ Some image
        → ItemsRanOver
        (between (D.state disk.old) (D.state disk.new) (W.written out.old) (W.written out.new) (W.faults out.old) (W.faults out.new))
        word (lanes_in_turn (K.keying keyer.now)) image (map part_of items.now) session.new result }
    ensures devices { is_of_devices (origin result) ≡ true }
    ensures sized { origin result ≡ of_size → (disk.new ≡ disk.old) × (out.new ≡ out.old) × IsUntouched session.new }
    ensures unlawful { word ≡ Word.Make → (IsLawfulSize (D.state disk.old).sectors → ⊥) → SizedSo result Unit }
    ensures cause { HasCauseFor result word (K.keying keyer.now).tag
        (between (D.state disk.old) (D.state disk.new) (W.written out.old) (W.written out.new) (W.faults out.old) (W.faults out.new))
        (faults_in session.new) }
    ensures reads { min ((D.state disk.old).read_faults + faults_in session.new) (2 ^ 64 - 1) ≤ (D.state disk.new).read_faults }
    ensures writes { (D.state disk.old).write_faults ≤ (D.state disk.new).write_faults }
    ensures sink { W.faults out.old ≤ W.faults out.new }
{
    crash_laws(disk);
    if session.groups.reserve(items.len() as u64).is_err() {
        return Status::OutOfMemory;
    }
    let opened = open_pool(alloc, word, disk, keyer, session);
    let mut pool = match opened {
        Ok(pool) => pool,
        Err(status) => return status,
    };
    crash_laws(disk);
    match do_items(alloc, &mut pool, disk, out, keyer, items, session) {
        Ok(()) => Status::Done,
        Err(status) => status,
    }
}

/// Runs a session: opens the pool on the disk (`run`), or makes a new one (`make`), and does the items of the
/// command file, each with its text. The words are those behind the image on the command line. What each status
/// says is in docs/GUARANTEES.md.
pub fn run<D: Disk, S: Source, W: Sink, K: KeyOf>(
    alloc: Global,
    words: &[String],
    disk: &mut D,
    input: &mut S,
    out: &mut W,
    keyer: &K,
    session: &mut Session,
) -> Status
    requires new { IsUntouched session.old }
    ensures sectors { (D.state disk.new).sectors ≡ (D.state disk.old).sectors }
    ensures usage { (result ≡ Status.Usage) ↔ (running_words (map string_bytes words.now) ≡ None) }
    ensures ran { (image : Image) (word : Word) → running_words (map string_bytes words.now) ≡ Some word
        → (D.state disk.old).seen ≡ Some image → RanOver
        (between (D.state disk.old) (D.state disk.new) (W.written out.old) (W.written out.new) (W.faults out.old) (W.faults out.new))
        (reading (S.left input.old) (S.left input.new) (S.faults input.old) (S.faults input.new))
        word (lanes_in_turn (K.keying keyer.now)) image session.new result }
    ensures read { ReadSo result (reading (S.left input.old) (S.left input.new) (S.faults input.old) (S.faults input.new)) }
    ensures unread { result ≡ Status.Usage → input.new ≡ input.old }
    ensures untouched { is_before_devices (origin result) ≡ true → (disk.new ≡ disk.old) × (out.new ≡ out.old) × IsUntouched session.new }
    ensures sized { running_words (map string_bytes words.now) ≡ Some Word.Make → (IsLawfulSize (D.state disk.old).sectors → ⊥)
        → SizedSo result Unit }
    ensures cause { (word : Word) → running_words (map string_bytes words.now) ≡ Some word
        → HasCauseFor result word (K.keying keyer.now).tag
        (between (D.state disk.old) (D.state disk.new) (W.written out.old) (W.written out.new) (W.faults out.old) (W.faults out.new))
        (faults_in session.new) }
    ensures reads { min ((D.state disk.old).read_faults + faults_in session.new) (2 ^ 64 - 1) ≤ (D.state disk.new).read_faults }
    ensures writes { (D.state disk.old).write_faults ≤ (D.state disk.new).write_faults }
    ensures source { S.faults input.old ≤ S.faults input.new }
    ensures sink { W.faults out.old ≤ W.faults out.new }
{
    crash_laws(disk);
    items_have_their_form();
    let Some(word) = running_words(words) else {
        return Status::Usage;
    };
    match read_file(alloc, input) {
        Ok(file) => run_items(
            alloc,
            word,
            disk,
            out,
            keyer,
            file.items.as_slice(),
            session,
        ),
        Err(FileFault::Bad { line, kind }) => Status::BadFile { line, kind },
        Err(FileFault::SourceFault) => Status::SourceFault,
        Err(FileFault::Memory) => Status::OutOfMemory,
    }
}
