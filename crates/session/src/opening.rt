//! How a session's pool is opened: the one on the disk is imported, or a new one is made.

ghost use Rattle.std.specs.Prelude.{◌≡◌, ◌≤◌, ℕ, Some, IfOk, IsErrOf, MatchResult};
ghost use Rattle.disk_model.specs.Images.{Image};
ghost use Rattle.pool_model.specs.declared.notes.Session.{Session};
ghost use Rattle.session.specs.Entries.{IsLawfulSize, last_start};
ghost use Rattle.session.specs.Running.{SizedSo};
ghost use Rattle.session.specs.StageEntries.{IsOnDisk};
ghost use Rattle.session.specs.StageOpening.{EndsOpening, Opens};
ghost use Rattle.session.specs.declared.status.Status.{Status};
ghost use Rattle.session.specs.declared.words.Word.{Word};

use crate::finding::find_pool;
use crate::making::make_pool;
use crate::status::Status;
use crate::words::Word;
use ddt_entry::KeyOf;
use disk_model::Disk;
use pool_model::Session;
use std::alloc::Global;
use table_state::Pool;

/// The highest group from which a session goes on, so that its items stay in the numbers of groups.
const LAST_START: u64 = (1 << 62) - 10_002;

/// Opens the pool of a session: imports the one on the disk, or makes a new one, which is sealed then. Each
/// status that it ends with has its cause; a size that isn't lawful is told before any device is called.
pub(crate) fn open_pool<D: Disk, K: KeyOf>(
    alloc: Global,
    word: Word,
    disk: &mut D,
    keyer: &K,
    session: &mut Session,
) -> Result<Pool, Status>
    requires new { session.old.sealed ≡ 0 }
    ensures sectors { (D.state disk.new).sectors ≡ (D.state disk.old).sectors }
    ensures groups { session.new.groups ≡ session.old.groups }
    ensures on_disk { IfOk result (IsOnDisk (D.state disk.new) (K.keying keyer.now).tag) }
    ensures early { IfOk result (λ pool. pool.group ≤ last_start) }
    ensures sealed { IfOk result (λ pool. session.new.sealed ≡ pool.group) }
    ensures opened { (image : Image) → (D.state disk.old).seen ≡ Some image
        → Opens (D.state disk.old) (D.state disk.new) word (K.keying keyer.now).tag image session.new.sealed result }
    ensures sized { (n : ℕ) → IsErrOf result (Status.BadSize n) → (disk.new ≡ disk.old) × (session.new.sealed ≡ 0) }
    ensures unlawful { word ≡ Word.Make → (IsLawfulSize (D.state disk.old).sectors → ⊥)
        → MatchResult result (λ _. ⊥) (λ status. SizedSo status Unit) }
    ensures ended { (status : Status) → IsErrOf result status
        → EndsOpening status word (K.keying keyer.now).tag (D.state disk.old) (D.state disk.new) session.new.sealed }
    ensures reads { (D.state disk.old).read_faults ≤ (D.state disk.new).read_faults }
    ensures writes { (D.state disk.old).write_faults ≤ (D.state disk.new).write_faults }
{
    match word {
        Word::Run => take_up(alloc, disk, keyer, session),
        Word::Make => begin_new(alloc, disk, keyer, session),
    }
}

/// Takes up the pool that is on the disk.
fn take_up<D: Disk, K: KeyOf>(
    alloc: Global,
    disk: &mut D,
    keyer: &K,
    session: &mut Session,
) -> Result<Pool, Status>
    requires new { session.old.sealed ≡ 0 }
    ensures sectors { (D.state disk.new).sectors ≡ (D.state disk.old).sectors }
    ensures groups { session.new.groups ≡ session.old.groups }
    ensures on_disk { IfOk result (IsOnDisk (D.state disk.new) (K.keying keyer.now).tag) }
    ensures early { IfOk result (λ pool. pool.group ≤ last_start) }
    ensures sealed { IfOk result (λ pool. session.new.sealed ≡ pool.group) }
    ensures opened { (image : Image) → (D.state disk.old).seen ≡ Some image
        → Opens (D.state disk.old) (D.state disk.new) Word.Run (K.keying keyer.now).tag image session.new.sealed result }
    ensures sized { (n : ℕ) → IsErrOf result (Status.BadSize n) → (disk.new ≡ disk.old) × (session.new.sealed ≡ 0) }
    ensures ended { (status : Status) → IsErrOf result status
        → EndsOpening status Word.Run (K.keying keyer.now).tag (D.state disk.old) (D.state disk.new) session.new.sealed }
    ensures reads { (D.state disk.old).read_faults ≤ (D.state disk.new).read_faults }
    ensures writes { (D.state disk.old).write_faults ≤ (D.state disk.new).write_faults }
{
    let pool = find_pool(alloc, disk, keyer)?;
    session.sealed = pool.sealed;
    if pool.sealed > LAST_START {
        return Err(Status::LastGroup(pool.sealed));
    }
    Ok(pool)
}

/// Begins with a new pool.
fn begin_new<D: Disk, K: KeyOf>(
    alloc: Global,
    disk: &mut D,
    keyer: &K,
    session: &mut Session,
) -> Result<Pool, Status>
    requires new { session.old.sealed ≡ 0 }
    ensures sectors { (D.state disk.new).sectors ≡ (D.state disk.old).sectors }
    ensures groups { session.new.groups ≡ session.old.groups }
    ensures on_disk { IfOk result (IsOnDisk (D.state disk.new) (K.keying keyer.now).tag) }
    ensures early { IfOk result (λ pool. pool.group ≤ last_start) }
    ensures sealed { IfOk result (λ pool. session.new.sealed ≡ pool.group) }
    ensures opened { (image : Image) → (D.state disk.old).seen ≡ Some image
        → Opens (D.state disk.old) (D.state disk.new) Word.Make (K.keying keyer.now).tag image session.new.sealed result }
    ensures sized { (n : ℕ) → IsErrOf result (Status.BadSize n) → (disk.new ≡ disk.old) × (session.new.sealed ≡ 0) }
    ensures unlawful { (IsLawfulSize (D.state disk.old).sectors → ⊥) → MatchResult result (λ _. ⊥) (λ status. SizedSo status Unit) }
    ensures ended { (status : Status) → IsErrOf result status
        → EndsOpening status Word.Make (K.keying keyer.now).tag (D.state disk.old) (D.state disk.new) session.new.sealed }
    ensures reads { (D.state disk.old).read_faults ≤ (D.state disk.new).read_faults }
    ensures writes { (D.state disk.old).write_faults ≤ (D.state disk.new).write_faults }
{
    let pool = make_pool(alloc, disk, keyer.tag())?;
    session.sealed = 1;
    Ok(pool)
}
