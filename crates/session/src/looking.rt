//! The sessions that run no command file: a pool is created, or told of.

ghost use Rattle.std.specs.Prelude.{◌≡◌, ◌≤◌, ◌↔◌, ℕ, Some, None, map, string_bytes};
ghost use Rattle.disk_model.specs.Images.{Image};
ghost use Rattle.pool_model.specs.Pool.{Pool as PoolModel};
ghost use Rattle.pool_model.specs.Mirrors.{part_of};
ghost use Rattle.pool_model.specs.Table.{TableState};
ghost use Rattle.pool_model.specs.Stats.{stats_of};
ghost use Rattle.pool_model.specs.Text.{stat_text};
ghost use Rattle.table_state.specs.Pools.{IsHeld};
ghost use Rattle.report.specs.ItemText.{text_of};
ghost use Rattle.session.specs.Devices.{between};
ghost use Rattle.session.specs.Entries.{IsLawfulSize};
ghost use Rattle.session.specs.Looking.{Creates, Tells, LookCause};
ghost use Rattle.session.specs.Running.{SizedSo};
ghost use Rattle.session.specs.StageWriting.{WritesSo, WriteCause, WriteStatsCause};
ghost use Rattle.session.specs.Words.{looking_words};
ghost use Rattle.session.specs.declared.words.Look.{Look};
ghost use Rattle.session.specs.declared.status.Status.{Status};

use crate::finding::find_pool;
use crate::making::make_pool;
use crate::status::Status;
use crate::words::{Look, looking_words};
use ddt_entry::KeyOf;
use disk_model::Disk;
use io_model::Sink;
use pool_model::{Item, Stats};
use report::{NO_STATS, write_item};
use std::alloc::Global;
use table_state::Pool;

/// Creates a pool (`create`), or tells of the one on the disk (`stat`), by the words behind the image on the command
/// line. It waits for nobody.
pub fn inspect<D: Disk, W: Sink, K: KeyOf>(
    alloc: Global,
    words: &[String],
    disk: &mut D,
    out: &mut W,
    keyer: &K,
) -> Status
    ensures sectors { (D.state disk.new).sectors ≡ (D.state disk.old).sectors }
    ensures usage { (result ≡ Status.Usage) ↔ (looking_words (map string_bytes words.now) ≡ None) }
    ensures unused { result ≡ Status.Usage → (disk.new ≡ disk.old) × (out.new ≡ out.old) }
    ensures created { (image : Image) → (D.state disk.old).seen ≡ Some image → looking_words (map string_bytes words.now) ≡ Some Look.Create
        → Creates (between (D.state disk.old) (D.state disk.new) (W.written out.old) (W.written out.new) (W.faults out.old) (W.faults out.new))
        (K.keying keyer.now).tag image result }
    ensures told { (image : Image) → (D.state disk.old).seen ≡ Some image → looking_words (map string_bytes words.now) ≡ Some Look.Stat
        → Tells (between (D.state disk.old) (D.state disk.new) (W.written out.old) (W.written out.new) (W.faults out.old) (W.faults out.new))
        (K.keying keyer.now).tag image result }
    ensures cause { (look : Look) → looking_words (map string_bytes words.now) ≡ Some look → LookCause result look (K.keying keyer.now).tag
        (between (D.state disk.old) (D.state disk.new) (W.written out.old) (W.written out.new) (W.faults out.old) (W.faults out.new)) }
    ensures sized { looking_words (map string_bytes words.now) ≡ Some Look.Create → (IsLawfulSize (D.state disk.old).sectors → ⊥)
        → SizedSo result ((disk.new ≡ disk.old) × (out.new ≡ out.old)) }
    ensures reads { (D.state disk.old).read_faults ≤ (D.state disk.new).read_faults }
    ensures writes { (D.state disk.old).write_faults ≤ (D.state disk.new).write_faults }
    ensures sink { W.faults out.old ≤ W.faults out.new }
{
    match looking_words(words) {
        None => Status::Usage,
        Some(Look::Create) => create_pool(alloc, disk, out, keyer),
        Some(Look::Stat) => tell_pool(alloc, disk, out, keyer),
    }
}

/// Creates a pool, and writes that it was.
fn create_pool<D: Disk, W: Sink, K: KeyOf>(
    alloc: Global,
    disk: &mut D,
    out: &mut W,
    keyer: &K,
) -> Status
    ensures sectors { (D.state disk.new).sectors ≡ (D.state disk.old).sectors }
    ensures created { (image : Image) → (D.state disk.old).seen ≡ Some image
        → Creates (between (D.state disk.old) (D.state disk.new) (W.written out.old) (W.written out.new) (W.faults out.old) (W.faults out.new))
        (K.keying keyer.now).tag image result }
    ensures cause { LookCause result Look.Create (K.keying keyer.now).tag
        (between (D.state disk.old) (D.state disk.new) (W.written out.old) (W.written out.new) (W.faults out.old) (W.faults out.new)) }
    ensures sized { (IsLawfulSize (D.state disk.old).sectors → ⊥) → SizedSo result ((disk.new ≡ disk.old) × (out.new ≡ out.old)) }
    ensures reads { (D.state disk.old).read_faults ≤ (D.state disk.new).read_faults }
    ensures writes { (D.state disk.old).write_faults ≤ (D.state disk.new).write_faults }
    ensures sink { W.faults out.old ≤ W.faults out.new }
{
    match make_pool(alloc, disk, keyer.tag()) {
        Ok(_pool) => write_text(out, &Item::Create, &NO_STATS, 1, None),
        Err(status) => status,
    }
}

/// Writes the statistics of the pool that is on the disk.
fn tell_pool<D: Disk, W: Sink, K: KeyOf>(
    alloc: Global,
    disk: &mut D,
    out: &mut W,
    keyer: &K,
) -> Status
    ensures sectors { (D.state disk.new).sectors ≡ (D.state disk.old).sectors }
    ensures told { (image : Image) → (D.state disk.old).seen ≡ Some image
        → Tells (between (D.state disk.old) (D.state disk.new) (W.written out.old) (W.written out.new) (W.faults out.old) (W.faults out.new))
        (K.keying keyer.now).tag image result }
    ensures cause { LookCause result Look.Stat (K.keying keyer.now).tag
        (between (D.state disk.old) (D.state disk.new) (W.written out.old) (W.written out.new) (W.faults out.old) (W.faults out.new)) }
    ensures reads { (D.state disk.old).read_faults ≤ (D.state disk.new).read_faults }
    ensures writes { (D.state disk.old).write_faults ≤ (D.state disk.new).write_faults }
    ensures sink { W.faults out.old ≤ W.faults out.new }
{
    match find_pool(alloc, disk, keyer) {
        Ok(pool) => write_stats(&pool, out),
        Err(status) => status,
    }
}

/// Writes the statistics of a pool.
fn write_stats<W: Sink>(pool: &Pool, out: &mut W) -> Status
    ensures told { (image : Image) (p : PoolModel) (table : TableState) → IsHeld image pool.now p table
        → WritesSo result (stat_text p.group p.quota (stats_of p)) (W.written out.old) (W.written out.new) }
    ensures cause { WriteStatsCause result (W.faults out.old) (W.faults out.new) }
    ensures sink { W.faults out.old ≤ W.faults out.new }
{
    let stats = pool.stats();
    write_text(out, &Item::Stat, &stats, pool.sealed, pool.limit)
}

/// Writes the text of an item without a note.
fn write_text<W: Sink>(
    out: &mut W,
    item: &Item,
    stats: &Stats,
    group: u64,
    quota: Option<u64>,
) -> Status
    ensures text { WritesSo result (text_of (part_of item.now) None stats.now group quota) (W.written out.old) (W.written out.new) }
    ensures cause { WriteCause result (W.faults out.old) (W.faults out.new) }
    ensures sink { W.faults out.old ≤ W.faults out.new }
{
    let Ok(()) = write_item(out, item, None, stats, group, quota) else {
        return Status::SinkFault;
    };
    Status::Done
}
