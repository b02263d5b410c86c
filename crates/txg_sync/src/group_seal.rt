ghost use Rattle.std.specs.Prelude.{◌≡◌, ◌≤◌, ◌^◌, ◌∷◌, [], ◌++◌, List, All, length, map, filter, replicate, nat_lt, sum_by};
ghost use Rattle.page_tree.specs.Pointers.{null_pointer};
ghost use Rattle.page_tree.specs.declared.pointer.PagePtr.{PagePtr};
ghost use Rattle.pool_model.specs.Table.{entries_found};
ghost use Rattle.table_state.specs.Spelling.{mode_byte};
ghost use Rattle.table_state.specs.Sealed.{flag_of, quota_number, checkpoint_len, checkpoint_digest, seal_of};

use ddt_entry::{Entry, Key};
use page_tree::PagePtr;
use pool_model::Mode;
use table_state::{DedupTable, IMAGE_VERSION, byte_of};
use uber_ring::Seal;

/// The seal of a group whose table finds these homes, before its roots are known: the settings, the state of the
/// table, null pointers, and the sums of the homes that are counted. Takes no memory.
pub fn seal_of(
    tag: u8,
    sectors: u64,
    group: u64,
    modes: &[Mode; 16],
    quota: Option<u64>,
    table: &DedupTable,
    found: &[Entry],
    pages: u64,
) -> Seal
    requires found { found.now ≡ entries_found table.now.table }
    requires few { length (entries_found table.now.table) ≤ 2 ^ 40 }
    requires counts { All (λ entry. entry.home.count ≤ 1048576) (entries_found table.now.table) }
    ensures fields { (roots : List PagePtr)
        → record result { pointers = roots ++ null_pointer ∷ [] } ≡ seal_of tag sectors group modes.now quota table.now roots pages }
    ensures pointers { result.pointers ≡ replicate 6 null_pointer }
{
    let logs = &table.logs;
    let checkpoint = logs.checkpoint();
    Seal {
        version: IMAGE_VERSION,
        tag: tag as u32,
        group,
        sectors,
        quota: quota_number(quota),
        quota_flag: quota_flag(quota),
        modes: mode_bytes(modes),
        age: table.age,
        active_changes: logs.changes(0),
        flushing_changes: logs.changes(1),
        checkpoint_flag: checkpoint_flag(checkpoint),
        checkpoint_len: checkpoint_len(checkpoint),
        checkpoint_digest: checkpoint_digest(checkpoint),
        pointers: [PagePtr::NULL; 6],
        homes: counted_in(found),
        counts: sum_of_counts(found),
        pages,
    }
}

/// How many of a few entries have a count above 0.
fn counted_in(entries: &[Entry]) -> u64
    requires few { length entries.now ≤ 2 ^ 40 }
    ensures { result ≡ length (filter (λ entry. nat_lt 0 entry.home.count) entries.now) }
{
    let mut counted = 0;
    'entries: for entry in entries {
        if entry.home.count > 0 {
            counted += 1;
        }
    }
    counted
}

/// The sum of the counts of those of a few entries that are counted. Each count is small; one of 0 adds nothing.
fn sum_of_counts(entries: &[Entry]) -> u64
    requires few { length entries.now ≤ 2 ^ 40 }
    requires counts { All (λ entry. entry.home.count ≤ 1048576) entries.now }
    ensures { result ≡ sum_by (λ entry. entry.home.count) (filter (λ entry. nat_lt 0 entry.home.count) entries.now) }
{
    let mut sum = 0;
    'entries: for entry in entries {
        sum += entry.home.count;
    }
    sum
}

/// The byte of each lane's mode.
fn mode_bytes(modes: &[Mode; 16]) -> [u8; 16]
    ensures { result ≡ map mode_byte modes.now }
{
    let mut bytes = [0; 16];
    'lanes: for i in 0..16 {
        bytes[i] = byte_of(modes[i]);
    }
    bytes
}

/// 1 where there is a quota, else 0.
fn quota_flag(quota: Option<u64>) -> u32
    ensures { result ≡ flag_of quota }
{
    match quota {
        Some(_) => 1,
        None => 0,
    }
}

/// The quota, and 0 where there is none.
fn quota_number(quota: Option<u64>) -> u64
    ensures { result ≡ quota_number quota }
{
    match quota {
        Some(bytes) => bytes,
        None => 0,
    }
}

/// 1 where a flush has a checkpoint, else 0.
fn checkpoint_flag(checkpoint: Option<Key>) -> u32
    ensures { result ≡ flag_of checkpoint }
{
    match checkpoint {
        Some(_) => 1,
        None => 0,
    }
}

/// The length of the checkpoint's key, and 0 where there is none.
fn checkpoint_len(checkpoint: Option<Key>) -> u32
    ensures { result ≡ checkpoint_len checkpoint }
{
    match checkpoint {
        Some(key) => key.len,
        None => 0,
    }
}

/// The digest of the checkpoint's key, and zeros where there is none.
fn checkpoint_digest(checkpoint: Option<Key>) -> [u8; 32]
    ensures { result ≡ checkpoint_digest checkpoint }
{
    match checkpoint {
        Some(key) => key.digest,
        None => [0; 32],
    }
}
