ghost use Rattle.std.specs.Prelude.{◌≡◌};
ghost use Rattle.table_state.specs.SealForms.{has_group, has_size, has_flags, has_modes, has_checkpoint, is_formed};
ghost use Rattle.table_state.specs.Spelling.{new_seal};

use page_tree::PagePtr;
use uber_ring::{FEWEST_SECTORS, Seal};

/// The version of the image that is read and written.
pub const IMAGE_VERSION: u32 = 0;

/// How many sectors a pool has at the most.
pub const MOST_SECTORS: u64 = 1_000_000;

/// The highest number of a group.
pub const LAST_GROUP: u64 = (1 << 62) - 1;

/// Whether the group is one that a pool can have.
fn has_group(seal: &Seal) -> bool
    ensures { result ≡ has_group seal.now }
{
    seal.group >= 1 && seal.group <= LAST_GROUP
}

/// Whether the pool's sectors are a pool's, and the disk has them.
fn has_size(seal: &Seal, sectors: u64) -> bool
    ensures { result ≡ has_size sectors seal.now }
{
    seal.sectors >= FEWEST_SECTORS && seal.sectors <= MOST_SECTORS && seal.sectors <= sectors
}

/// Whether the flags are flags.
fn has_flags(seal: &Seal) -> bool
    ensures { result ≡ has_flags seal.now }
{
    seal.quota_flag <= 1 && seal.checkpoint_flag <= 1
}

/// Whether each lane's byte is a mode's.
fn has_modes(seal: &Seal) -> bool
    ensures { result ≡ has_modes seal.now }
{
    seal.modes.iter().all(|mode| *mode <= 2)
}

/// Whether a checkpoint stands only beside changes in the flushing log.
fn has_checkpoint(seal: &Seal) -> bool
    ensures { result ≡ has_checkpoint seal.now }
{
    seal.checkpoint_flag == 0 || seal.flushing_changes > 0
}

/// Whether the numbers of a seal can be those of a pool, for a key function with this tag, on a disk of so
/// many sectors.
pub fn is_formed(seal: &Seal, tag: u8, sectors: u64) -> bool
    ensures { result ≡ is_formed tag sectors seal.now }
{
    seal.tag == tag as u32
        && has_group(seal)
        && has_size(seal, sectors)
        && has_flags(seal)
        && has_modes(seal)
        && has_checkpoint(seal)
}

/// The seal of a new pool of so many sectors, which is empty: group 1, lanes on, no quota, null pointers.
pub fn new_seal(tag: u8, sectors: u64) -> Seal
    ensures { result ≡ new_seal tag sectors }
{
    Seal {
        version: IMAGE_VERSION,
        tag: tag as u32,
        group: 1,
        sectors,
        quota: 0,
        quota_flag: 0,
        modes: [1; 16],
        age: 0,
        active_changes: 0,
        flushing_changes: 0,
        checkpoint_flag: 0,
        checkpoint_len: 0,
        checkpoint_digest: [0; 32],
        pointers: [PagePtr::NULL; 6],
        homes: 0,
        counts: 0,
        pages: 0,
    }
}
