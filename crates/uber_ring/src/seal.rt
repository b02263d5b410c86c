ghost use Rattle.uber_ring.specs.Spelling.{FitsSeal};

use page_tree::{PagePtr, pointers_fit};

/// The root of a pool image, as the sector of a seal has it.
#[derive(Clone, Copy, Debug, PartialEq, Eq)]
pub struct Seal {
    /// The version of the image: 0 or 1.
    pub version: u32,
    /// The number of the key function: 1 for SHA-256, 255 for the weak key.
    pub tag: u32,
    /// The number of the group that the seal is of.
    pub group: u64,
    /// The sectors of the pool.
    pub sectors: u64,
    /// The quota of the table in bytes; 0 where there is none.
    pub quota: u64,
    /// 1 where there is a quota, else 0.
    pub quota_flag: u32,
    /// The mode of each lane: 0 off, 1 on, 2 verify.
    pub modes: [u8; 16],
    /// The age of the table's state.
    pub age: u64,
    /// The number of changes in the active log.
    pub active_changes: u64,
    /// The number of changes in the flushing log.
    pub flushing_changes: u64,
    /// 1 where a flush has a checkpoint, else 0.
    pub checkpoint_flag: u32,
    /// The length of the checkpoint's key.
    pub checkpoint_len: u32,
    /// The digest of the checkpoint's key.
    pub checkpoint_digest: [u8; 32],
    /// The pointers to the slots, the unique and the duplicate table, the active and the flushing log,
    /// and the space, in this order.
    pub pointers: [PagePtr; 6],
    /// The number of homes with a count above 0.
    pub homes: u64,
    /// The sum of the homes' counts.
    pub counts: u64,
    /// The number of metadata pages.
    pub pages: u64,
}

/// A seal that code has in hand fits its body, by the types of its fields.
pub fn seal_fits(seal: Seal)
    ensures { FitsSeal seal }
{
    let pointers = seal.pointers;
    pointers_fit(&pointers);
}
