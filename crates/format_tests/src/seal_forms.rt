use crate::comparing::assert_same;
use pool_model::Mode;
use std::process::Abort;
use table_state::{byte_of, is_formed, mode_of, new_seal};
use uber_ring::Seal;

/// The first lane verifies.
const FIRST_VERIFIES: [u8; 16] = [2, 1, 1, 1, 1, 1, 1, 1, 1, 1, 1, 1, 1, 1, 1, 1];

/// The last lane's byte is no mode's.
const LAST_IS_3: [u8; 16] = [1, 1, 1, 1, 1, 1, 1, 1, 1, 1, 1, 1, 1, 1, 1, 3];

/// In what a seal differs from that of a new pool of 2,048 sectors.
#[derive(Clone, Copy)]
enum Change {
    Nothing,
    Tag(u32),
    Group(u64),
    Sectors(u64),
    QuotaFlag(u32),
    Modes([u8; 16]),
    /// The checkpoint's flag, and how many changes are being flushed.
    Checkpoint(u32, u64),
}

/// The seal of a new pool with this change.
fn changed(change: Change) -> Seal {
    let mut seal = new_seal(1, 2_048);
    match change {
        Change::Nothing => {}
        Change::Tag(tag) => seal.tag = tag,
        Change::Group(group) => seal.group = group,
        Change::Sectors(sectors) => seal.sectors = sectors,
        Change::QuotaFlag(flag) => seal.quota_flag = flag,
        Change::Modes(modes) => seal.modes = modes,
        Change::Checkpoint(flag, changes) => {
            seal.checkpoint_flag = flag;
            seal.flushing_changes = changes;
        }
    }
    seal
}

/// Sees whether such a seal is formed, for the key function 1 and a disk of so many sectors.
fn assert_formed(rt: &impl Abort, case: &str, change: Change, sectors: u64, formed: bool) {
    let seal = changed(change);
    assert_same(rt, case, is_formed(&seal, 1, sectors), formed);
}

/// Seals with a number out of its range, and the sectors of the disk.
const UNFORMED: [(&str, Change, u64); 11] = [
    ("tag 2", Change::Tag(2), 2_048),
    ("group 0", Change::Group(0), 2_048),
    (
        "group 2^62",
        Change::Group(4_611_686_018_427_387_904),
        2_048,
    ),
    ("2,047 sectors", Change::Sectors(2_047), 2_048),
    ("1,000,001 sectors", Change::Sectors(1_000_001), 2_000_000),
    (
        "a sector that the disk lacks",
        Change::Sectors(2_049),
        2_048,
    ),
    ("quota flag 2", Change::QuotaFlag(2), 2_048),
    ("checkpoint flag 2", Change::Checkpoint(2, 0), 2_048),
    (
        "checkpoint flag 2, one change",
        Change::Checkpoint(2, 1),
        2_048,
    ),
    ("mode 3", Change::Modes(LAST_IS_3), 2_048),
    ("a checkpoint, no change", Change::Checkpoint(1, 0), 2_048),
];

#[test]
fn a_seal_with_a_number_out_of_its_range_has_no_form(rt: HostRuntime) {
    for (case, change, sectors) in UNFORMED {
        assert_formed(&rt, case, change, sectors, false);
    }
}

/// Seals at the ends of their ranges, and the sectors of the disk.
const FORMED: [(&str, Change, u64); 5] = [
    ("a new pool", Change::Nothing, 2_048),
    (
        "group 2^62 - 1",
        Change::Group(4_611_686_018_427_387_903),
        2_048,
    ),
    ("1,000,000 sectors", Change::Sectors(1_000_000), 1_000_000),
    ("mode 2", Change::Modes(FIRST_VERIFIES), 2_048),
    ("a checkpoint, one change", Change::Checkpoint(1, 1), 2_048),
];

#[test]
fn a_seal_at_the_ends_of_its_ranges_is_formed(rt: HostRuntime) {
    for (case, change, sectors) in FORMED {
        assert_formed(&rt, case, change, sectors, true);
    }
}

/// The bytes of the modes.
const MODES: [(&str, u8, Mode); 3] = [
    ("off", 0, Mode::Off),
    ("on", 1, Mode::On),
    ("verify", 2, Mode::Verify),
];

#[test]
fn the_byte_of_a_lane_says_its_mode(rt: HostRuntime) {
    for (name, byte, mode) in MODES {
        assert_same(&rt, name, mode_of(byte), mode);
        assert_same(&rt, name, byte_of(mode), byte);
    }
    assert_same(&rt, "the mode of 3", mode_of(3), Mode::Verify);
    assert_same(&rt, "the mode of 255", mode_of(255), Mode::Verify);
}
