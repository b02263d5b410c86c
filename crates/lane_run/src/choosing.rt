//! What a write answers, and where its pointer goes.

ghost use Rattle.std.specs.Prelude.{◌≡◌, ◌≤◌, ◌<◌, ℕ, true, List, length, map, Some, IfSome, if◌then◌else◌};
ghost use Rattle.std.specs.List.{AllByRecursion};
ghost use Rattle.disk_model.specs.Images.{Image};
ghost use Rattle.pool_model.specs.declared.answers.WriteAnswer.TheVariants as written;
ghost use Rattle.pool_model.specs.Plain.{to_write};
ghost use Rattle.pool_model.specs.Mirrors.{stored_of};
ghost use Rattle.pool_model.specs.Command.{row, nowhere, verify_row, is_fault};
ghost use Rattle.home_rules.specs.Rows.{row_of};
ghost use Rattle.lane_run.specs.Live.{CountsFault, IsChosen, IsHomeOf, IsSince, first_mode, home_here, is_taken, known_by, mode_here};

use crate::block::sector_at;
use crate::live::LiveGroup;
use ddt_entry::{Home, Key, KeyOf};
use disk_model::Disk;
use home_rules::{Row, fault_row, off_row, table_row, taken_row, verified_row};
use pool_model::{Mode, StoredBlock};
use quota_rule::allows;
use table_state::Pool;

/// How lane 0 uses the table.
pub fn first_mode(modes: &[Mode; 16]) -> Mode
    ensures { result ≡ first_mode modes.now }
{
    modes[0]
}

/// In a lane that verifies: the block of the key's home, where it has one, is read and compared. A read
/// that fails leads to a fault.
fn verified<D: Disk, K: KeyOf>(
    disk: &D,
    meter: &mut D::Meter,
    keyer: &K,
    contents: &[StoredBlock],
    home: Option<Home>,
    content: &[u8],
    allowed: bool,
    moment: u64,
) -> Row
    requires some { 0 < length content.now }
    requires fits { length content.now ≤ 4096 }
    requires on_disk { IfSome home (λ home. home.place < (D.state disk.now).sectors) }
    requires blocks { AllByRecursion (λ stored. length stored.bytes ≤ 4096) (map stored_of contents.now) }
    ensures row { (image : Image) → (D.state disk.now).seen ≡ Some image
        → row_of result ≡ (if is_fault (to_write (row_of result).answer) then row written.Fault nowhere
        else verify_row (K.keying keyer.now).key_of
        (known_by image (map stored_of contents.now) ((K.keying keyer.now).key_of content.now) home) content.now allowed moment) }
    ensures home { IsHomeOf home (row_of result).spot }
    ensures since { IsSince moment (row_of result).spot }
    ensures counts { CountsFault (D.meter_faults meter.old) (D.meter_faults meter.new) (row_of result).answer }
{
    let Some(found) = home else {
        return verified_row(None, true, true, allowed, moment);
    };
    let Ok(sector) = sector_at(disk, meter, contents, found.place) else {
        return fault_row();
    };
    // The key of a content has its length.
    let block = &sector[..content.len()];
    let has_key = keyer.key(block) == keyer.key(content);
    let same = *block == *content;
    verified_row(home, has_key, same, allowed, moment)
}

/// What a write into an empty slot answers, and where its pointer goes.
fn for_mode<D: Disk, K: KeyOf>(
    pool: &Pool,
    disk: &D,
    meter: &mut D::Meter,
    keyer: &K,
    live: &LiveGroup,
    content: &[u8],
    moment: u64,
) -> Row
    requires some { 0 < length content.now }
    requires fits { length content.now ≤ 4096 }
    requires on_disk { IfSome (home_here pool.now.table live.now.homes ((K.keying keyer.now).key_of content.now))
        (λ home. home.place < (D.state disk.now).sectors) }
    requires blocks { AllByRecursion (λ stored. length stored.bytes ≤ 4096) live.now.contents }
    ensures row { (image : Image) → (D.state disk.now).seen ≡ Some image
        → row_of result ≡ mode_here (K.keying keyer.now).key_of image pool.now live.now moment content.now
        (is_fault (to_write (row_of result).answer)) }
    ensures home { IsHomeOf (home_here pool.now.table live.now.homes ((K.keying keyer.now).key_of content.now)) (row_of result).spot }
    ensures since { IsSince moment (row_of result).spot }
    ensures counts { CountsFault (D.meter_faults meter.old) (D.meter_faults meter.new) (row_of result).answer }
{
    let home = live.home_of(pool, &keyer.key(content));
    let allowed = allows(live.keys, pool.limit);
    match first_mode(&pool.modes) {
        Mode::Off => off_row(),
        Mode::On => table_row(home, allowed, moment),
        Mode::Verify => verified(
            disk,
            meter,
            keyer,
            live.contents.as_slice(),
            home,
            content,
            allowed,
            moment,
        ),
    }
}

/// What a write into a slot of lane 0 answers, and where its pointer goes.
pub fn chosen<D: Disk, K: KeyOf>(
    pool: &Pool,
    disk: &D,
    meter: &mut D::Meter,
    keyer: &K,
    live: &LiveGroup,
    slot: u32,
    content: &[u8],
    moment: u64,
) -> Row
    requires some { 0 < length content.now }
    requires fits { length content.now ≤ 4096 }
    requires on_disk { IfSome (home_here pool.now.table live.now.homes ((K.keying keyer.now).key_of content.now))
        (λ home. home.place < (D.state disk.now).sectors) }
    requires blocks { AllByRecursion (λ stored. length stored.bytes ≤ 4096) live.now.contents }
    ensures row { IsChosen (D.state disk.now).seen (K.keying keyer.now).key_of pool.now live.now moment slot content.now (row_of result) }
    ensures home { IsHomeOf (home_here pool.now.table live.now.homes ((K.keying keyer.now).key_of content.now)) (row_of result).spot }
    ensures since { IsSince moment (row_of result).spot }
    ensures empty { is_taken pool.now live.now slot ≡ true → (row_of result).spot ≡ nowhere }
    ensures counts { CountsFault (D.meter_faults meter.old) (D.meter_faults meter.new) (row_of result).answer }
{
    if live.is_taken(pool, slot) {
        return taken_row();
    }
    for_mode(pool, disk, meter, keyer, live, content, moment)
}
