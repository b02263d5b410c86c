ghost use Rattle.std.specs.Prelude.{◌≡◌, ◌≤◌, ◌<◌, ◌+◌, ℕ, length, fold, All, IfOk};
ghost use Rattle.disk_model.specs.Memory.{write_sector, crash_sector, choice_at, cells_after, padded, IsWithin};

use crate::call::{Call, SectorWrite};
use std::alloc::{AllocError, Global};

/// What the sectors held at the last barrier, and the writes since.
#[derive(Drop)]
pub(crate) struct Settled {
    pub base: Vec<[u8; 4096]>,
    pub pending: Vec<SectorWrite>,
}

/// Replays these calls on a disk of so many sectors that held `start`, and zeros behind.
/// The error is want of memory.
pub(crate) fn replay(
    alloc: Global,
    sectors: usize,
    start: &[[u8; 4096]],
    calls: &[Call],
) -> Result<Settled, AllocError>
    requires fits { length start.now ≤ sectors }
    requires within { All (IsWithin sectors) calls.now }
    ensures base { IfOk result (λ settled. settled.base.items ≡ (cells_after (padded sectors start.now) calls.now).base) }
    ensures pending { IfOk result (λ settled. settled.pending.items ≡ (cells_after (padded sectors start.now) calls.now).pending) }
    ensures count { IfOk result (λ settled. length settled.base.items ≡ sectors) }
    ensures writes { IfOk result (λ settled. All (λ write. write.at < sectors) settled.pending.items) }
{
    let mut base = padded_copy(alloc, sectors, start)?;
    let mut pending = Vec::new(alloc);
    'calls: for call in calls {
        match call {
            Call::Write(write) => pending.push(*write)?,
            Call::Barrier => {
                write_all(&mut base, &pending);
                pending.clear();
            }
        }
    }
    Ok(Settled { base, pending })
}

/// These sectors, and zeros behind them up to so many. The error is want of memory.
pub(crate) fn padded_copy(
    alloc: Global,
    sectors: usize,
    image: &[[u8; 4096]],
) -> Result<Vec<[u8; 4096]>, AllocError>
    requires { length image.now ≤ sectors }
    ensures { IfOk result (λ copy. copy.items ≡ padded sectors image.now) }
{
    let mut copy = Vec::with_capacity(alloc, sectors)?;
    copy.extend_from_slice(image)?;
    copy.resize(sectors, [0u8; 4096])?;
    Ok(copy)
}

/// Makes these writes.
fn write_all(sectors: &mut [[u8; 4096]], writes: &[SectorWrite])
    requires { All (λ write. write.at < length sectors.old) writes.now }
    ensures { sectors.new ≡ fold write_sector sectors.old writes.now }
{
    'writes: for write in writes {
        sectors[write.at as usize] = write.bytes;
    }
}

/// Makes of each sector that is written to what the crash by this choice leaves of it.
pub(crate) fn crash_all(
    choice: u8,
    sectors: &mut [[u8; 4096]],
    now: &[[u8; 4096]],
    writes: &[SectorWrite],
)
    requires same { length now.now ≡ length sectors.old }
    requires within { All (λ write. write.at < length sectors.old) writes.now }
    ensures { sectors.new ≡ fold (crash_sector choice now.now) sectors.old writes.now }
{
    'writes: for write in writes {
        let at = write.at as usize;
        match choice_at(choice, write.at) {
            0 => {}
            1 => sectors[at] = now[at],
            _ => sectors[at] = [165u8; 4096],
        }
    }
}

/// What a crash does with a pending sector: keeps what it held at the last barrier (0), or what was
/// written (1), or sets each byte to 165 (2).
fn choice_at(choice: u8, at: u64) -> u8
    ensures { result ≡ choice_at choice at }
{
    if choice == 3 { (at % 3) as u8 } else { choice }
}
