ghost use Rattle.std.specs.Prelude.{◌≡◌};
ghost use Rattle.pool_model.specs.declared.faults.SyncFault.TheVariants.{Memory as OutOfMemory};
ghost use Rattle.pool_model.specs.declared.faults.GroupFault.TheVariants.{Memory as GroupOutOfMemory};

use std::alloc::AllocError;

/// Why a pool wasn't read from a disk, or a group wasn't sealed.
#[derive(Clone, Copy, Debug, PartialEq, Eq)]
pub enum SyncFault {
    /// A read of the disk failed.
    ReadFault,
    /// A meter, a write or a barrier of the disk failed, before the gate of a group's seal was written.
    WriteFault,
    /// The write of the gate of a group's seal failed, or the barrier behind it: the group may be sealed or not.
    GateFault,
    /// The image stands for no pool: what was found at this sector is not what has to stand there.
    Damaged(u64),
    /// There was no memory.
    Memory,
}

impl From<AllocError> for SyncFault {
    ghost from_gives = { λ _ told. told ≡ OutOfMemory };

    fn from(_: AllocError) -> Self {
        SyncFault::Memory
    }
}

/// Why a group wasn't run. After each of these no lane of it is noted.
#[derive(Clone, Copy, Debug, PartialEq, Eq)]
pub enum GroupFault {
    /// The group needs so many sectors where so many are free; it did nothing.
    NoSpace { need: u64, free: u64 },
    /// A read of the opening failed.
    ReadFault,
    /// The disk gave no meter.
    WriteFault,
    /// What was read at this sector while the group opened is not what has to stand there.
    Damaged(u64),
    /// There was no memory.
    Memory,
}

impl From<AllocError> for GroupFault {
    ghost from_gives = { λ _ told. told ≡ GroupOutOfMemory };

    fn from(_: AllocError) -> Self {
        GroupFault::Memory
    }
}
