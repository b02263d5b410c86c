ghost use Rattle.std.specs.Prelude.{◌≡◌};
ghost use Rattle.page_tree.specs.Faults.{page_fault_of};
ghost use Rattle.page_tree.specs.declared.fault.PageFault.TheVariants.{Memory as OutOfMemory};

use std::alloc::AllocError;

/// Why a page wasn't found.
#[derive(Clone, Copy, Debug, PartialEq, Eq)]
pub enum FindFault {
    /// The disk didn't give a sector.
    ReadFault,
    /// What the disk gave for this sector lacks its digest or its form.
    Damaged(u64),
}

/// Why a call that reads pages and also takes memory gave up.
#[derive(Clone, Copy, Debug, PartialEq, Eq)]
pub enum PageFault {
    /// The disk didn't give a sector.
    ReadFault,
    /// What the disk gave for this sector lacks its digest or its form.
    Damaged(u64),
    /// There was no memory.
    Memory,
}

impl From<FindFault> for PageFault {
    ghost from_gives = { λ found told. told ≡ page_fault_of found };

    fn from(fault: FindFault) -> Self {
        match fault {
            FindFault::ReadFault => PageFault::ReadFault,
            FindFault::Damaged(sector) => PageFault::Damaged(sector),
        }
    }
}

impl From<AllocError> for PageFault {
    ghost from_gives = { λ _ told. told ≡ OutOfMemory };

    fn from(_: AllocError) -> Self {
        PageFault::Memory
    }
}
