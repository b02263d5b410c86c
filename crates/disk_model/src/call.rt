/// A write of one sector.
#[derive(Clone, Copy, Debug)]
pub struct SectorWrite {
    /// The sector's number.
    pub at: u64,
    pub bytes: [u8; 4096],
}

/// What a disk in memory remembers of a call that was done.
#[derive(Clone, Copy, Debug)]
pub enum Call {
    Write(SectorWrite),
    Barrier,
}
