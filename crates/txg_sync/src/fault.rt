/// Why a seal wasn't written.
#[derive(Clone, Copy, Debug, PartialEq, Eq)]
pub enum SealFault {
    /// A read of the disk failed.
    ReadFault,
    /// A meter, a write or a barrier failed before the gate was written.
    WriteFault,
    /// The write of the gate failed, or the barrier behind it.
    GateFault,
}
