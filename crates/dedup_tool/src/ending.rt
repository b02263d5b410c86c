ghost use Rattle.std.specs.Prelude.{◌≡◌};
ghost use Rattle.dedup_tool.specs.Ending.{by_memory};

use session::Status;

/// How a session over a disk in memory ended, where so many of the disk's calls found no memory: a write
/// fault is want of memory then.
pub fn by_memory(starved: u64, status: Status) -> Status
    ensures { result ≡ by_memory starved status }
{
    if starved == 0 {
        return status;
    }
    match status {
        Status::WriteFault => Status::OutOfMemory,
        other => other,
    }
}
