/// How many buckets of counts there are: a count is at most 2^20.
pub const BUCKETS: usize = 21;

/// The keys whose counts lie from `low` to `2 * low - 1`.
#[derive(Clone, Copy, Debug, PartialEq, Eq)]
pub struct Bucket {
    pub low: u64,
    pub keys: u64,
    /// The bytes of these keys' blocks, each once.
    pub allocated: u64,
    /// The bytes of these keys' blocks, once for each pointer.
    pub referenced: u64,
}

/// What `stat` prints of a pool.
#[derive(Clone, Copy, Debug, PartialEq, Eq)]
pub struct Stats {
    /// Keys that have a tracked pointer.
    pub keys: u64,
    /// Keys with one tracked pointer.
    pub unique: u64,
    /// Keys with more than one.
    pub duplicate: u64,
    /// Tracked pointers.
    pub refs: u64,
    /// Pointers that the table counts no more.
    pub loose: u64,
    /// Pointers outside the table.
    pub plain: u64,
    /// The bytes of the tracked blocks, each once.
    pub allocated: u64,
    /// The bytes of the tracked blocks, once for each pointer.
    pub referenced: u64,
    /// Bucket b has the keys whose counts lie from 2^b to 2^(b + 1) - 1.
    pub buckets: [Bucket; BUCKETS],
}
