ghost use Rattle.std.specs.Prelude.{◌≡◌, ◌*◌, ◌^◌, ◌<◌, [], ℕ, List, map};
ghost use Rattle.std.specs.List.{range_with_len};
ghost use Rattle.ddt_entry.specs.declared.entry.Entry.{Entry};
ghost use Rattle.pool_model.specs.Pool.{Pool};
ghost use Rattle.pool_model.specs.Stats.{stats_of};
ghost use Rattle.pool_stats.specs.Totals.{one_of, in_bucket, totals_in, moved, wrapped, sum_moved, totals_moved, bucket_at, bucket_told, unique_in, stats_by, AreHomesOf};

use crate::totals::{NO_KEYS, is_in_bucket};
use ddt_entry::Entry;
use pool_model::{BUCKETS, Bucket, Stats};

/// How many keys, and the bytes of their blocks.
#[derive(Clone, Copy, Debug, PartialEq, Eq)]
pub struct KeySum {
    pub keys: u64,
    /// Each block once.
    pub allocated: u64,
    /// Each block once for each of its pointers.
    pub referenced: u64,
}

/// The sums over the homes that are counted, kept as homes change. Each is kept modulo 2^64; those of a pool whose
/// pointers are known are below that.
#[derive(Clone, Copy, Debug, PartialEq, Eq)]
pub struct RunningTotals {
    pub all: KeySum,
    /// How many pointers are counted.
    pub refs: u64,
    /// Bucket b has the keys whose counts lie from 2^b to 2^(b + 1) - 1.
    pub buckets: [KeySum; BUCKETS],
}

/// The sum over no key.
const NO_SUM: KeySum = KeySum {
    keys: 0,
    allocated: 0,
    referenced: 0,
};

/// A sum without one share and with another.
fn moved(sum: u64, gone: u64, come: u64) -> u64
    ensures { result ≡ moved sum gone come }
{
    sum.wrapping_sub(gone).wrapping_add(come)
}

/// A key is one where it is counted at all.
fn one_of(count: u64) -> u64
    ensures counted { result ≡ one_of count }
    ensures small { result < 2 }
{
    if count > 0 { 1 } else { 0 }
}

/// A count of bucket b, and 0 in place of any other.
fn in_bucket(b: u32, count: u64) -> u64
    requires { b < 21 }
    ensures { result ≡ in_bucket b count }
{
    if is_in_bucket(b, count) { count } else { 0 }
}

/// The bytes of so many blocks of this length, modulo 2^64.
fn bytes_of(count: u64, len: u32) -> u64
    ensures { result ≡ wrapped (count * len) }
{
    count.wrapping_mul(u64::from(len))
}

impl KeySum {
    /// The sum where the count of a key of this length changes.
    fn moved(self, len: u32, before: u64, now: u64) -> KeySum
        ensures { result ≡ sum_moved len before now self }
    {
        KeySum {
            keys: moved(self.keys, one_of(before), one_of(now)),
            allocated: moved(
                self.allocated,
                bytes_of(one_of(before), len),
                bytes_of(one_of(now), len),
            ),
            referenced: moved(self.referenced, bytes_of(before, len), bytes_of(now, len)),
        }
    }
}

/// The buckets where the count of a key of this length changes.
fn buckets_moved(buckets: &[KeySum; BUCKETS], len: u32, before: u64, now: u64) -> [KeySum; BUCKETS]
    ensures { result ≡ map (λ b. sum_moved len (in_bucket b before) (in_bucket b now) (bucket_at buckets.now b)) (range_with_len 0 21) }
{
    let mut changed = [NO_SUM; BUCKETS];
    for b in 0..BUCKETS {
        let (gone, come) = (in_bucket(b as u32, before), in_bucket(b as u32, now));
        changed[b] = buckets[b].moved(len, gone, come);
    }
    changed
}

/// The buckets as `stat` prints them.
fn buckets_told(buckets: &[KeySum; BUCKETS]) -> [Bucket; BUCKETS]
    ensures { result ≡ map (λ b. bucket_told b (bucket_at buckets.now b)) (range_with_len 0 21) }
{
    let mut told = [NO_KEYS; BUCKETS];
    for b in 0..BUCKETS {
        told[b] = Bucket {
            low: 2u64.pow(b as u32),
            keys: buckets[b].keys,
            allocated: buckets[b].allocated,
            referenced: buckets[b].referenced,
        };
    }
    told
}

impl RunningTotals {
    /// The totals of a pool that counts no key.
    pub fn new() -> RunningTotals
        ensures { result ≡ totals_in [] }
    {
        RunningTotals {
            all: NO_SUM,
            refs: 0,
            buckets: [NO_SUM; BUCKETS],
        }
    }

    /// The totals of a pool that counts these homes.
    pub fn over(homes: &[Entry]) -> RunningTotals
        ensures { result ≡ totals_in homes.now }
    {
        let mut totals = RunningTotals::new();
        'homes: for entry in homes {
            totals.change(entry.key.len, 0, entry.home.count);
        }
        totals
    }

    /// The count of a key of this length changes, where it is 0 of a key that isn't counted.
    pub fn change(&mut self, len: u32, before: u64, now: u64)
        ensures { self.new ≡ totals_moved len before now self.old }
    {
        self.all = self.all.moved(len, before, now);
        self.refs = moved(self.refs, before, now);
        self.buckets = buckets_moved(&self.buckets, len, before, now);
    }

    /// How many keys have one pointer that the table counts.
    fn unique(&self) -> u64
        ensures { result ≡ unique_in self.now }
    {
        self.buckets[0].keys
    }

    /// What `stat` prints of a pool with so many slots that hold a pointer, so many of them outside the table.
    pub fn stats(&self, slots: u64, plain: u64) -> Stats
        ensures { (pool : Pool) (homes : List Entry) → self.now ≡ totals_in homes → AreHomesOf pool homes slots plain → result ≡ stats_of pool }
    {
        self.told(slots, plain)
    }

    /// The numbers as they are kept, and those that follow from them.
    fn told(&self, slots: u64, plain: u64) -> Stats
        ensures { result ≡ stats_by self.now slots plain }
    {
        Stats {
            keys: self.all.keys,
            unique: self.unique(),
            duplicate: moved(self.all.keys, self.unique(), 0),
            refs: self.refs,
            loose: moved(moved(slots, plain, 0), self.refs, 0),
            plain,
            allocated: self.all.allocated,
            referenced: self.all.referenced,
            buckets: buckets_told(&self.buckets),
        }
    }
}
