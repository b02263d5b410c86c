ghost use Rattle.std.specs.Prelude.{◌≡◌, ℕ, ◌+◌, ◌*◌, ◌^◌, ◌<◌, ◌≤◌, ◌==◌, IfOk, length, filter, sum_by, count_by, nat_lt, map};
ghost use Rattle.std.specs.List.{range_with_len};
ghost use Rattle.pool_model.specs.Pool.{Pool};
ghost use Rattle.pool_model.specs.Stats.{is_in_bucket, stats_of};
ghost use Rattle.pool_stats.specs.References.{reference_of, is_tracked, is_loose, is_plain, AreSmall};
ghost use Rattle.pool_stats.specs.Counts.{AreFew, bucket_in, stats_in, key_counts, tracked_keys};

use crate::counts::{KeyCount, is_tracked, key_counts};
use crate::reference::{Reference, Standing};
use pool_model::{BUCKETS, Bucket, Stats};
use std::alloc::{AllocError, Global};

/// A bucket without keys.
pub const NO_KEYS: Bucket = Bucket {
    low: 0,
    keys: 0,
    allocated: 0,
    referenced: 0,
};

/// What `stat` prints of a pool with these pointers, of which there are at most 1,048,576, with keys of at
/// most 4,096 bytes. The error is want of memory.
pub fn stats(alloc: Global, references: &[Reference]) -> Result<Stats, AllocError>
    requires { AreSmall references.now }
    ensures { (pool : Pool) → map reference_of pool.pointers ≡ references.now → IfOk result (λ stats. stats ≡ stats_of pool) }
{
    let counts = key_counts(alloc, references)?;
    stats_in(alloc, references, counts.as_slice())
}

/// The numbers, from the pointers and from the counts of their keys.
fn stats_in(
    alloc: Global,
    references: &[Reference],
    counts: &[KeyCount],
) -> Result<Stats, AllocError>
    requires small { AreSmall references.now }
    requires few { AreFew counts.now }
    ensures { IfOk result (λ stats. stats ≡ stats_in references.now counts.now) }
{
    let buckets = buckets(alloc, counts)?;
    Ok(Stats {
        keys: counts.len() as u64,
        unique: unique_among(counts),
        duplicate: duplicate_among(counts),
        refs: tracked_among(references),
        loose: loose_among(references),
        plain: plain_among(references),
        allocated: allocated_by(counts),
        referenced: referenced_among(references),
        buckets,
    })
}

/// How many pointers the table counts.
fn tracked_among(references: &[Reference]) -> u64
    ensures { result ≡ count_by (λ reference. is_tracked reference.standing) references.now }
{
    references
        .iter()
        .filter(|reference| is_tracked(reference.standing))
        .count() as u64
}

/// Whether the table counts a pointer of this standing no more.
fn is_loose(standing: Standing) -> bool
    ensures { result ≡ is_loose standing }
{
    match standing {
        Standing::Plain => false,
        Standing::Tracked => false,
        Standing::Loose => true,
    }
}

/// How many pointers the table counts no more.
fn loose_among(references: &[Reference]) -> u64
    ensures { result ≡ count_by (λ reference. is_loose reference.standing) references.now }
{
    references
        .iter()
        .filter(|reference| is_loose(reference.standing))
        .count() as u64
}

/// Whether a pointer of this standing is outside the table.
fn is_plain(standing: Standing) -> bool
    ensures { result ≡ is_plain standing }
{
    match standing {
        Standing::Plain => true,
        Standing::Tracked => false,
        Standing::Loose => false,
    }
}

/// How many pointers are outside the table.
fn plain_among(references: &[Reference]) -> u64
    ensures { result ≡ count_by (λ reference. is_plain reference.standing) references.now }
{
    references
        .iter()
        .filter(|reference| is_plain(reference.standing))
        .count() as u64
}

/// The bytes of the blocks that the table counts, once for each pointer.
fn referenced_among(references: &[Reference]) -> u64
    requires { AreSmall references.now }
    ensures { result ≡ sum_by (λ reference. reference.key.len) (filter (λ reference. is_tracked reference.standing) references.now) }
{
    let mut bytes = 0;
    'references: for reference in references {
        if is_tracked(reference.standing) {
            bytes += u64::from(reference.key.len);
        }
    }
    bytes
}

/// How many of these keys have one pointer that the table counts.
fn unique_among(counts: &[KeyCount]) -> u64
    ensures { result ≡ count_by (λ counted. counted.count == 1) counts.now }
{
    counts.iter().filter(|counted| counted.count == 1).count() as u64
}

/// How many of these keys have more than one.
fn duplicate_among(counts: &[KeyCount]) -> u64
    ensures { result ≡ count_by (λ counted. nat_lt 1 counted.count) counts.now }
{
    counts.iter().filter(|counted| counted.count > 1).count() as u64
}

/// The bytes of these keys' blocks, each once.
fn allocated_by(counts: &[KeyCount]) -> u64
    requires { AreFew counts.now }
    ensures { result ≡ sum_by (λ counted. counted.key.len) counts.now }
{
    let mut bytes = 0;
    'counts: for counted in counts {
        bytes += u64::from(counted.key.len);
    }
    bytes
}

/// The bytes of these keys' blocks, once for each pointer.
fn referenced_by(counts: &[KeyCount]) -> u64
    requires { AreFew counts.now }
    ensures { result ≡ sum_by (λ counted. counted.key.len * counted.count) counts.now }
{
    let mut bytes = 0;
    'counts: for counted in counts {
        bytes += u64::from(counted.key.len) * counted.count;
    }
    bytes
}

/// The keys of each bucket, counted.
fn buckets(alloc: Global, counts: &[KeyCount]) -> Result<[Bucket; BUCKETS], AllocError>
    requires { AreFew counts.now }
    ensures { IfOk result (λ buckets. buckets ≡ map (bucket_in counts.now) (range_with_len 0 21)) }
{
    let mut buckets = [NO_KEYS; BUCKETS];
    for b in 0..BUCKETS {
        buckets[b] = bucket(alloc, counts, b as u32)?;
    }
    Ok(buckets)
}

/// The keys whose counts are of bucket b, counted, with their bytes.
fn bucket(alloc: Global, counts: &[KeyCount], b: u32) -> Result<Bucket, AllocError>
    requires bucket { b < 21 }
    requires few { AreFew counts.now }
    ensures { IfOk result (λ bucket. bucket ≡ bucket_in counts.now b) }
{
    let members = members_of(alloc, counts, b)?;
    Ok(Bucket {
        low: 2u64.pow(b),
        keys: members.len() as u64,
        allocated: allocated_by(members.as_slice()),
        referenced: referenced_by(members.as_slice()),
    })
}

/// Those of these keys whose counts are of bucket b.
fn members_of(alloc: Global, counts: &[KeyCount], b: u32) -> Result<Vec<KeyCount>, AllocError>
    requires { b < 21 }
    ensures { IfOk result (λ members. members.items ≡ filter (λ counted. is_in_bucket b counted.count) counts.now) }
{
    counts
        .iter()
        .copied()
        .filter(|counted| is_in_bucket(b, counted.count))
        .collect(alloc)
}

/// Whether a count lies from 2^b to 2^(b + 1) - 1.
pub fn is_in_bucket(b: u32, count: u64) -> bool
    requires { b < 21 }
    ensures { result ≡ is_in_bucket b count }
{
    2u64.pow(b) <= count && count < 2u64.pow(b + 1)
}
