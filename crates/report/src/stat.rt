ghost use Rattle.std.specs.Prelude.{◌≡◌, ◌≤◌, [], ◌∷◌, length, codes, nat_le, IsTrue};
ghost use Rattle.std.specs.List.{flat_map, list_all};
ghost use Rattle.pool_model.specs.Text.{number_line, bucket_line, buckets_text, sums_text, stat_text, line, quota_word};
ghost use Rattle.report.specs.Writes.{Wrote};

use crate::words::{Word, write_line};
use io_model::{Failed, Sink};
use pool_model::{BUCKETS, Bucket, Stats};

/// No statistics, for the text of an item that tells none.
pub const NO_STATS: Stats = Stats {
    keys: 0,
    unique: 0,
    duplicate: 0,
    refs: 0,
    loose: 0,
    plain: 0,
    allocated: 0,
    referenced: 0,
    buckets: [Bucket {
        low: 0,
        keys: 0,
        allocated: 0,
        referenced: 0,
    }; BUCKETS],
};

/// Writes a number under its name.
pub(crate) fn write_number<W: Sink>(
    out: &mut W,
    name: &'static str,
    value: u64,
) -> Result<(), Failed>
    requires { length name.now ≤ 20 }
    ensures { Wrote (W.written out.old) (W.written out.new) (W.faults out.old) (W.faults out.new)
        (number_line name.now value) result }
{
    write_line(out, &[Word::Text(name), Word::Number(value)])
}

/// Writes the line of a bucket.
fn write_bucket<W: Sink>(out: &mut W, bucket: &Bucket) -> Result<(), Failed>
    ensures { Wrote (W.written out.old) (W.written out.new) (W.faults out.old) (W.faults out.new)
        (bucket_line bucket.now) result }
{
    let words = [
        Word::Text("bucket"),
        Word::Number(bucket.low),
        Word::Text("keys"),
        Word::Number(bucket.keys),
        Word::Text("allocated"),
        Word::Number(bucket.allocated),
        Word::Text("referenced"),
        Word::Number(bucket.referenced),
    ];
    write_line(out, &words)
}

/// Writes the lines of the buckets that have a key.
fn write_buckets<W: Sink>(out: &mut W, buckets: &[Bucket]) -> Result<(), Failed>
    ensures { Wrote (W.written out.old) (W.written out.new) (W.faults out.old) (W.faults out.new)
        (buckets_text buckets.now) result }
{
    'buckets: for bucket in buckets {
        if bucket.keys != 0 {
            write_bucket(out, bucket)?;
        }
    }
    Ok(())
}

/// Writes numbers under their names.
fn write_numbers<W: Sink>(out: &mut W, rows: &[(&'static str, u64)]) -> Result<(), Failed>
    requires { IsTrue (list_all (λ row. nat_le (length row.0.now) 20) rows.now) }
    ensures { Wrote (W.written out.old) (W.written out.new) (W.faults out.old) (W.faults out.new)
        (flat_map (λ row. number_line row.0.now row.1) rows.now) result }
{
    'rows: for (name, value) in rows {
        write_number(out, name, *value)?;
    }
    Ok(())
}

/// Writes the sums over all keys and pointers.
fn write_sums<W: Sink>(out: &mut W, stats: &Stats) -> Result<(), Failed>
    ensures { Wrote (W.written out.old) (W.written out.new) (W.faults out.old) (W.faults out.new)
        (sums_text stats.now) result }
{
    let rows = [
        ("keys", stats.keys),
        ("unique", stats.unique),
        ("duplicate", stats.duplicate),
        ("refs", stats.refs),
        ("loose", stats.loose),
        ("plain", stats.plain),
        ("allocated", stats.allocated),
        ("referenced", stats.referenced),
    ];
    write_numbers(out, &rows)
}

/// Writes the line of the quota.
fn write_quota<W: Sink>(out: &mut W, quota: Option<u64>) -> Result<(), Failed>
    ensures { Wrote (W.written out.old) (W.written out.new) (W.faults out.old) (W.faults out.new)
        (line (codes "quota" ∷ quota_word quota ∷ [])) result }
{
    match quota {
        None => write_line(out, &[Word::Text("quota"), Word::Text("none")]),
        Some(limit) => write_number(out, "quota", limit),
    }
}

/// Writes what `stat` prints of a pool of this group and quota.
pub(crate) fn write_stat<W: Sink>(
    out: &mut W,
    stats: &Stats,
    group: u64,
    quota: Option<u64>,
) -> Result<(), Failed>
    ensures { Wrote (W.written out.old) (W.written out.new) (W.faults out.old) (W.faults out.new)
        (stat_text group quota stats.now) result }
{
    write_number(out, "stat", group)?;
    write_quota(out, quota)?;
    write_sums(out, stats)?;
    write_buckets(out, &stats.buckets)
}
